//! What happens when callers take turns.
use cacache_calls::{Command, Reply};
use cacache_disk::Luck;
use cacache_store::store::{PlainAnswer, PlainStep};

/// One thing that happened. A caller is known by its number, from 0.
#[derive(Debug, Drop)]
pub enum Record {
    /// The caller began a call.
    Began(usize, Command),
    /// The caller's call moved: the luck, the step with its answer, and the reply if the call is over.
    ///
    /// There is no step only if the call was over before any.
    Moved(usize, Luck, Option<(PlainStep, PlainAnswer)>, Option<Reply>),
    /// The caller gave its call up.
    Stopped(usize),
}
