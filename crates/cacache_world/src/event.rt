//! What is to happen in a world, and what came of it.
use cacache_calls::{Command, Reply};
use cacache_disk::Luck;

/// What is to happen. A caller is known by its number, from 0.
#[derive(Debug, Drop)]
pub enum Event {
    /// The caller begins a call.
    Begin(usize, Command),
    /// The caller's call makes its next step, which turns out so.
    Move(usize, Luck),
    /// The caller gives its call up.
    Stop(usize),
}

/// What came of a move.
#[derive(Debug, Drop)]
pub enum Move {
    /// The call goes on.
    More,
    /// The call is over with this reply.
    Done(Reply),
}

/// Why an event can't be. It then changes nothing.
#[derive(Debug, Clone, Copy, PartialEq, Eq)]
pub enum WorldFault {
    /// There is no such caller.
    NoCaller,
    /// The caller has a call already.
    Busy,
    /// The caller has no call.
    Idle,
    /// A path of the command, or of an outside file, isn't allowed.
    BadCommand,
    /// Memory was refused.
    OutOfMemory,
}
