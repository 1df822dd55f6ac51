//! What a store hears of walks, which may refuse a change in one that wasn't begun.
use cacache_store::store::Step;

/// Whether a call listed folders, and whether it had begun its walks before.
#[derive(Clone, Copy)]
pub struct Walks {
    is_begun: bool,
    is_listed: bool,
}

impl Walks {
    /// No walk is under way.
    pub fn new() -> Walks {
        Walks {
            is_begun: false,
            is_listed: false,
        }
    }

    /// Walks begin.
    pub fn begin(&mut self) {
        self.is_begun = true;
    }

    /// Whether a step changes something in a walk that the call didn't begin. Notes a listing.
    pub fn refuses<F, T>(&mut self, step: &Step<F, T>) -> bool {
        match step {
            Step::ReadDir(_) => {
                self.is_listed = true;
                false
            }
            Step::RemoveFile(_) | Step::RemoveDir(_) | Step::Append(_, _) | Step::Persist(_, _) => {
                self.is_listed && !self.is_begun
            }
            _ => false,
        }
    }
}
