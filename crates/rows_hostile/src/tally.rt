//! How many runs there were, and what was in them.

/// Counts of runs, of their moves and of their replies.
#[derive(Clone, Copy)]
pub(crate) struct Tally {
    pub(crate) runs: usize,
    pub(crate) moves: usize,
    pub(crate) replies: usize,
    /// How many replies were failures.
    pub(crate) failures: usize,
}

impl Tally {
    /// Of no run.
    pub(crate) const NONE: Tally = Tally {
        runs: 0,
        moves: 0,
        replies: 0,
        failures: 0,
    };

    /// Counts a reply.
    pub(crate) fn reply(&mut self, reply: &str) {
        self.replies = self.replies.saturating_add(1);
        if reply.starts_with("failed") || reply.starts_with("refused") {
            self.failures = self.failures.saturating_add(1);
        }
    }

    /// Counts a run of so many moves.
    pub(crate) fn run(&mut self, moves: usize) {
        self.runs = self.runs.saturating_add(1);
        self.moves = self.moves.saturating_add(moves);
    }
}
