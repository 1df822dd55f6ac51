//! Counts of rows.
ghost use Rattle.std.specs.Prelude.{◌≡◌, ◌<◌, ◌↔◌, IsTrue, IsFalse};

/// The number of rows that hold, and of those that don't.
#[derive(Clone, Copy)]
pub(crate) struct Tally {
    pub(crate) held: u64,
    pub(crate) wrong: u64,
}

impl Tally {
    /// The counts before any row.
    pub(crate) const NONE: Tally = Tally { held: 0, wrong: 0 };

    /// Counts a row.
    pub(crate) fn count(&mut self, is_held: bool)
        ensures held { IsTrue is_held → self.new.wrong ≡ self.old.wrong }
        ensures wrong { IsFalse is_held → 0 < self.new.wrong }
    {
        if is_held {
            self.held = self.held.saturating_add(1);
        } else {
            self.wrong = self.wrong.saturating_add(1);
        }
    }

    /// Whether every row holds.
    pub(crate) fn all_hold(&self) -> bool
        ensures { IsTrue result ↔ (self.now.wrong ≡ 0) }
    {
        self.wrong == 0
    }
}
