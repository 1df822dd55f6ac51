//! How a library of rows tries a row.
ghost use Rattle.std.specs.{Prelude.{◌≡◌, ◌↔◌, IsTrue}, String.{string_bytes}};

use crate::flaw::Flaw;

/// The expected and the actual result of a row.
#[derive(Drop)]
pub struct Outcome {
    /// The result that the row states.
    pub wanted: String,
    /// The actual result, in the words of rows.
    pub got: String,
}

impl Outcome {
    /// Whether the row holds.
    pub(crate) fn holds(&self) -> bool
        ensures { IsTrue result ↔ (string_bytes self.now.wanted ≡ string_bytes self.now.got) }
    {
        self.wanted == self.got
    }
}

/// How a library of rows tries a row.
pub trait Trial {
    /// Begins a group of rows, and forgets the rows so far.
    fn begin(&mut self) {}

    /// Tries a row, in which each name is already replaced by its text. The row holds if the actual result is the expected
    /// one.
    fn outcome(&mut self, row: &str) -> Result<Outcome, Flaw>;
}
