//! Numbers for temporary names.
ghost use Rattle.std.specs.Prelude.{◌≡◌, ◌+◌, ◌%◌, ◌^◌, ℕ, List, Option, None};
ghost use Rattle.cacache_store.specs.Outside.{AddsAnswer};

use std::marker::Model;

/// A source of the numbers in the names of temporary files. The calls on caches need fresh numbers, and it is up to the
/// source to ensure that they are.
pub trait Names: Drop {
    /// The answers so far, oldest first, if the source keeps them.
    ghost given: { Self → Option (List ℕ) } = { λ _. None };

    /// A number that no temporary file of the cache has.
    fn fresh(&mut self) -> u64
        ensures given { AddsAnswer (given self.old) (given self.new) result };
}

/// Counts up from a number, and wraps to 0 after 2^64 - 1. Contracts see the next number.
#[derive(Debug, Drop)]
pub struct CountNames {
    next: u64,
}

impl Model for CountNames {
    ghost use Rattle.std.specs.Prelude.{ℕ};

    ghost Value = { ℕ };

    ghost view = { λ names. names.next };
}

impl CountNames {
    /// Starts counting at `first`, which is the first answer.
    pub fn from(first: u64) -> CountNames
        ensures { result ≡ first }
    {
        CountNames { next: first }
    }
}

impl Names for CountNames {
    fn fresh(&mut self) -> u64
        ensures value { result ≡ self.old }
        ensures next { self.new ≡ (self.old + 1) % 2 ^ 64 }
    {
        let number = self.next;
        self.next = number.wrapping_add(1);
        number
    }
}
