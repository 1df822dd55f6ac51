//! The clock.
ghost use Rattle.std.specs.Prelude.{ℕ, List, Option, None};
ghost use Rattle.cacache_store.specs.Outside.{AddsAnswer};

/// A source of the time.
pub trait Clock: Drop {
    /// The answers so far, oldest first, if the clock keeps them.
    ghost given: { Self → Option (List ℕ) } = { λ _. None };

    /// The time in milliseconds since the start of 1970 (UTC).
    fn now(&mut self) -> u64
        ensures given { AddsAnswer (given self.old) (given self.new) result };
}
