//! The gate that each worker or thread asks before each of its turns.
ghost use Rattle.std.specs.Prelude.{◌≡◌};
ghost use Rattle.cacache_jobs.specs.declared.gate.Pass.TheVariants as passes;

/// A gate's answer about a turn.
#[derive(Clone, Copy, Debug, PartialEq, Eq)]
pub enum Pass {
    /// The turn may be taken.
    Go,
    /// Ask again for this turn, a little later.
    NotYet,
    /// Take no more turns.
    Quit,
}

/// Decides before each turn whether it may be taken.
pub trait Gate {
    /// Whether the turn of this number, counted from 0, may be taken.
    fn pass(&self, turn: u64) -> Pass;
}

/// A gate that lets every turn through.
#[derive(Clone, Copy, Debug)]
pub struct Open;

impl Gate for Open {
    fn pass(&self, _turn: u64) -> Pass
        ensures { result ≡ passes.Go }
    {
        Pass::Go
    }
}
