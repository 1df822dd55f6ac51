//! Laws, on a function that does nothing.
ghost use Rattle.cacache_system_model.specs.memory.Machines.{GoesOccur, MovesOccur, RefusalsOccur, WritesOccur};

/// A call of a system in memory that goes, or is refused, as its clause says happens on the model under some luck.
pub fn model_laws()
    ensures goes { GoesOccur }
    ensures moves { MovesOccur }
    ensures writes { WritesOccur }
    ensures refusals { RefusalsOccur }
{}
