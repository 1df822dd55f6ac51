//! What holds for the seats of a closed world, on a function that does nothing.
ghost use Rattle.cacache_shared.specs.Answered.{SeatsAreAnswered};

/// What each command of a seat was answered, once its world is closed: the seat's replies are those of its commands in
/// their order, a command whose call was stopped or goes on has none, and each is what its command promises, or out of
/// memory. The seat's caller has no call when the world is shared, as none has in a new world.
pub fn seat_laws()
    ensures answered { SeatsAreAnswered }
{}
