//! Calls after one another.
ghost use Rattle.cacache_laws.specs.{Caches.{ExcusesLast}, results.Composed.{ExcusesStay, KnownStays, LeavingsJoin, OthersStay, UntouchedJoin}};

/// What calls left after one another: what was known twice is known, what stayed twice stayed, and an error that is
/// excused in a part of a log is excused in the whole.
pub fn joining_laws()
    ensures leavings { LeavingsJoin }
    ensures untouched { UntouchedJoin }
    ensures known { KnownStays }
    ensures others { OthersStay }
    ensures earlier { ExcusesStay }
    ensures later { ExcusesLast }
{}
