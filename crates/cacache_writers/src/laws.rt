//! Laws of a polled file that one worker alone writes, and of a whole write.
ghost use Rattle.std.specs.Prelude.{◌≡◌, ℕ, List};
ghost use Rattle.cacache_writers.specs.{Alone.{NewIsWhole, PollKeeps, TakeBrings, EndRestores, WholeHolds}, Writing.{AllTaken}};

use crate::removal::RemovableTemp;

/// While one worker alone does the work, the file has the bytes that it began with, followed by those that the core
/// holds. It has them at first, after each poll, when the worker takes it, and once it is back, unless it is removed.
/// A flush has to keep the bytes that the file is seen with.
pub fn file_laws<T: RemovableTemp>()
    ensures new { (start : List ℕ) → NewIsWhole T.seen start }
    ensures polls { (start : List ℕ) → PollKeeps T.seen start }
    ensures takes { (start : List ℕ) → TakeBrings T.seen start }
    ensures ends { (start : List ℕ) → ((file : T) → T.contents file ≡ (T.seen file).bytes)
        → EndRestores T.seen start T.contents T.writes T.removes }
    ensures holds { (start : List ℕ) → WholeHolds T.seen start }
{}

/// A whole write, over every list of the writer's answers: once nothing is left, each byte was taken once, in order.
pub fn write_laws()
    ensures all { AllTaken }
{}
