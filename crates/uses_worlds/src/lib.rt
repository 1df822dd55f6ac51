//! What a caller of worlds can prove about many callers at one cache, with only the clauses of a world and of a few
//! laws.
//!
//! - [`survives`] says what is read after a loss of power, and [`goes_on`] what is written and read then; [`some_survive`]
//!   says that there are histories they are about. [`link_survives`] says what is read if a put found a link.
//! - [`put_then_get`], [`one_of_two`], [`crash_safe`], [`removals_are_safe`] and [`readers_never_lie`] say what many callers see of one
//!   cache, of each world.
//! - [`collections_are_safe`] says what a collection keeps while others write.
//! - [`processes_share_a_bucket`] says what several processes on one folder see of a bucket.
//! - [`close_after_reads`] says what threads that shared a world were answered.
//! - [`folders_are_safe`] says that callers over real folders on one machine, as a model has it, see what callers of a world see.
#![tactic(auto)]

mod collecting;
mod folders;
mod losing;
mod processes;
mod sharing;
mod worlds;

pub use collecting::collections_are_safe;
pub use folders::folders_are_safe;
pub use losing::{Reads, goes_on, link_survives, some_survive, survives};
pub use processes::processes_share_a_bucket;
pub use sharing::close_after_reads;
pub use worlds::{crash_safe, one_of_two, put_then_get, readers_never_lie, removals_are_safe};
