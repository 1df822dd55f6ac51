//! Calls that walk through folders: a clearing removes everything, a listing reads each bucket.
ghost use Rattle.std.specs.Prelude.{[]};
ghost use Rattle.cacache_calls.specs.{State.{State}, Walking.{walk as walk_from}};
ghost use Rattle.cacache_walks.specs.WalkStates.{WalksAt};
ghost use Rattle.cacache_jobs.specs.{JobStates.{Leads}, LeadsOn.{LeadsVisited}};

use crate::phase::Phase;
use crate::stage::Stage;
use cacache_calls::Visit;
use cacache_core::errors;
use cacache_core::keeping::beside;
use cacache_core::text::Text;
use cacache_store::store::{Answer, FileHandle, TempHandle};
use cacache_walks::Walk;
use std::alloc::Global;

/// Hands out the step of a visit. Without a visit, the walk is over.
fn go_to<F: FileHandle, T: TempHandle>(
    walk: Walk,
    visit: Option<Visit>,
) -> errors::Result<Phase<F, T>>
    ensures { (s : State) → WalksAt [] walk visit s → Leads F.seen T.seen result s }
{
    match visit {
        Some(visit) => {
            let (step, (walk, visit)) = beside(visit.step(), (walk, visit))?;
            Ok(Phase::Wanting(Stage::Walking(walk, visit), step))
        }
        None => Ok(Phase::Over(walk.into_reply())),
    }
}

/// Begins a walk through this folder.
pub(crate) fn start<F: FileHandle, T: TempHandle>(
    alloc: Global,
    clears: bool,
    top: Text,
) -> errors::Result<Phase<F, T>>
    ensures { Leads F.seen T.seen result (walk_from clears top) }
{
    let (walk, visit) = Walk::new(alloc, clears, top)?;
    go_to(walk, Some(visit))
}

/// Goes on with the answer to a visit's step.
pub(crate) fn resume<F: FileHandle, T: TempHandle>(
    alloc: Global,
    walk: Walk,
    visit: Visit,
    answer: Answer<F, T>,
) -> errors::Result<Phase<F, T>>
    ensures { LeadsVisited F.seen T.seen walk visit answer result }
{
    let mut walk = walk;
    match walk.resume(alloc, visit, answer) {
        Ok(visit) => go_to(walk, visit),
        Err(error) => Err(error),
    }
}
