//! One move of one call.
ghost use Rattle.std.specs.Prelude.{IsTrue, IfOk};
ghost use Rattle.cacache_jobs.specs.Jobs.{can_go_on};
ghost use Rattle.cacache_world.specs.Turned.{TurnGoesOn, IsTurn, IsSaid, AreOwn, AreTurnParts};

use crate::event::Move;
use cacache_calls::Reply;
use cacache_core::errors::Error;
use cacache_core::keeping::let_go;
use cacache_disk::{Disk, Luck};
use cacache_jobs::{Job, Next};
use cacache_store::store::{PlainAnswer, PlainFile, PlainStep, PlainTemp};
use std::alloc::{AllocError, Global};

/// A call on a disk in memory.
pub(crate) type Call = Job<PlainFile, PlainTemp>;

/// A call after its step: it goes on, or is over with a reply, which is given twice.
#[derive(Drop)]
pub enum After {
    On(Call),
    Over(Reply, Reply),
}

/// What a move of a call comes to.
#[derive(Drop)]
pub enum Turn {
    /// A step was made, with this answer.
    Made(PlainStep, PlainAnswer, After),
    /// Memory was refused before the step, or for the reply: the call is as it was.
    Back(Call),
    /// The call was over before any step, with this reply.
    Over(Reply, Reply),
}

/// A reply twice, or out of memory twice if it can't be copied.
fn twice(alloc: Global, reply: Reply) -> (Reply, Reply)
    ensures { IsSaid reply result.0 result.1 }
{
    match reply.copy(alloc) {
        Ok(copy) => (reply, copy),
        Err(_) => {
            let_go(reply);
            (
                Reply::Refused(Error::OutOfMemory),
                Reply::Refused(Error::OutOfMemory),
            )
        }
    }
}

/// The reply of a call that is over before any step, twice.
fn own_reply(alloc: Global, job: &Call) -> Result<Option<(Reply, Reply)>, AllocError>
    ensures { IfOk result (λ replies. AreOwn job.now replies) }
{
    match job.reply() {
        Some(reply) => {
            let said = reply.copy(alloc)?;
            match reply.copy(alloc) {
                Ok(copy) => Ok(Some((said, copy))),
                Err(error) => {
                    let_go(said);
                    Err(error)
                }
            }
        }
        None => Ok(None),
    }
}

/// Whether a call goes on.
fn after_step(alloc: Global, mut job: Call) -> After
    requires { IsTrue (can_go_on job) }
    ensures { TurnGoesOn job result }
{
    match job.next() {
        Next::Step(step) => {
            job.back(step);
            After::On(job)
        }
        Next::Over(reply) => {
            let (reply, copy) = twice(alloc, reply);
            After::Over(reply, copy)
        }
    }
}

/// Makes the step that a call wants.
pub(crate) fn advance(alloc: Global, disk: &mut Disk, mut job: Call, luck: Luck) -> Turn
    requires { IsTrue (can_go_on job) }
    ensures { IsTurn job luck disk.old result disk.new }
{
    match own_reply(alloc, &job) {
        Ok(None) => {}
        Ok(Some((reply, copy))) => return Turn::Over(reply, copy),
        Err(_) => return Turn::Back(job),
    }
    match job.next() {
        // Not reached: a call that is over has given its reply.
        Next::Over(reply) => {
            let (reply, copy) = twice(alloc, reply);
            Turn::Over(reply, copy)
        }
        Next::Step(step) => match disk.apply_logged(&step, luck) {
            Err(_) => {
                job.back(step);
                Turn::Back(job)
            }
            Ok((answer, copy)) => {
                job.take(copy);
                Turn::Made(step, answer, after_step(alloc, job))
            }
        },
    }
}

/// The call that goes on, the reply for the history, and what the caller gets.
pub(crate) fn turn_parts(after: After) -> (Option<Call>, Option<Reply>, Move)
    ensures { AreTurnParts after result.0 result.1 result.2 }
{
    match after {
        After::On(call) => (Some(call), None, Move::More),
        After::Over(reply, copy) => (None, Some(copy), Move::Done(reply)),
    }
}
