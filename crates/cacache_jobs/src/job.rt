//! One call as a job, which hands out its steps one by one.
ghost use Rattle.std.specs.Prelude.{◌≡◌, IfOk, IsTrue, option_map};
ghost use Rattle.cacache_store.specs.Plain.{PlainStep, plain_step, plain_answer};
ghost use Rattle.cacache_calls.specs.{State.{State}, Table.{opening, after}};
ghost use Rattle.cacache_jobs.specs.{JobStates.{site_of, Leads, PhaseAt}, Jobs.{Stands, HasOut, GoesTo, PhaseGoesTo, HandsOut, Tells, is_step, has_out, can_go_on, reply_in}};

use crate::opening::open;
use crate::phase::Phase;
use crate::stage::Stage;
use cacache_calls::{Command, Reply};
use cacache_core::errors::{self, Error};
use cacache_core::keeping::{let_go, set};
use cacache_store::store::{Answer, FileHandle, Step, TempHandle};
use std::alloc::{AllocError, Global};
use std::mem::replace;

/// What a job hands out.
#[derive(Drop)]
pub enum Next<F, T> {
    /// The call needs this step, and then its answer.
    Step(Step<F, T>),
    /// The call is over, with this reply.
    Over(Reply),
}

/// The state of a job between two calls of its methods.
#[derive(Drop)]
pub enum Standing<F, T> {
    /// No step is outstanding.
    At(Phase<F, T>),
    /// The step of this stage was handed out, and its answer is outstanding.
    Out(Stage<T>),
    /// The reply was handed out.
    Told,
}

/// One call as a job: `next` hands out a step, and `take` goes on with its answer. This repeats until `next` hands out the
/// reply.
pub struct Job<F, T> {
    alloc: Global,
    standing: Standing<F, T>,
}

impl<F: Drop, T: Drop> Drop for Job<F, T> {
    #[inline(always)]
    fn drop(self) {
        let Job { alloc: _, standing } = self;
        let_go(standing);
    }
}

/// The phase that this result leads to. An error ends the call.
#[inline(always)]
fn over_on_error<F: FileHandle, T: TempHandle>(phase: errors::Result<Phase<F, T>>) -> Phase<F, T>
    ensures { (s : State) → Leads F.seen T.seen phase s → PhaseGoesTo F.seen T.seen result s }
{
    match phase {
        Ok(phase) => phase,
        Err(error) => Phase::Over(Reply::Refused(error)),
    }
}

/// Like `over_on_error`, but running out of memory doesn't end the call: it is returned as an error.
fn begun<F: FileHandle, T: TempHandle>(
    phase: errors::Result<Phase<F, T>>,
) -> Result<Phase<F, T>, AllocError>
    ensures { IfOk result (λ begun. (s : State) → Leads F.seen T.seen phase s
        → PhaseAt F.seen T.seen begun s) }
{
    match phase {
        Ok(phase) => Ok(phase),
        Err(Error::OutOfMemory) => Err(AllocError),
        Err(error) => Ok(Phase::Over(Reply::Refused(error))),
    }
}

impl<F: FileHandle, T: TempHandle> Job<F, T> {
    /// A call on a cache that hasn't handed out a step yet. A put's temporary file has this number. Relative link targets are
    /// resolved against the base folder.
    ///
    /// # Errors
    ///
    /// If memory is refused, there is no job.
    pub fn try_new(
        alloc: Global,
        cache: &str,
        base: &str,
        command: Command,
        number: u64,
    ) -> Result<Job<F, T>, AllocError>
        ensures ready { IfOk result (λ job. IsTrue (can_go_on job)) }
        ensures opens { IfOk result (λ job. Stands F.seen T.seen job
            (opening (site_of cache.now base.now number) command)) }
    {
        let phase = begun(open(alloc, cache, base, number, command))?;
        Ok(Job {
            alloc,
            standing: Standing::At(phase),
        })
    }

    /// Like `try_new`, but if memory is refused, the call is over with `OutOfMemory`.
    pub fn new(alloc: Global, cache: &str, base: &str, command: Command, number: u64) -> Job<F, T>
        ensures ready { IsTrue (can_go_on result) }
        ensures opens { GoesTo F.seen T.seen result
            (opening (site_of cache.now base.now number) command) }
    {
        match Job::try_new(alloc, cache, base, command, number) {
            Ok(job) => job,
            Err(_) => Job {
                alloc,
                standing: Standing::At(Phase::Over(Reply::Refused(Error::OutOfMemory))),
            },
        }
    }

    /// The phase that the call is at.
    #[inline(always)]
    pub(crate) fn into_phase(self) -> (Global, Phase<F, T>)
        requires { IsTrue (can_go_on self) }
        ensures { (s : State) → Stands F.seen T.seen self s → PhaseAt F.seen T.seen result.1 s }
    {
        let Job { alloc, standing } = self;
        match standing {
            Standing::At(phase) => (alloc, phase),
            Standing::Out(_) | Standing::Told => unreachable!(),
        }
    }

    /// The step that the call needs, or its reply. Allocates no memory.
    #[inline(always)]
    pub fn next(&mut self) -> Next<F, T>
        requires { IsTrue (can_go_on self.old) }
        ensures out { has_out self.new ≡ is_step result }
        ensures hands_out { (s : State) → Stands F.seen T.seen self.old s
            → HandsOut F.seen T.seen result self.new s }
    {
        match replace(&mut self.standing, Standing::Told) {
            Standing::At(Phase::Wanting(stage, step)) => {
                set(&mut self.standing, Standing::Out(stage));
                Next::Step(step)
            }
            Standing::At(Phase::Over(reply)) => Next::Over(reply),
            Standing::Out(_) | Standing::Told => unreachable!(),
        }
    }

    /// Goes on with the answer to the outstanding step. If memory is refused, the call is over with `OutOfMemory`.
    #[inline(always)]
    pub fn take(&mut self, answer: Answer<F, T>)
        requires { IsTrue (has_out self.old) }
        ensures ready { IsTrue (can_go_on self.new) }
        ensures goes_on { (s : State) (step : PlainStep) → HasOut T.seen self.old s step
            → GoesTo F.seen T.seen self.new (after s (plain_answer F.seen T.seen answer)) }
    {
        match replace(&mut self.standing, Standing::Told) {
            Standing::Out(stage) => {
                let phase = over_on_error(stage.resume(self.alloc, answer));
                set(&mut self.standing, Standing::At(phase));
            }
            Standing::At(_) | Standing::Told => unreachable!(),
        }
    }

    /// Takes back the outstanding step, which changed nothing. Allocates no memory.
    pub fn back(&mut self, step: Step<F, T>)
        requires { IsTrue (has_out self.old) }
        ensures ready { IsTrue (can_go_on self.new) }
        ensures stands { (s : State) → HasOut T.seen self.old s (plain_step F.seen T.seen step)
            → Stands F.seen T.seen self.new s }
    {
        match replace(&mut self.standing, Standing::Told) {
            Standing::Out(stage) => {
                set(
                    &mut self.standing,
                    Standing::At(Phase::Wanting(stage, step)),
                );
            }
            Standing::At(_) | Standing::Told => unreachable!(),
        }
    }

    /// The reply, if the call is over and hasn't handed it out. Allocates no memory.
    pub fn reply(&self) -> Option<&Reply>
        ensures is { option_map (λ r. r.now) result ≡ reply_in self.now }
        ensures tells { (s : State) → Stands F.seen T.seen self.now s
            → Tells (option_map (λ r. r.now) result) s }
    {
        match &self.standing {
            Standing::At(Phase::Over(reply)) => Some(reply),
            _ => None,
        }
    }
}
