//! One call, which is given the answers of a row.
ghost use Rattle.std.specs.Prelude.{IsTrue, OnOk};
ghost use Rattle.cacache_jobs.specs.Jobs.{can_go_on};

use crate::calls::commands::command_of;
use crate::calls::replies::shown_reply;
use crate::calls::row::{Row, row_of};
use crate::calls::script::{Script, add_step};
use crate::calls::told::answer_of;
use cacache_calls::Command;
use cacache_core::keeping::{beside, let_go};
use cacache_jobs::{Job, Next, call};
use cacache_store::env::Env;
use cacache_store::store::{PlainFile, PlainTemp};
use rows::words::{is_nothing, written_out};
use rows::{Flaw, Outcome, Trial};
use std::alloc::Global;

/// Where the cache of each row is.
const CACHE: &str = "/c";

/// The folder at which a relative target of a link starts.
const BASE: &str = "/b";

/// The number of the temporary file.
const NUMBER: u64 = 1;

/// The steps and the reply of a call that is made here.
fn called(env: &mut Env<Script, (), ()>, command: Command) -> Result<String, Flaw> {
    let reply = call(env, CACHE, command, NUMBER);
    let came = env.store.came(&reply);
    let_go(reply);
    came
}

/// The steps and the reply of the call, made on a store.
fn over_store(alloc: Global, row: Row<'_>) -> Result<String, Flaw> {
    let script = Script::new(alloc, row.answers)?;
    let env = Env::new(alloc, script, (), (), BASE)?;
    let (command, mut env) = beside(command_of(alloc, row.call), env)?;
    let came = called(&mut env, command);
    let_go(env);
    came
}

/// One turn: the job's step, with this answer.
fn turn(
    alloc: Global,
    job: &mut Job<PlainFile, PlainTemp>,
    steps: &mut String,
    words: &str,
) -> Result<(), Flaw>
    requires { IsTrue (can_go_on job.old) }
    ensures { OnOk result (IsTrue (can_go_on job.new)) }
{
    match job.next() {
        Next::Over(reply) => {
            let_go(reply);
            Err(Flaw::Unfit)
        }
        Next::Step(step) => {
            let added = add_step(alloc, steps, &step);
            job.take(answer_of(alloc, step, words)?);
            Ok(added?)
        }
    }
}

/// The turns of the job with all answers of a row.
fn turns(
    alloc: Global,
    job: &mut Job<PlainFile, PlainTemp>,
    steps: &mut String,
    answers: &str,
) -> Result<(), Flaw>
    requires { IsTrue (can_go_on job.old) }
    ensures { OnOk result (IsTrue (can_go_on job.new)) }
{
    for words in answers.split(';') {
        if !is_nothing(words) {
            turn(alloc, job, steps, words.trim())?;
        }
    }
    Ok(())
}

/// The reply that a job hands out last.
fn ended(alloc: Global, next: Next<PlainFile, PlainTemp>) -> Result<String, Flaw> {
    match next {
        Next::Over(reply) => {
            let shown = shown_reply(alloc, &reply);
            let_go(reply);
            Ok(shown?)
        }
        Next::Step(step) => {
            let_go(step);
            Err(Flaw::NoAnswerLeft)
        }
    }
}

/// The steps and the reply of this job, which takes these answers.
fn answered(
    alloc: Global,
    job: &mut Job<PlainFile, PlainTemp>,
    answers: &str,
) -> Result<String, Flaw>
    requires { IsTrue (can_go_on job.old) }
{
    let mut steps = String::new(alloc);
    turns(alloc, job, &mut steps, answers)?;
    let reply = ended(alloc, job.next())?;
    Ok(format!(in alloc; "{steps} | {reply}")?)
}

/// The steps and the reply of the job alone, which takes any answers.
fn by_hand(alloc: Global, row: Row<'_>) -> Result<String, Flaw> {
    let mut job = Job::new(alloc, CACHE, BASE, command_of(alloc, row.call)?, NUMBER);
    let came = answered(alloc, &mut job, row.answers);
    let_go(job);
    came
}

/// The steps that the call of a row asks for, and its reply.
fn came(alloc: Global, row: Row<'_>) -> Result<String, Flaw> {
    let came = match over_store(alloc, row) {
        Err(Flaw::Unfit) => by_hand(alloc, row)?,
        came => came?,
    };
    Ok(written_out(alloc, came.as_str())?)
}

/// Tries each row on a call of its own.
#[derive(Drop)]
pub(crate) struct Calls {
    pub(crate) alloc: Global,
}

impl Trial for Calls {
    fn outcome(&mut self, row: &str) -> Result<Outcome, Flaw> {
        let row = row_of(row)?;
        Ok(Outcome {
            wanted: String::from_str(self.alloc, row.wanted)?,
            got: came(self.alloc, row)?,
        })
    }
}
