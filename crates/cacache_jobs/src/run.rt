//! Runs a call on a store.
ghost use Rattle.std.specs.Prelude.{◌≡◌};
ghost use Rattle.cacache_core.specs.declared.errors.Error.TheVariants.{OutOfMemory};
ghost use Rattle.cacache_store.specs.Plain.{Fits, plain_step, plain_answer};
ghost use Rattle.cacache_calls.specs.{Sound.{FormsCommand}, Promises.{Answers}, Runs.{Ran, plain_reply}, State.{State}, Table.{opening}, declared.reply.Reply.TheVariants.{Refused}};
ghost use Rattle.cacache_jobs.specs.{ReadFirst.{FindsBytes, ReadsFirst}, Jobs.{Stands}, JobStates.{site_of, Leads}, LeadsOn.{LogsSeen}};

use crate::job::Job;
use crate::opening::open;
use crate::phase::Phase;
use cacache_calls::{Command, Reply, form_command};
use cacache_core::errors;
use cacache_store::env::Env;
use cacache_store::store::{Answer, Step, Store};
use std::alloc::Global;

/// Makes a step. It is a separate function, so that the store's stack space is freed before the call goes on.
#[inline(never)]
fn ask<S: Store>(store: &mut S, step: Step<S::File, S::Temp>) -> Answer<S::File, S::Temp>
    ensures fits { Fits (plain_step S.File.seen S.Temp.seen step)
        (plain_answer S.File.seen S.Temp.seen result) }
    ensures logged { LogsSeen S.File.seen S.Temp.seen (S.log store.old) (S.log store.new)
        step result }
{
    store.step(step)
}

/// Makes the steps of a call from this result on, until it is over. An error ends the call.
#[inline(always)]
pub(crate) fn go_on<S: Store>(
    store: &mut S,
    alloc: Global,
    phase: errors::Result<Phase<S::File, S::Temp>>,
) -> Reply
    requires { (s : State) × Leads S.File.seen S.Temp.seen phase s }
    ensures { (s : State) → Leads S.File.seen S.Temp.seen phase s
        → Ran s (plain_reply result) (S.log store.old) (S.log store.new) }
{
    let mut phase = phase;
    'steps: loop {
        match phase {
            Err(error) => return Reply::Refused(error),
            Ok(Phase::Over(reply)) => return reply,
            Ok(Phase::Wanting(stage, step)) => {
                let answer = ask(store, step);
                phase = stage.resume(alloc, answer);
            }
        }
    }
}

/// Makes the steps of a call until it is over. The reply is that of a run of the call. If the store keeps its log, the log
/// gained exactly that run.
pub fn drive<S: Store>(store: &mut S, job: Job<S::File, S::Temp>) -> Reply
    requires { (s : State) × Stands S.File.seen S.Temp.seen job s }
    ensures { (s : State) → Stands S.File.seen S.Temp.seen job s
        → Ran s (plain_reply result) (S.log store.old) (S.log store.new) }
{
    let (alloc, phase) = job.into_phase();
    go_on(store, alloc, Ok(phase))
}

/// Makes the steps of a call until it is over, and then ends its walk if it clears or lists. A clearing begins its walk.
fn finish<S: Store>(
    store: &mut S,
    alloc: Global,
    phase: errors::Result<Phase<S::File, S::Temp>>,
    clears: bool,
    lists: bool,
) -> Reply
    requires { (s : State) × Leads S.File.seen S.Temp.seen phase s }
    ensures { (s : State) → Leads S.File.seen S.Temp.seen phase s
        → Ran s (plain_reply result) (S.log store.old) (S.log store.new) }
{
    if clears {
        store.begin_walks();
    }
    let reply = go_on(store, alloc, phase);
    if clears || lists {
        store.end_walks();
    }
    reply
}

/// Makes a call on a cache from its beginning to its end. The reply is that of a run of the call. If the store keeps its
/// log, the log gained exactly that run. Over every store, the reply is as the command promises. Bytes that were read by key
/// meet the integrity that the call's own read of the bucket returned. A checked export verified the bytes of the file that
/// it opened, and a link read its whole target. The entries that the call may add are well-formed, if they can be written.
/// The clock, the numbers and the base folder stay as they were.
pub fn call<S: Store, C, N>(
    env: &mut Env<S, C, N>,
    cache: &str,
    command: Command,
    number: u64,
) -> Reply
    ensures ran { Ran (opening (site_of cache.now env.old.base number) command)
        (plain_reply result) (S.log env.old.store) (S.log env.new.store) }
    ensures found { FindsBytes cache.now command (plain_reply result)
        (S.log env.old.store) (S.log env.new.store) }
    ensures read_first { ReadsFirst (site_of cache.now env.old.base number) command
        (plain_reply result) (S.log env.old.store) (S.log env.new.store) }
    ensures promised { Answers (site_of cache.now env.old.base number) command
        (plain_reply result) }
    ensures formed { FormsCommand (site_of cache.now env.old.base number) command }

    // A caller that has no memory left for the reply answers as if the run had run out of memory.
    ensures lost { Ran (opening (site_of cache.now env.old.base number) command)
        (Refused OutOfMemory) (S.log env.old.store) (S.log env.new.store) }
    ensures clock { env.new.clock ≡ env.old.clock }
    ensures names { env.new.names ≡ env.old.names }
    ensures base { env.new.base ≡ env.old.base }
{
    form_command(&command);
    let clears = matches!(command, Command::Clear);
    let lists = matches!(command, Command::Ls);
    let phase = open(env.alloc, cache, env.base.as_str(), number, command);
    finish(&mut env.store, env.alloc, phase, clears, lists)
}
