//! What the commit of a polled writer does with the core and the temporary file, which are lent to it.
ghost use Rattle.std.specs.Prelude.{◌≡◌, ℕ, List, None, IfSome};
ghost use Rattle.cacache_calls.specs.{declared.reply.Reply.TheVariants.{Stored}, Runs.{reply_of}};
ghost use Rattle.cacache_polled.specs.{Table.{closed}, Events.{HasHeld, busy}};
ghost use Rattle.cacache_async.specs.Futures.{TellsFault};
ghost use Rattle.cacache_writers.specs.Opening.{EndsAsSaid, EndsHeld, Gives, GivesSome};

use crate::about::About;
use cacache_core::errors::{Error, Fault, Result};
use cacache_core::integrity::Integrity;
use cacache_core::text::Text;
use cacache_jobs::{commit_from, moment_of};
use cacache_polled::{Finish, WriterCore};
use cacache_store::env::{Clock, Env};
use cacache_store::store::{Store, failed};
use std::alloc::{AllocError, Global};

/// Why a commit made no step.
fn closing(alloc: Global, fault: Fault) -> Error
    ensures { TellsFault fault result }
{
    failed(fault, message(alloc))
}

fn message(alloc: Global) -> std::result::Result<Text, AllocError> {
    Text::from_str(alloc, "Error while closing cache contents")
}

/// Makes the file the content of the held bytes.
fn commit<S: Store, C: Clock, N>(
    env: &mut Env<S, C, N>,
    about: About,
    computed: Integrity,
    count: u64,
    file: S::Temp,
) -> Result<Integrity>
    ensures ends { EndsHeld S.Temp.seen S.log C.given env.old env.new about computed count file
        (reply_of Stored result) }
    ensures names { env.new.names ≡ env.old.names }
    ensures base { env.new.base ≡ env.old.base }
{
    let moment = moment_of(&mut env.clock, &about.key, about.time);
    let commit = about.into_commit(computed, count as usize, moment);
    commit_from(env, commit, file).stored()
}

/// Commits if the integrity has the algorithm that was asked for. A core with another isn't this writer's, and the
/// commit fails as a closed one does: nothing else ties what is under the lock to what the caller said.
fn commit_as_said<S: Store, C: Clock, N>(
    env: &mut Env<S, C, N>,
    about: About,
    computed: Integrity,
    count: u64,
    file: S::Temp,
) -> Result<Integrity>
    ensures ends { EndsAsSaid S.Temp.seen S.log C.given env.old env.new about computed count file
        result }
    ensures names { env.new.names ≡ env.old.names }
    ensures base { env.new.base ≡ env.old.base }
{
    if computed.pick_algorithm() != about.options.algorithm {
        return Err(closing(env.alloc, Fault::Closed));
    }
    commit(env, about, computed, count, file)
}

/// The commit of a polled writer. None while work is out: then nothing changed. Otherwise the core is closed, and the
/// answer is that of a commit of the held bytes, or the fault that comes first.
pub fn commit_held<S: Store, C: Clock, N>(
    env: &mut Env<S, C, N>,
    core: &mut WriterCore,
    temp: &mut Option<S::Temp>,
    about: &mut Option<About>,
) -> Option<Result<Integrity>>
    ensures busy { busy core.old.desk → (result ≡ None) × (core.new ≡ core.old)
        × (temp.new ≡ temp.old) × (about.new ≡ about.old) × (env.new ≡ env.old) }
    ensures free { result ≡ None → busy core.old.desk }
    ensures closed { core.new.desk ≡ closed core.old.desk }
    ensures gives { IfSome result (λ r. (bytes : List ℕ) → HasHeld core.old bytes
        → Gives S.Temp.seen S.log C.given env.old env.new core.old bytes temp.old about.old r) }
    ensures answers { IfSome result
        (GivesSome S.Temp.seen S.log C.given env.old env.new temp.old about.old) }
    ensures names { env.new.names ≡ env.old.names }
    ensures base { env.new.base ≡ env.old.base }
{
    match core.finish(env.alloc) {
        Ok(Finish::Busy) => None,
        Ok(Finish::Closed) => Some(Err(closing(env.alloc, Fault::Closed))),
        Ok(Finish::Cancelled) => Some(Err(closing(env.alloc, Fault::Cancelled))),
        Ok(Finish::Failed(fault)) => Some(Err(closing(env.alloc, fault))),
        Ok(Finish::Held(computed, count)) => match (temp.take(), about.take()) {
            (Some(file), Some(about)) => Some(commit_as_said(env, about, computed, count, file)),
            _ => Some(Err(closing(env.alloc, Fault::Closed))),
        },
        Err(error) => Some(Err(error)),
    }
}
