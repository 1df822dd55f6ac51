//! Calls that make a content of a link to a file.
ghost use Rattle.std.specs.Prelude.{None, Some, IfOk};
ghost use Rattle.cacache_core.specs.declared.integrity.algorithm.Algorithm.TheVariants.{Sha256};
ghost use Rattle.cacache_calls.specs.declared.command.Command.TheVariants as commands;
ghost use Rattle.cacache_calls.specs.{declared.reply.Reply.TheVariants.{Stored}, Linking.{based}, Runs.{reply_of}};
ghost use Rattle.cacache_sync.specs.put.OpenLinkers.{link_to, HoldsTarget, RunsLink};
ghost use Rattle.cacache_jobs.specs.Environment.{Calls};

use cacache_calls::{Command, Link, Options};
use cacache_core::errors::Result;
use cacache_core::integrity::{Algorithm, Integrity};
use cacache_core::text::Text;
use cacache_jobs::{call, moment};
use cacache_store::env::{Clock, Env, Names};
use cacache_store::store::Store;

/// Makes the call of a link to the target.
fn make_link<S: Store, C, N>(
    env: &mut Env<S, C, N>,
    cache: &str,
    key: Option<Text>,
    target: &str,
    moment: u128,
) -> Result<Integrity>
    ensures whole { IfOk result (λ i. HoldsTarget (based env.old.base target.now) i
        (S.log env.old.store) (S.log env.new.store)) }
    ensures ran { Calls S.log env.old env.new cache.now
        (commands.Link (link_to key target.now moment)) (reply_of Stored result) }
{
    let target = Text::from_str(env.alloc, target)?;
    let options = Options::blank(Algorithm::Sha256);
    let link = Link {
        key,
        target,
        moment,
        options,
    };
    call(env, cache, Command::Link(link), 0).stored()
}

/// Makes a link to the target the content of its bytes, under the key, and answers their SHA-256 integrity. The target is
/// read to its end first; one without a `/` in front starts at the base folder of `env`. The entry has the clock's
/// moment, which is asked once, before the first step.
///
/// ```
/// let sri = cacache::link_to_sync(&mut env, "my-cache", "key", "/my-file")?;
/// let bytes = cacache::read_hash_sync(&mut env, "my-cache", &sri)?; // those of /my-file
/// ```
///
/// Its future, `link_to`, is run as in the example of `read`.
///
/// `IoError` says which step failed, or took only a part of the line. `SizeMismatch` if the target gave more or fewer
/// bytes than its size. Then the link may have been made or not, and the bucket may end in a beginning of the line,
/// perhaps all of it. `OutOfMemory` may come after any step.
pub fn link_to_sync<S: Store, C: Clock, N: Names>(
    env: &mut Env<S, C, N>,
    cache: &str,
    key: &str,
    target: &str,
) -> Result<Integrity>
    ensures whole { IfOk result (λ i. HoldsTarget (based env.old.base target.now) i
        (S.log env.old.store) (S.log env.new.store)) }
    ensures ran { RunsLink S.log C.given env.old env.new cache.now (Some key.now) target.now
        (reply_of Stored result) }
{
    let moment = moment(&mut env.clock, None);
    let key = Some(Text::from_str(env.alloc, key)?);
    make_link(env, cache, key, target, moment)
}

/// Makes a link to the target the content of its bytes, without a key, and answers their SHA-256 integrity. The target is
/// read to its end first; one without a `/` in front starts at the base folder of `env`.
///
/// ```
/// let sri = cacache::link_to_hash_sync(&mut env, "my-cache", "/my-file")?;
/// let bytes = cacache::read_hash_sync(&mut env, "my-cache", &sri)?; // those of /my-file
/// ```
///
/// Its future, `link_to_hash`, is run as in the example of `read`.
///
/// `IoError` says which step failed. `SizeMismatch` if the target gave more or fewer bytes than its size. Then the
/// link may have been made or not; no bucket changes. `OutOfMemory` may come after any step.
pub fn link_to_hash_sync<S: Store, C: Clock, N: Names>(
    env: &mut Env<S, C, N>,
    cache: &str,
    target: &str,
) -> Result<Integrity>
    ensures whole { IfOk result (λ i. HoldsTarget (based env.old.base target.now) i
        (S.log env.old.store) (S.log env.new.store)) }
    ensures ran { Calls S.log env.old env.new cache.now
        (commands.Link (link_to None target.now 0)) (reply_of Stored result) }
{
    make_link(env, cache, None, target, 0)
}
