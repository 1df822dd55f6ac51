//! Entries are inserted into the index.
ghost use Rattle.std.specs.Prelude.{◌≡◌, IfOk};
ghost use Rattle.cacache_calls.specs.declared.command.Command.TheVariants as commands;
ghost use Rattle.cacache_calls.specs.{declared.reply.Reply.TheVariants.{Stored}, Inserting.{given_or, no_integrity}, Runs.{reply_of}};
ghost use Rattle.cacache_jobs.specs.Environment.{RunsTimed};
ghost use Rattle.cacache_sync.specs.put.KeyedWriters.{insert_of};

use crate::put::opts::WriteOpts;
use cacache_calls::{Command, Insert};
use cacache_core::errors::Result;
use cacache_core::integrity::Integrity;
use cacache_core::keeping::beside;
use cacache_core::text::Text;
use cacache_jobs::{call, moment};
use cacache_store::env::{Clock, Env, Names};
use cacache_store::store::Store;

/// Adds an entry to the index, and answers its integrity. Without an integrity it adds a tombstone, which says that
/// the key was deleted, and answers `sha1-deadbeef`. The entry's size is the one that was set, and otherwise 0. If no
/// time was set, the clock is asked for it once, before the first step.
///
/// ```
/// let sri = cacache::write_hash_sync(&mut env, "my-cache", b"my data")?;
/// let opts = cacache::WriteOpts::new().integrity(sri).size(7);
/// cacache::index::insert(&mut env, "my-cache", "key", opts)?;
/// let bytes = cacache::read_sync(&mut env, "my-cache", "key")?; // b"my data"
/// ```
///
/// Its future, `insert_async`, is run as in the example of `read`.
///
/// `SerdeError` if the entry can't be written: then nothing changed. `IoError` says which step failed, or took only a
/// part of the line: then the bucket may end in a beginning of the line, perhaps all of it. `OutOfMemory` may come after
/// any step.
pub fn insert<S: Store, C: Clock, N: Names>(
    env: &mut Env<S, C, N>,
    cache: &str,
    key: &str,
    opts: WriteOpts,
) -> Result<Integrity>
    ensures inserted { IfOk result (λ i. i ≡ given_or no_integrity opts.integrity) }
    ensures ran { RunsTimed S.log C.given opts.time env.old env.new cache.now
        (λ moment. commands.Insert (insert_of key.now opts moment)) (reply_of Stored result) }
{
    let moment = moment(&mut env.clock, opts.set_time());
    let (key, opts) = beside(Text::from_str(env.alloc, key), opts)?;
    let options = opts.into_options(env.alloc)?;
    let insert = Insert {
        key,
        moment,
        options,
    };
    call(env, cache, Command::Insert(insert), 0).stored()
}
