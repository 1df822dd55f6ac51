//! Keys are found and deleted.
ghost use Rattle.std.specs.Prelude.{None};
ghost use Rattle.cacache_calls.specs.declared.command.Command.TheVariants as commands;
ghost use Rattle.cacache_calls.specs.{Replies.{done, looked_up}, Runs.{reply_of}};
ghost use Rattle.cacache_jobs.specs.Environment.{Calls, RunsTimed};
ghost use Rattle.cacache_sync.specs.Lookups.{LooksUp, delete_of};

use cacache_calls::{Command, Delete};
use cacache_core::errors::Result;
use cacache_core::text::Text;
use cacache_entry::Metadata;
use cacache_jobs::{call, moment};
use cacache_store::env::{Clock, Env, Names};
use cacache_store::store::Store;

/// What the index has of the key: the entry that counts, if there is one. A key without a bucket has none, nor has
/// any if the cache's folder isn't there. An entry doesn't mean that its content is there, which `exists_sync`
/// answers.
///
/// ```
/// cacache::write_sync(&mut env, "my-cache", "key", b"my data")?;
/// if let Some(entry) = cacache::metadata_sync(&mut env, "my-cache", "key")? {
///     write!(text, "{} has {} bytes", entry.key, entry.size)?; // key has 7 bytes
/// }
/// ```
///
/// Its future, `metadata`, is run as in the example of `read`.
///
/// `IoError` says that the bucket couldn't be read. Nothing changes.
pub fn find<S: Store, C: Clock, N: Names>(
    env: &mut Env<S, C, N>,
    cache: &str,
    key: &str,
) -> Result<Option<Metadata>>
    ensures looks { LooksUp cache.now key.now (S.log env.old.store) (S.log env.new.store) result }
    ensures ran { Calls S.log env.old env.new cache.now (commands.Find key.now)
        (reply_of looked_up result) }
{
    let command = Command::Find(Text::from_str(env.alloc, key)?);
    call(env, cache, command, 0).looked_up()
}

/// Adds a tombstone, which says that the key was deleted. The content stays, and can still be read by its integrity;
/// `RemoveOpts` with `remove_fully` removes it too. The tombstone's moment is the clock's, which is asked once, before
/// the first step.
///
/// ```
/// let sri = cacache::write_sync(&mut env, "my-cache", "key", b"my data")?;
/// cacache::remove_sync(&mut env, "my-cache", "key")?;
/// let found = cacache::metadata_sync(&mut env, "my-cache", "key")?.is_some(); // false
/// let bytes = cacache::read_hash_sync(&mut env, "my-cache", &sri)?; // b"my data"
/// ```
///
/// Its future, `remove`, is run as in the example of `read`.
///
/// Errors are those of `insert`.
pub fn delete<S: Store, C: Clock, N: Names>(
    env: &mut Env<S, C, N>,
    cache: &str,
    key: &str,
) -> Result<()>
    ensures ran { RunsTimed S.log C.given None env.old env.new cache.now
        (λ moment. commands.Delete (delete_of key.now moment)) (reply_of done result) }
{
    let moment = moment(&mut env.clock, None);
    let key = Text::from_str(env.alloc, key)?;
    call(env, cache, Command::Delete(Delete { key, moment }), 0).done()
}
