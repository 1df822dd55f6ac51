//! Calls that remove.
ghost use Rattle.std.specs.Prelude.{◌≡◌, true, false};
ghost use Rattle.cacache_core.specs.Integrity.{IsIntegrity};
ghost use Rattle.cacache_calls.specs.declared.command.Command.TheVariants as commands;
ghost use Rattle.cacache_calls.specs.{Replies.{done}, Runs.{reply_of}};
ghost use Rattle.cacache_jobs.specs.Environment.{Calls};
ghost use Rattle.cacache_sync.specs.Lookups.{RunsDelete};

use crate::index::delete;
use cacache_calls::Command;
use cacache_core::errors::Result;
use cacache_core::integrity::Integrity;
use cacache_core::text::Text;
use cacache_jobs::call;
use cacache_store::env::{Clock, Env, Names};
use cacache_store::store::Store;

/// Removes the content of the integrity. Entries that name it stay: their keys are still found, but reads of them
/// fail with `NotFound`. If the content is a link, the link is removed and its target stays.
///
/// ```
/// let sri = cacache::write_hash_sync(&mut env, "my-cache", b"my data")?;
/// cacache::remove_hash_sync(&mut env, "my-cache", &sri)?;
/// let there = cacache::exists_sync(&mut env, "my-cache", &sri)?; // false
/// ```
///
/// Its future, `remove_hash`, is run as in the example of `read`.
///
/// `IoError` says that the content couldn't be removed, such as when there is none. Then nothing changed.
pub fn remove_hash_sync<S: Store, C: Clock, N: Names>(
    env: &mut Env<S, C, N>,
    cache: &str,
    sri: &Integrity,
) -> Result<()>
    ensures formed { IsIntegrity sri.now }
    ensures ran { Calls S.log env.old env.new cache.now (commands.RemoveHash sri.now)
        (reply_of done result) }
{
    let _address = sri.address();
    let command = Command::RemoveHash(sri.clone()?);
    call(env, cache, command, 0).done()
}

/// Removes all that lies in the cache folder, which stays. A link is removed and not followed.
///
/// ```
/// let sri = cacache::write_hash_sync(&mut env, "my-cache", b"my data")?;
/// cacache::clear_sync(&mut env, "my-cache")?;
/// let there = cacache::exists_sync(&mut env, "my-cache", &sri)?; // false
/// ```
///
/// Its future, `clear`, is run as in the example of `read`.
///
/// `IoError` says which step failed; then what was removed before that step is gone. A plain file that lies directly in
/// the cache folder fails with `NotADirectory`, and a folder more than sixteen levels below it with `TooDeep`. A cache
/// without a folder fails with `NotFound`. `OutOfMemory` may come after any step.
pub fn clear_sync<S: Store, C: Clock, N: Names>(env: &mut Env<S, C, N>, cache: &str) -> Result<()>
    ensures ran { Calls S.log env.old env.new cache.now commands.Clear (reply_of done result) }
{
    call(env, cache, Command::Clear, 0).done()
}

/// How a key is removed: by a tombstone, after which the content can still be read by its integrity, or fully, with its
/// content and its bucket. Contracts see whether it is fully.
#[derive(Clone, Copy)]
pub struct RemoveOpts {
    remove_fully: bool,
}

impl RemoveOpts {
    /// Blank options: by a tombstone. The content stays.
    pub fn new() -> RemoveOpts
        ensures { result.remove_fully ≡ false }
    {
        RemoveOpts {
            remove_fully: false,
        }
    }

    /// With the choice of whether the content and the bucket go too.
    pub fn remove_fully(self, remove_fully: bool) -> RemoveOpts
        ensures { result.remove_fully ≡ remove_fully }
    {
        let RemoveOpts { remove_fully: _ } = self;
        RemoveOpts { remove_fully }
    }

    /// Removes the key. Fully, the content that its lookup finds goes first, if there is one, and then the key's
    /// bucket; other keys that share either lose it too. Otherwise this is `index::delete`, after which the content
    /// can still be read by its integrity.
    ///
    /// ```
    /// let sri = cacache::write_sync(&mut env, "my-cache", "key", b"my data")?;
    /// let opts = cacache::RemoveOpts::new().remove_fully(true);
    /// opts.remove_sync(&mut env, "my-cache", "key")?;
    /// let there = cacache::exists_sync(&mut env, "my-cache", &sri)?; // false
    /// ```
    ///
    /// Its future, `RemoveAsync::remove`, is run as in the example of `read`.
    ///
    /// `IoError` says which step failed; a content that couldn't be removed keeps its bucket, and a key without a bucket
    /// fails with `NotFound`. By a tombstone, errors are those of `index::insert`.
    pub fn remove_sync<S: Store, C: Clock, N: Names>(
        self,
        env: &mut Env<S, C, N>,
        cache: &str,
        key: &str,
    ) -> Result<()>
        ensures fully { self.remove_fully ≡ true → Calls S.log env.old env.new cache.now
            (commands.RemoveFully key.now) (reply_of done result) }
        ensures tombstone { self.remove_fully ≡ false → RunsDelete S.log C.given env.old env.new
            cache.now key.now (reply_of done result) }
    {
        if self.remove_fully {
            let command = Command::RemoveFully(Text::from_str(env.alloc, key)?);
            call(env, cache, command, 0).done()
        } else {
            delete(env, cache, key)
        }
    }
}

impl Default for RemoveOpts {
    /// Blank options.
    fn default() -> RemoveOpts
        ensures { result.remove_fully ≡ false }
    {
        RemoveOpts::new()
    }
}
