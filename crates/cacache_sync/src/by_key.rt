//! Exports of the content that a key names.
ghost use Rattle.std.specs.Prelude.{◌≡◌, ◌≢◌, IfOk};
ghost use Rattle.cacache_calls.specs.{declared.{command.{How.TheVariants.{Copy, Reflink, HardLink}, Source.TheVariants.{Key}}, reply.Reply.TheVariants.{Copied, Done}}, Runs.{reply_of}, Replies.{done}};
ghost use Rattle.cacache_sync.specs.Exports.{checked_export, unchecked_export, ExportsTo};
ghost use Rattle.cacache_jobs.specs.{ReadFirst.{Verified}, Environment.{Calls}};

use crate::exporting::{Named, copy_content, link_content};
use crate::ways::{ExportMode, Exported, export_content};
use cacache_calls::How;
use cacache_core::errors::Result;
use cacache_store::env::{Clock, Env, Names};
use cacache_store::store::Store;

/// Copies the content that a lookup of the key finds to this path, and answers how many bytes it has. A file there is
/// overwritten, on real folders by a new one with this process's owner and the content's mode. The content is read to
/// its end first, and goes there only if it meets the lookup's integrity. If it is a link, its target's bytes are copied.
///
/// ```
/// cacache::write_sync(&mut env, "my-cache", "key", b"my data")?;
/// let count = cacache::copy_sync(&mut env, "my-cache", "key", "/my-copy")?; // 7
/// ```
///
/// Its future, `copy`, is run as in the example of `read`.
///
/// `EntryNotFound` if the lookup finds none, `IntegrityError` if the content doesn't meet the integrity, `IoError`
/// says which step failed, with `NotFound` if the content isn't there. The path is left alone until the content is
/// verified; a copy that failed may leave a part of it there. `OutOfMemory` may come after the last step.
pub fn copy_sync<S: Store, C: Clock, N: Names>(
    env: &mut Env<S, C, N>,
    cache: &str,
    key: &str,
    to: &str,
) -> Result<u64>
    ensures verified { IfOk result (λ count. Verified cache.now (Key key.now) (Copied count)
        (S.log env.old.store) (S.log env.new.store)) }
    ensures ran { Calls S.log env.old env.new cache.now
        (checked_export Copy (Key key.now) to.now) (reply_of Copied result) }
{
    copy_content(env, cache, Named::Key(key), true, to)
}

/// Copies the content that a lookup of the key finds to this path, and answers how many bytes it has. A file there is
/// overwritten, as by `copy_sync`. Whether it meets its integrity isn't asked.
///
/// ```
/// cacache::write_sync(&mut env, "my-cache", "key", b"my data")?;
/// let count = cacache::copy_unchecked_sync(&mut env, "my-cache", "key", "/my-copy")?; // 7
/// ```
///
/// Its future, `copy_unchecked`, is run as in the example of `read`.
///
/// `EntryNotFound` if the lookup finds none, `IoError` says which step failed, with `NotFound` if the content isn't
/// there. A copy that failed may leave a part of it there. `OutOfMemory` may come after the last step.
pub fn copy_unchecked_sync<S: Store, C: Clock, N: Names>(
    env: &mut Env<S, C, N>,
    cache: &str,
    key: &str,
    to: &str,
) -> Result<u64>
    ensures ran { Calls S.log env.old env.new cache.now
        (unchecked_export Copy (Key key.now) to.now) (reply_of Copied result) }
{
    copy_content(env, cache, Named::Key(key), false, to)
}

/// Makes a file at this path that shares its storage with the content that a lookup of the key finds. Nothing may be
/// there. The content is read to its end first, and goes there only if it meets the integrity that the lookup gives.
/// If the content is a link, its target's storage is shared. Real folders make no reflinks: there its last step
/// always fails with `Unsupported`.
///
/// ```
/// cacache::write_sync(&mut env, "my-cache", "key", b"my data")?;
/// cacache::reflink_sync(&mut env, "my-cache", "key", "/my-copy")?; // on real folders it fails
/// ```
///
/// Its future, `reflink`, is run as in the example of `read`.
///
/// `EntryNotFound` if the lookup finds none, `IntegrityError` if the content doesn't meet the integrity, `IoError`
/// says which step failed, with `NotFound` if the content isn't there. Then nothing changed. `OutOfMemory` may come
/// after the last step.
pub fn reflink_sync<S: Store, C: Clock, N: Names>(
    env: &mut Env<S, C, N>,
    cache: &str,
    key: &str,
    to: &str,
) -> Result<()>
    ensures verified { IfOk result (λ _. Verified cache.now (Key key.now) Done
        (S.log env.old.store) (S.log env.new.store)) }
    ensures ran { Calls S.log env.old env.new cache.now
        (checked_export Reflink (Key key.now) to.now) (reply_of done result) }
{
    link_content(env, cache, Named::Key(key), How::Reflink, true, to)
}

/// Makes a file at this path that shares its storage with the content that a lookup of the key finds. Nothing may be
/// there. Whether it meets its integrity isn't asked. Real folders make no reflinks: there its last step always fails
/// with `Unsupported`.
///
/// ```
/// cacache::write_sync(&mut env, "my-cache", "key", b"my data")?;
/// cacache::reflink_unchecked_sync(&mut env, "my-cache", "key", "/my-copy")?; // on real folders it fails
/// ```
///
/// Its future, `reflink_unchecked`, is run as in the example of `read`.
///
/// `EntryNotFound` if the lookup finds none, `IoError` says which step failed, with `NotFound` if the content isn't
/// there. Then nothing changed. `OutOfMemory` may come after the last step.
pub fn reflink_unchecked_sync<S: Store, C: Clock, N: Names>(
    env: &mut Env<S, C, N>,
    cache: &str,
    key: &str,
    to: &str,
) -> Result<()>
    ensures ran { Calls S.log env.old env.new cache.now
        (unchecked_export Reflink (Key key.now) to.now) (reply_of done result) }
{
    link_content(env, cache, Named::Key(key), How::Reflink, false, to)
}

/// Gives the content that a lookup of the key finds one more name, which is this path. Nothing may be there. The
/// content is read to its end first, and goes there only if it meets the integrity that the lookup gives. On real
/// folders both names are one file: whoever changes it through this one damages the cache. If the content is a link,
/// this path becomes the same link, and no name of the target.
///
/// ```
/// cacache::write_sync(&mut env, "my-cache", "key", b"my data")?;
/// cacache::hard_link_sync(&mut env, "my-cache", "key", "/my-link")?; // /my-link has b"my data"
/// ```
///
/// Its future, `hard_link`, is run as in the example of `read`.
///
/// `EntryNotFound` if the lookup finds none, `IntegrityError` if the content doesn't meet the integrity, `IoError`
/// says which step failed, with `NotFound` if the content isn't there. Then nothing changed. `OutOfMemory` may come
/// after the last step.
pub fn hard_link_sync<S: Store, C: Clock, N: Names>(
    env: &mut Env<S, C, N>,
    cache: &str,
    key: &str,
    to: &str,
) -> Result<()>
    ensures verified { IfOk result (λ _. Verified cache.now (Key key.now) Done
        (S.log env.old.store) (S.log env.new.store)) }
    ensures ran { Calls S.log env.old env.new cache.now
        (checked_export HardLink (Key key.now) to.now) (reply_of done result) }
{
    link_content(env, cache, Named::Key(key), How::HardLink, true, to)
}

/// Gives the content that a lookup of the key finds one more name, which is this path. Nothing may be there. Whether
/// it meets its integrity isn't asked. On real folders both names are one file: whoever changes it through this one
/// damages the cache.
///
/// ```
/// cacache::write_sync(&mut env, "my-cache", "key", b"my data")?;
/// cacache::hard_link_unchecked_sync(&mut env, "my-cache", "key", "/my-link")?; // it has b"my data"
/// ```
///
/// `EntryNotFound` if the lookup finds none, `IoError` says which step failed, with `NotFound` if the content isn't
/// there. Then nothing changed. `OutOfMemory` may come after the last step.
pub fn hard_link_unchecked_sync<S: Store, C: Clock, N: Names>(
    env: &mut Env<S, C, N>,
    cache: &str,
    key: &str,
    to: &str,
) -> Result<()>
    ensures ran { Calls S.log env.old env.new cache.now
        (unchecked_export HardLink (Key key.now) to.now) (reply_of done result) }
{
    link_content(env, cache, Named::Key(key), How::HardLink, false, to)
}

/// Exports the content that a lookup of the key finds to this path, where nothing may be, and answers how. With `Own`
/// it is copied. With `Shared` it gets the path as one more name, or is copied if a hard link fails with `Unsupported`
/// or with `Device`, which is also the fault of a path on another device.
///
/// The first step asks for the path. `AlreadyExists` says that something is there, in both modes: a file, also one that
/// is a name of the content, a folder, or a link, even to nothing. Then nothing changed. What somebody else puts there
/// after that step meets a copy as in `copy_sync`, and a hard link fails.
///
/// A way reads the content to its end first, and goes on only if it meets the integrity that the lookup gives. With `Own`
/// this is done once; with `Shared` a second time if the hard link failed.
///
/// Other errors are those of the hard link or, if that failed as above, of the copy: `EntryNotFound`, `IntegrityError` and
/// `IoError` come as from `copy_sync`, which also says what a copy that failed may leave. A hard link that fails changes
/// nothing. `OutOfMemory` may come after the last step.
pub fn export_sync<S: Store, C: Clock, N: Names>(
    env: &mut Env<S, C, N>,
    cache: &str,
    key: &str,
    to: &str,
    mode: ExportMode,
) -> Result<Exported>
    ensures exports { ExportsTo S.log cache.now (Key key.now) to.now mode
        env.old env.new result }
    ensures own { mode ≡ ExportMode.Own → IfOk result (λ e. e ≢ Exported.HardLinked) }
{
    export_content(env, cache, Named::Key(key), to, mode)
}
