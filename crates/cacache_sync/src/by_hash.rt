//! Exports of the content of an integrity.
ghost use Rattle.std.specs.Prelude.{◌≡◌, ◌≢◌, IfOk};
ghost use Rattle.cacache_calls.specs.{declared.{command.{How.TheVariants.{Copy, Reflink, HardLink}, Source.TheVariants.{Hash}}, reply.Reply.TheVariants.{Copied, Done}}, Runs.{reply_of}, Replies.{done}};
ghost use Rattle.cacache_core.specs.Integrity.{IsIntegrity};
ghost use Rattle.cacache_sync.specs.Exports.{checked_export, unchecked_export, ExportsTo};
ghost use Rattle.cacache_jobs.specs.{ReadFirst.{Verified}, Environment.{Calls}};

use crate::exporting::{Named, copy_content, link_content};
use crate::ways::{ExportMode, Exported, export_content};
use cacache_calls::How;
use cacache_core::errors::Result;
use cacache_core::integrity::Integrity;
use cacache_store::env::{Clock, Env, Names};
use cacache_store::store::Store;

/// Copies the content of the integrity to this path, and answers how many bytes it has. A file there is overwritten, as
/// by `copy_sync`. The content is read to its end first, and goes there only if it meets the integrity.
///
/// ```
/// let sri = cacache::write_hash_sync(&mut env, "my-cache", b"my data")?;
/// let count = cacache::copy_hash_sync(&mut env, "my-cache", &sri, "/my-copy")?; // 7
/// ```
///
/// Its future, `copy_hash`, is run as in the example of `read`.
///
/// `IntegrityError` if the content doesn't meet the integrity, `IoError` says which step failed, with `NotFound`
/// if the content isn't there. The path is left alone until the content is verified; a copy that failed may leave a
/// part of it there. `OutOfMemory` may come after the last step.
pub fn copy_hash_sync<S: Store, C: Clock, N: Names>(
    env: &mut Env<S, C, N>,
    cache: &str,
    sri: &Integrity,
    to: &str,
) -> Result<u64>
    ensures formed { IsIntegrity sri.now }
    ensures verified { IfOk result (λ count. Verified cache.now (Hash sri.now) (Copied count)
        (S.log env.old.store) (S.log env.new.store)) }
    ensures ran { Calls S.log env.old env.new cache.now
        (checked_export Copy (Hash sri.now) to.now) (reply_of Copied result) }
{
    copy_content(env, cache, Named::Hash(sri), true, to)
}

/// Copies the content of the integrity to this path, and answers how many bytes it has. A file there is overwritten, as
/// by `copy_sync`. Whether it meets the integrity isn't asked.
///
/// ```
/// let sri = cacache::write_hash_sync(&mut env, "my-cache", b"my data")?;
/// let count = cacache::copy_hash_unchecked_sync(&mut env, "my-cache", &sri, "/my-copy")?; // 7
/// ```
///
/// Its future, `copy_hash_unchecked`, is run as in the example of `read`.
///
/// `IoError` says which step failed, with `NotFound` if the content isn't there. A copy that failed may leave a part
/// of it there. `OutOfMemory` may come after the last step.
pub fn copy_hash_unchecked_sync<S: Store, C: Clock, N: Names>(
    env: &mut Env<S, C, N>,
    cache: &str,
    sri: &Integrity,
    to: &str,
) -> Result<u64>
    ensures formed { IsIntegrity sri.now }
    ensures ran { Calls S.log env.old env.new cache.now
        (unchecked_export Copy (Hash sri.now) to.now) (reply_of Copied result) }
{
    copy_content(env, cache, Named::Hash(sri), false, to)
}

/// Makes a file at this path that shares its storage with the content of the integrity. Nothing may be there. The
/// content is read to its end first, and goes there only if it meets the integrity. Real folders make no reflinks:
/// there its last step always fails with `Unsupported`.
///
/// ```
/// let sri = cacache::write_hash_sync(&mut env, "my-cache", b"my data")?;
/// cacache::reflink_hash_sync(&mut env, "my-cache", &sri, "/my-copy")?; // on real folders it fails
/// ```
///
/// Its future, `reflink_hash`, is run as in the example of `read`.
///
/// `IntegrityError` if the content doesn't meet the integrity, `IoError` says which step failed, with `NotFound`
/// if the content isn't there. Then nothing changed. `OutOfMemory` may come after the last step.
pub fn reflink_hash_sync<S: Store, C: Clock, N: Names>(
    env: &mut Env<S, C, N>,
    cache: &str,
    sri: &Integrity,
    to: &str,
) -> Result<()>
    ensures formed { IsIntegrity sri.now }
    ensures verified { IfOk result (λ _. Verified cache.now (Hash sri.now) Done
        (S.log env.old.store) (S.log env.new.store)) }
    ensures ran { Calls S.log env.old env.new cache.now
        (checked_export Reflink (Hash sri.now) to.now) (reply_of done result) }
{
    link_content(env, cache, Named::Hash(sri), How::Reflink, true, to)
}

/// Makes a file at this path that shares its storage with the content of the integrity. Nothing may be there.
/// Whether it meets the integrity isn't asked. Real folders make no reflinks: there its last step always fails with
/// `Unsupported`.
///
/// ```
/// let sri = cacache::write_hash_sync(&mut env, "my-cache", b"my data")?;
/// cacache::reflink_hash_unchecked_sync(&mut env, "my-cache", &sri, "/my-copy")?; // on real folders it fails
/// ```
///
/// `IoError` says which step failed, with `NotFound` if the content isn't there. Then nothing changed. `OutOfMemory`
/// may come after the last step.
pub fn reflink_hash_unchecked_sync<S: Store, C: Clock, N: Names>(
    env: &mut Env<S, C, N>,
    cache: &str,
    sri: &Integrity,
    to: &str,
) -> Result<()>
    ensures formed { IsIntegrity sri.now }
    ensures ran { Calls S.log env.old env.new cache.now
        (unchecked_export Reflink (Hash sri.now) to.now) (reply_of done result) }
{
    link_content(env, cache, Named::Hash(sri), How::Reflink, false, to)
}

/// Gives the content of the integrity one more name, which is this path. Nothing may be there. The content is read
/// to its end first, and goes there only if it meets the integrity. On real folders both names are one file: whoever
/// changes it through this one damages the cache.
///
/// ```
/// let sri = cacache::write_hash_sync(&mut env, "my-cache", b"my data")?;
/// cacache::hard_link_hash_sync(&mut env, "my-cache", &sri, "/my-link")?; // /my-link has b"my data"
/// ```
///
/// Its future, `hard_link_hash`, is run as in the example of `read`.
///
/// `IntegrityError` if the content doesn't meet the integrity, `IoError` says which step failed, with `NotFound`
/// if the content isn't there. Then nothing changed. `OutOfMemory` may come after the last step.
pub fn hard_link_hash_sync<S: Store, C: Clock, N: Names>(
    env: &mut Env<S, C, N>,
    cache: &str,
    sri: &Integrity,
    to: &str,
) -> Result<()>
    ensures formed { IsIntegrity sri.now }
    ensures verified { IfOk result (λ _. Verified cache.now (Hash sri.now) Done
        (S.log env.old.store) (S.log env.new.store)) }
    ensures ran { Calls S.log env.old env.new cache.now
        (checked_export HardLink (Hash sri.now) to.now) (reply_of done result) }
{
    link_content(env, cache, Named::Hash(sri), How::HardLink, true, to)
}

/// Gives the content of the integrity one more name, which is this path. Nothing may be there. Whether it meets the
/// integrity isn't asked. On real folders both names are one file: whoever changes it through this one damages the
/// cache.
///
/// ```
/// let sri = cacache::write_hash_sync(&mut env, "my-cache", b"my data")?;
/// cacache::hard_link_hash_unchecked_sync(&mut env, "my-cache", &sri, "/my-link")?; // it has b"my data"
/// ```
///
/// `IoError` says which step failed, with `NotFound` if the content isn't there. Then nothing changed. `OutOfMemory`
/// may come after the last step.
pub fn hard_link_hash_unchecked_sync<S: Store, C: Clock, N: Names>(
    env: &mut Env<S, C, N>,
    cache: &str,
    sri: &Integrity,
    to: &str,
) -> Result<()>
    ensures formed { IsIntegrity sri.now }
    ensures ran { Calls S.log env.old env.new cache.now
        (unchecked_export HardLink (Hash sri.now) to.now) (reply_of done result) }
{
    link_content(env, cache, Named::Hash(sri), How::HardLink, false, to)
}

/// Exports the content of the integrity to this path, where nothing may be, and answers how: by a copy with `Own`, by a
/// hard link or a copy with `Shared`, as `export_sync` does. A way reads the content to its end first, and goes on only
/// if it meets the integrity.
///
/// `AlreadyExists` says that something is at the path, in both modes, and nothing changed. Other errors are those of the
/// hard link or, if that failed with `Unsupported` or `Device`, of the copy: `IntegrityError` and `IoError` come as from
/// `copy_hash_sync`. `OutOfMemory` may come after the last step.
pub fn export_hash_sync<S: Store, C: Clock, N: Names>(
    env: &mut Env<S, C, N>,
    cache: &str,
    sri: &Integrity,
    to: &str,
    mode: ExportMode,
) -> Result<Exported>
    ensures formed { IsIntegrity sri.now }
    ensures exports { ExportsTo S.log cache.now (Hash sri.now) to.now mode
        env.old env.new result }
    ensures own { mode ≡ ExportMode.Own → IfOk result (λ e. e ≢ Exported.HardLinked) }
{
    export_content(env, cache, Named::Hash(sri), to, mode)
}
