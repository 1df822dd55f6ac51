//! Contents that are read at once, and the question whether one is there.
ghost use Rattle.std.specs.Prelude.{◌≡◌, IfOk, IfErr, IfSome};
ghost use Rattle.cacache_core.specs.{declared.errors.Error.TheVariants.{OutOfMemory}, Integrity.{IsIntegrity, Meets}};
ghost use Rattle.cacache_calls.specs.declared.command.Command.TheVariants as commands;
ghost use Rattle.cacache_calls.specs.{declared.reply.Reply.TheVariants.{Read, Exists}, Promises.{Answers}, Runs.{reply_of}};
ghost use Rattle.cacache_jobs.specs.{Environment.{Calls}, ReadFirst.{FindsBytes, ReadsFound}, JobStates.{site_of}};
ghost use Rattle.cacache_sync.specs.Reads.{ReadsBytes, AsksContent, bytes_read, has};

use cacache_calls::Command;
use cacache_calls::answers::there_of;
use cacache_core::errors::Result;
use cacache_core::integrity::Integrity;
use cacache_core::text::Text;
use cacache_jobs::{call, content_path, is_there};
use cacache_store::env::{Clock, Env, Names};
use cacache_store::store::{Step, Store};

/// Makes a call that reads bytes.
fn read<S: Store, C, N>(env: &mut Env<S, C, N>, cache: &str, command: Command) -> Result<Vec<u8>>
    requires { ReadsBytes command }
    ensures ran { Calls S.log env.old env.new cache.now command (reply_of bytes_read result) }
    ensures found { IfOk result (λ bytes. FindsBytes cache.now command (Read bytes.items)
        (S.log env.old.store) (S.log env.new.store)) }
    ensures promised { IfOk result (λ bytes.
        Answers (site_of cache.now env.old.base 0) command (Read bytes.items)) }
{
    let bytes = call(env, cache, command, 0).read()?;
    Ok(bytes.into_vec(env.alloc)?)
}

/// The bytes that the key was last stored with. They meet the integrity that the lookup of the key gives from the
/// bucket as this call read it. An entry doesn't mean that its content is there.
///
/// ```
/// cacache::write_sync(&mut env, "my-cache", "key", b"my data")?;
/// let bytes = cacache::read_sync(&mut env, "my-cache", "key")?; // b"my data"
/// ```
///
/// `EntryNotFound` if the lookup finds none, `IntegrityError` if the content doesn't meet the integrity, `IoError`
/// says which step failed, with `NotFound` if the content isn't there. Nothing changes.
pub fn read_sync<S: Store, C: Clock, N: Names>(
    env: &mut Env<S, C, N>,
    cache: &str,
    key: &str,
) -> Result<Vec<u8>>
    ensures verified { IfOk result (λ bytes. ReadsFound cache.now key.now bytes.items
        (S.log env.old.store) (S.log env.new.store)) }
    ensures ran { Calls S.log env.old env.new cache.now (commands.Get key.now)
        (reply_of bytes_read result) }
{
    let command = Command::Get(Text::from_str(env.alloc, key)?);
    read(env, cache, command)
}

/// The bytes of an integrity. Whatever the store gives, what is answered meets it.
///
/// ```
/// let sri = cacache::write_hash_sync(&mut env, "my-cache", b"my data")?;
/// let bytes = cacache::read_hash_sync(&mut env, "my-cache", &sri)?; // b"my data"
/// ```
///
/// Its future, `read_hash`, is run as in the example of `read`.
///
/// `IntegrityError` if the content doesn't meet the integrity, `IoError` says which step failed, with `NotFound`
/// if the content isn't there. Nothing changes.
pub fn read_hash_sync<S: Store, C: Clock, N: Names>(
    env: &mut Env<S, C, N>,
    cache: &str,
    sri: &Integrity,
) -> Result<Vec<u8>>
    ensures verified { IfOk result (λ bytes. Meets sri.now bytes.items) }
    ensures formed { IsIntegrity sri.now }
    ensures ran { Calls S.log env.old env.new cache.now (commands.GetHash sri.now)
        (reply_of bytes_read result) }
{
    let _address = sri.address();
    let command = Command::GetHash(sri.clone()?);
    read(env, cache, command)
}

/// Whether the content of the integrity is there. Whether it meets the integrity isn't asked.
///
/// ```
/// let sri = cacache::Integrity::from(alloc, b"my data")?;
/// let before = cacache::exists_sync(&mut env, "my-cache", &sri)?; // false
/// cacache::write_hash_sync(&mut env, "my-cache", b"my data")?;
/// let after = cacache::exists_sync(&mut env, "my-cache", &sri)?; // true
/// ```
///
/// Its future, `exists`, is run as in the example of `read`.
///
/// A failed step counts as a content that isn't there, so `OutOfMemory` is the only error. Nothing changes. It is one
/// step.
pub fn exists_sync<S: Store, C: Clock, N: Names>(
    env: &mut Env<S, C, N>,
    cache: &str,
    sri: &Integrity,
) -> Result<bool>
    ensures asks { AsksContent cache.now sri.now (S.log env.old.store) (S.log env.new.store)
        result }
    ensures memory { IfErr result (λ e. e ≡ OutOfMemory) }
    ensures formed { IsIntegrity sri.now }
    ensures ran { Calls S.log env.old env.new cache.now (commands.Exists sri.now)
        (reply_of Exists result) }
{
    let _address = sri.address();
    let path = content_path(env.alloc, cache, sri)?;
    is_there(there_of(env.store.step(Step::Exists(path))))
}

/// The integrity again, if its content is there. Whether that meets the integrity isn't asked.
///
/// A failed step counts as a content that isn't there, so `OutOfMemory` is the only error. Nothing changes.
pub fn has_content<S: Store, C: Clock, N: Names>(
    env: &mut Env<S, C, N>,
    cache: &str,
    sri: &Integrity,
) -> Result<Option<Integrity>>
    ensures same { IfOk result (λ found. IfSome found (λ i. i ≡ sri.now)) }
    ensures memory { IfErr result (λ e. e ≡ OutOfMemory) }
    ensures formed { IsIntegrity sri.now }
    ensures ran { Calls S.log env.old env.new cache.now (commands.Exists sri.now)
        (reply_of has result) }
{
    let _address = sri.address();
    let copy = sri.clone()?;
    if exists_sync(env, cache, sri)? {
        Ok(Some(copy))
    } else {
        Ok(None)
    }
}
