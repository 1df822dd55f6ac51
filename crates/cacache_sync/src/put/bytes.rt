//! Calls that store bytes.
ghost use Rattle.std.specs.Prelude.{◌≡◌, IfOk};
ghost use Rattle.cacache_core.specs.{declared.integrity.algorithm.Algorithm.TheVariants.{Sha256}, Integrity.{integrity_under}};
ghost use Rattle.cacache_calls.specs.declared.command.Command.TheVariants as commands;
ghost use Rattle.cacache_calls.specs.{declared.reply.Reply.TheVariants.{Stored}, Runs.{reply_of}};
ghost use Rattle.cacache_jobs.specs.Environment.{Steps, RunsNumbered, RunsPut};
ghost use Rattle.cacache_sync.specs.put.KeyedWriters.{keyed_put as keyed_put_of, put_of, unkeyed_put as unkeyed_put_of};

use cacache_calls::{Command, Options, Put};
use cacache_core::bytes::Bytes;
use cacache_core::errors::Result;
use cacache_core::integrity::{Algorithm, Integrity};
use cacache_core::text::Text;
use cacache_jobs::call;
use cacache_store::env::{Clock, Env, Names};
use cacache_store::store::Store;

/// Stores the bytes with a temporary file of this number. With a key, they are stored under it, with this moment.
fn store<S: Store, C, N>(
    env: &mut Env<S, C, N>,
    cache: &str,
    algorithm: Algorithm,
    key: Option<Text>,
    data: Vec<u8>,
    moment: u64,
    number: u64,
) -> Result<Integrity>
    ensures stored { IfOk result (λ i. i ≡ integrity_under algorithm «data».items) }
    ensures ran { Steps S.log env.old env.new cache.now number
        (commands.Put (put_of algorithm key «data».items moment)) (reply_of Stored result) }
    ensures clock { env.new.clock ≡ env.old.clock }
    ensures names { env.new.names ≡ env.old.names }
{
    let data = Bytes::new(env.alloc, data)?;
    let put = Put {
        key,
        data,
        moment: u128::from(moment),
        options: Options::blank(algorithm),
    };
    call(env, cache, Command::Put(put), number).stored()
}

/// Stores the bytes under the key, and answers their SHA-256 integrity. The entry has the clock's moment,
/// which is asked once, before the first step.
///
/// The bytes are written anew each time, and moved over what is at their address: so a write mends a content that was
/// damaged, and replaces one that is a link. As in each call that writes, links or adds an entry, missing folders are
/// made, that of the cache and those above it too.
///
/// ```
/// let sri = cacache::write_sync(&mut env, "my-cache", "key", b"my data")?;
/// let bytes = cacache::read_hash_sync(&mut env, "my-cache", &sri)?; // b"my data"
/// ```
///
/// `IoError` says which step failed, took none of the bytes or only a part of the line. Then the content may
/// have been stored or not, and the bucket may end in a beginning of the line, perhaps all of it.
/// `OutOfMemory` may come after any step.
pub fn write_sync<S: Store, C: Clock, N: Names>(
    env: &mut Env<S, C, N>,
    cache: &str,
    key: &str,
    data: &[u8],
) -> Result<Integrity>
    ensures stored { IfOk result (λ i. i ≡ integrity_under Sha256 «data».now) }
    ensures ran { RunsPut S.log C.given N.given env.old env.new cache.now
        (keyed_put_of Sha256 key.now «data».now) (reply_of Stored result) }
{
    write_sync_with_algo(env, Algorithm::Sha256, cache, key, data)
}

/// What `write_sync` does, with an algorithm of the caller's for the integrity.
///
/// ```
/// let algo = cacache::Algorithm::Sha512;
/// let sri = cacache::write_sync_with_algo(&mut env, algo, "my-cache", "key", b"my data")?;
/// let algorithm = sri.pick_algorithm(); // Algorithm::Sha512
/// ```
///
/// Its future, `write_with_algo`, is run as in the example of `read`.
pub fn write_sync_with_algo<S: Store, C: Clock, N: Names>(
    env: &mut Env<S, C, N>,
    algo: Algorithm,
    cache: &str,
    key: &str,
    data: &[u8],
) -> Result<Integrity>
    ensures stored { IfOk result (λ i. i ≡ integrity_under algo «data».now) }
    ensures ran { RunsPut S.log C.given N.given env.old env.new cache.now
        (keyed_put_of algo key.now «data».now) (reply_of Stored result) }
{
    let moment = env.clock.now();
    let number = env.names.fresh();
    let key = Some(Text::from_str(env.alloc, key)?);
    let copy = Vec::from_slice(env.alloc, data)?;
    store(env, cache, algo, key, copy, moment, number)
}

/// What `write_sync` does, with bytes that are moved in, so that none is copied.
///
/// ```
/// let data = Vec::from_slice(alloc, b"my data")?;
/// let sri = cacache::write_vec_sync(&mut env, "my-cache", "key", data)?;
/// let bytes = cacache::read_hash_sync(&mut env, "my-cache", &sri)?; // b"my data"
/// ```
pub fn write_vec_sync<S: Store, C: Clock, N: Names>(
    env: &mut Env<S, C, N>,
    cache: &str,
    key: &str,
    data: Vec<u8>,
) -> Result<Integrity>
    ensures stored { IfOk result (λ i. i ≡ integrity_under Sha256 «data».items) }
    ensures ran { RunsPut S.log C.given N.given env.old env.new cache.now
        (keyed_put_of Sha256 key.now «data».items) (reply_of Stored result) }
{
    write_vec_sync_with_algo(env, Algorithm::Sha256, cache, key, data)
}

/// What `write_vec_sync` does, with an algorithm of the caller's for the integrity.
pub fn write_vec_sync_with_algo<S: Store, C: Clock, N: Names>(
    env: &mut Env<S, C, N>,
    algo: Algorithm,
    cache: &str,
    key: &str,
    data: Vec<u8>,
) -> Result<Integrity>
    ensures stored { IfOk result (λ i. i ≡ integrity_under algo «data».items) }
    ensures ran { RunsPut S.log C.given N.given env.old env.new cache.now
        (keyed_put_of algo key.now «data».items) (reply_of Stored result) }
{
    let moment = env.clock.now();
    let number = env.names.fresh();
    let key = Some(Text::from_str(env.alloc, key)?);
    store(env, cache, algo, key, data, moment, number)
}

/// Stores the bytes without a key, and answers their SHA-256 integrity.
///
/// ```
/// let sri = cacache::write_hash_sync(&mut env, "my-cache", b"hello")?;
/// let text = sri.to_string(alloc)?; // sha256-LPJNul+wow4m6DsqxbninhsWHlwfp0JecwQzYpOLmCQ=
/// ```
///
/// Its future, `write_hash`, is run as in the example of `read`.
///
/// `IoError` says which step failed or took none of the bytes. Then the content may have been stored or not;
/// no bucket changes. `OutOfMemory` may come after any step.
pub fn write_hash_sync<S: Store, C: Clock, N: Names>(
    env: &mut Env<S, C, N>,
    cache: &str,
    data: &[u8],
) -> Result<Integrity>
    ensures stored { IfOk result (λ i. i ≡ integrity_under Sha256 «data».now) }
    ensures ran { RunsNumbered S.log N.given env.old env.new cache.now
        (commands.Put (unkeyed_put_of Sha256 «data».now)) (reply_of Stored result) }
{
    write_hash_sync_with_algo(env, Algorithm::Sha256, cache, data)
}

/// What `write_hash_sync` does, with an algorithm of the caller's for the integrity.
///
/// ```
/// let algo = cacache::Algorithm::Sha512;
/// let sri = cacache::write_hash_sync_with_algo(&mut env, algo, "my-cache", b"my data")?;
/// let algorithm = sri.pick_algorithm(); // Algorithm::Sha512
/// ```
///
/// Its future, `write_hash_with_algo`, is run as in the example of `read`.
pub fn write_hash_sync_with_algo<S: Store, C: Clock, N: Names>(
    env: &mut Env<S, C, N>,
    algo: Algorithm,
    cache: &str,
    data: &[u8],
) -> Result<Integrity>
    ensures stored { IfOk result (λ i. i ≡ integrity_under algo «data».now) }
    ensures ran { RunsNumbered S.log N.given env.old env.new cache.now
        (commands.Put (unkeyed_put_of algo «data».now)) (reply_of Stored result) }
{
    let number = env.names.fresh();
    let copy = Vec::from_slice(env.alloc, data)?;
    store(env, cache, algo, None, copy, 0, number)
}

/// What `write_hash_sync` does, with bytes that are moved in, so that none is copied.
pub fn write_hash_vec_sync<S: Store, C: Clock, N: Names>(
    env: &mut Env<S, C, N>,
    cache: &str,
    data: Vec<u8>,
) -> Result<Integrity>
    ensures stored { IfOk result (λ i. i ≡ integrity_under Sha256 «data».items) }
    ensures ran { RunsNumbered S.log N.given env.old env.new cache.now
        (commands.Put (unkeyed_put_of Sha256 «data».items)) (reply_of Stored result) }
{
    write_hash_vec_sync_with_algo(env, Algorithm::Sha256, cache, data)
}

/// What `write_hash_vec_sync` does, with an algorithm of the caller's for the integrity.
pub fn write_hash_vec_sync_with_algo<S: Store, C: Clock, N: Names>(
    env: &mut Env<S, C, N>,
    algo: Algorithm,
    cache: &str,
    data: Vec<u8>,
) -> Result<Integrity>
    ensures stored { IfOk result (λ i. i ≡ integrity_under algo «data».items) }
    ensures ran { RunsNumbered S.log N.given env.old env.new cache.now
        (commands.Put (unkeyed_put_of algo «data».items)) (reply_of Stored result) }
{
    let number = env.names.fresh();
    store(env, cache, algo, None, data, 0, number)
}
