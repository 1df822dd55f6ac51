//! Futures of the calls that store bytes.
ghost use Rattle.std.specs.Prelude.{◌≡◌, IfOk};
ghost use Rattle.cacache_core.specs.{declared.integrity.algorithm.Algorithm.TheVariants.{Sha256}, Integrity.{integrity_under}};
ghost use Rattle.cacache_calls.specs.declared.command.Command.TheVariants as commands;
ghost use Rattle.cacache_calls.specs.{declared.reply.Reply.TheVariants.{Stored}, Runs.{reply_of}};
ghost use Rattle.cacache_jobs.specs.Environment.{RunsNumbered, RunsPut};
ghost use Rattle.cacache_sync.specs.put.KeyedWriters.{keyed_put, unkeyed_put};
ghost use Rattle.cacache_async.specs.Futures.{Waits};

use crate::call::Call;
use crate::future::CallFuture;
use cacache_core::errors::Result;
use cacache_core::integrity::{Algorithm, Integrity};
use cacache_store::env::{Clock, Env, Names};
use cacache_store::store::Store;
use cacache_sync::put::bytes::{write_hash_sync_with_algo, write_sync_with_algo};

/// What `write_sync_with_algo` is called with.
#[derive(Clone, Copy)]
pub struct WriteCall<'a> {
    algo: Algorithm,
    cache: &'a str,
    key: &'a str,
    data: &'a [u8],
}

impl<'a, S: Store, C: Clock, N: Names> Call<S, C, N> for WriteCall<'a> {
    type Output = Integrity;

    ghost makes = { λ c old r new. IfOk r (λ i. i ≡ integrity_under c.algo c.«data».now)
        × RunsPut S.log C.given N.given old new c.cache.now
        (keyed_put c.algo c.key.now c.«data».now) (reply_of Stored r) };

    fn make(self, env: &mut Env<S, C, N>) -> Result<Integrity> {
        write_sync_with_algo(env, self.algo, self.cache, self.key, self.data)
    }
}

/// What `write_hash_sync_with_algo` is called with.
#[derive(Clone, Copy)]
pub struct WriteHashCall<'a> {
    algo: Algorithm,
    cache: &'a str,
    data: &'a [u8],
}

impl<'a, S: Store, C: Clock, N: Names> Call<S, C, N> for WriteHashCall<'a> {
    type Output = Integrity;

    ghost makes = { λ c old r new. IfOk r (λ i. i ≡ integrity_under c.algo c.«data».now)
        × RunsNumbered S.log N.given old new c.cache.now
        (commands.Put (unkeyed_put c.algo c.«data».now)) (reply_of Stored r) };

    fn make(self, env: &mut Env<S, C, N>) -> Result<Integrity> {
        write_hash_sync_with_algo(env, self.algo, self.cache, self.data)
    }
}

/// The future of `write`.
pub type WriteFuture<'a, S, C, N> = CallFuture<'a, S, C, N, WriteCall<'a>>;

/// `write_sync` as a future.
///
/// ```
/// let sri = block_on(&rt, cacache::write(&mut env, "my-cache", "key", b"my data"))??;
/// let bytes = cacache::read_hash_sync(&mut env, "my-cache", &sri)?; // b"my data"
/// ```
pub fn write<'a, S: Store, C: Clock, N: Names>(
    env: &'a mut Env<S, C, N>,
    cache: &'a str,
    key: &'a str,
    data: &'a [u8],
) -> WriteFuture<'a, S, C, N>
    ensures waits { Waits result env.entry
        (record { algo = Sha256; cache = cache.entry; key = key.entry; «data» = «data».entry }) }
{
    write_with_algo(env, Algorithm::Sha256, cache, key, data)
}

/// The future of `write_with_algo`.
pub type WriteWithAlgoFuture<'a, S, C, N> = CallFuture<'a, S, C, N, WriteCall<'a>>;

/// `write_sync_with_algo` as a future, run as in the example of `read`.
pub fn write_with_algo<'a, S: Store, C: Clock, N: Names>(
    env: &'a mut Env<S, C, N>,
    algo: Algorithm,
    cache: &'a str,
    key: &'a str,
    data: &'a [u8],
) -> WriteWithAlgoFuture<'a, S, C, N>
    ensures waits { Waits result env.entry
        (record { algo = algo; cache = cache.entry; key = key.entry; «data» = «data».entry }) }
{
    let call = WriteCall {
        algo,
        cache,
        key,
        data,
    };
    CallFuture::new(env, call)
}

/// The future of `write_hash`.
pub type WriteHashFuture<'a, S, C, N> = CallFuture<'a, S, C, N, WriteHashCall<'a>>;

/// `write_hash_sync` as a future, run as in the example of `read`.
pub fn write_hash<'a, S: Store, C: Clock, N: Names>(
    env: &'a mut Env<S, C, N>,
    cache: &'a str,
    data: &'a [u8],
) -> WriteHashFuture<'a, S, C, N>
    ensures waits { Waits result env.entry
        (record { algo = Sha256; cache = cache.entry; «data» = «data».entry }) }
{
    write_hash_with_algo(env, Algorithm::Sha256, cache, data)
}

/// The future of `write_hash_with_algo`.
pub type WriteHashWithAlgoFuture<'a, S, C, N> = CallFuture<'a, S, C, N, WriteHashCall<'a>>;

/// `write_hash_sync_with_algo` as a future, run as in the example of `read`.
pub fn write_hash_with_algo<'a, S: Store, C: Clock, N: Names>(
    env: &'a mut Env<S, C, N>,
    algo: Algorithm,
    cache: &'a str,
    data: &'a [u8],
) -> WriteHashWithAlgoFuture<'a, S, C, N>
    ensures waits { Waits result env.entry
        (record { algo = algo; cache = cache.entry; «data» = «data».entry }) }
{
    CallFuture::new(env, WriteHashCall { algo, cache, data })
}
