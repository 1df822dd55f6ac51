//! Futures of the calls that read contents at once, and of the question whether one is there.
ghost use Rattle.std.specs.Prelude.{◌≡◌, IfOk, IfErr, IfSome};
ghost use Rattle.cacache_core.specs.{declared.errors.Error.TheVariants.{OutOfMemory}, Integrity.{IsIntegrity, Meets}};
ghost use Rattle.cacache_calls.specs.declared.command.Command.TheVariants as commands;
ghost use Rattle.cacache_calls.specs.{declared.reply.Reply.TheVariants.{Exists}, Runs.{reply_of}};
ghost use Rattle.cacache_jobs.specs.{ReadFirst.{ReadsFound}, Environment.{Calls}};
ghost use Rattle.cacache_sync.specs.Reads.{AsksContent, bytes_read, has};
ghost use Rattle.cacache_async.specs.Futures.{Waits};

use crate::call::Call;
use crate::future::CallFuture;
use cacache_core::errors::Result;
use cacache_core::integrity::Integrity;
use cacache_store::env::{Clock, Env, Names};
use cacache_store::store::Store;
use cacache_sync::{exists_sync, has_content, read_hash_sync, read_sync};

/// What `read_sync` is called with.
#[derive(Clone, Copy)]
pub struct ReadCall<'a> {
    cache: &'a str,
    key: &'a str,
}

impl<'a, S: Store, C: Clock, N: Names> Call<S, C, N> for ReadCall<'a> {
    type Output = Vec<u8>;

    ghost makes = { λ c old r new. IfOk r (λ bytes. ReadsFound c.cache.now c.key.now bytes.items
        (S.log old.store) (S.log new.store))
        × Calls S.log old new c.cache.now
        (commands.Get c.key.now) (reply_of bytes_read r) };

    fn make(self, env: &mut Env<S, C, N>) -> Result<Vec<u8>> {
        read_sync(env, self.cache, self.key)
    }
}

/// The future of `read`.
pub type ReadFuture<'a, S, C, N> = CallFuture<'a, S, C, N, ReadCall<'a>>;

/// `read_sync` as a future. A content that isn't there is `IoError` with `NotFound`.
///
/// ```
/// cacache::write_sync(&mut env, "my-cache", "key", b"my data")?;
/// let bytes = block_on(&rt, cacache::read(&mut env, "my-cache", "key"))??; // b"my data"
/// ```
pub fn read<'a, S: Store, C: Clock, N: Names>(
    env: &'a mut Env<S, C, N>,
    cache: &'a str,
    key: &'a str,
) -> ReadFuture<'a, S, C, N>
    ensures waits { Waits result env.entry
        (record { cache = cache.entry; key = key.entry }) }
{
    CallFuture::new(env, ReadCall { cache, key })
}

/// What `read_hash_sync` is called with.
#[derive(Clone, Copy)]
pub struct ReadHashCall<'a> {
    cache: &'a str,
    sri: &'a Integrity,
}

impl<'a, S: Store, C: Clock, N: Names> Call<S, C, N> for ReadHashCall<'a> {
    type Output = Vec<u8>;

    ghost makes = { λ c old r new. IfOk r (λ bytes. Meets c.sri.now bytes.items)
        × IsIntegrity c.sri.now
        × Calls S.log old new c.cache.now
        (commands.GetHash c.sri.now) (reply_of bytes_read r) };

    fn make(self, env: &mut Env<S, C, N>) -> Result<Vec<u8>> {
        read_hash_sync(env, self.cache, self.sri)
    }
}

/// The future of `read_hash`.
pub type ReadHashFuture<'a, S, C, N> = CallFuture<'a, S, C, N, ReadHashCall<'a>>;

/// `read_hash_sync` as a future, run as in the example of `read`. A content that isn't there is `IoError` with
/// `NotFound`.
pub fn read_hash<'a, S: Store, C: Clock, N: Names>(
    env: &'a mut Env<S, C, N>,
    cache: &'a str,
    sri: &'a Integrity,
) -> ReadHashFuture<'a, S, C, N>
    ensures waits { Waits result env.entry
        (record { cache = cache.entry; sri = sri.entry }) }
{
    CallFuture::new(env, ReadHashCall { cache, sri })
}

/// What `exists_sync` is called with.
#[derive(Clone, Copy)]
pub struct ExistsCall<'a> {
    cache: &'a str,
    sri: &'a Integrity,
}

impl<'a, S: Store, C: Clock, N: Names> Call<S, C, N> for ExistsCall<'a> {
    type Output = bool;

    ghost makes = { λ c old r new. AsksContent c.cache.now c.sri.now (S.log old.store) (S.log new.store) r
        × IfErr r (λ e. e ≡ OutOfMemory)
        × IsIntegrity c.sri.now
        × Calls S.log old new c.cache.now
        (commands.Exists c.sri.now) (reply_of Exists r) };

    fn make(self, env: &mut Env<S, C, N>) -> Result<bool> {
        exists_sync(env, self.cache, self.sri)
    }
}

/// The future of `exists`.
pub type ExistsFuture<'a, S, C, N> = CallFuture<'a, S, C, N, ExistsCall<'a>>;

/// `exists_sync` as a future, run as in the example of `read`.
pub fn exists<'a, S: Store, C: Clock, N: Names>(
    env: &'a mut Env<S, C, N>,
    cache: &'a str,
    sri: &'a Integrity,
) -> ExistsFuture<'a, S, C, N>
    ensures waits { Waits result env.entry
        (record { cache = cache.entry; sri = sri.entry }) }
{
    CallFuture::new(env, ExistsCall { cache, sri })
}

/// What `has_content` is called with.
#[derive(Clone, Copy)]
pub struct HasContentAsyncCall<'a> {
    cache: &'a str,
    sri: &'a Integrity,
}

impl<'a, S: Store, C: Clock, N: Names> Call<S, C, N> for HasContentAsyncCall<'a> {
    type Output = Option<Integrity>;

    ghost makes = { λ c old r new. IfOk r (λ found. IfSome found (λ i. i ≡ c.sri.now))
        × IfErr r (λ e. e ≡ OutOfMemory)
        × IsIntegrity c.sri.now
        × Calls S.log old new c.cache.now
        (commands.Exists c.sri.now) (reply_of has r) };

    fn make(self, env: &mut Env<S, C, N>) -> Result<Option<Integrity>> {
        has_content(env, self.cache, self.sri)
    }
}

/// The future of `has_content_async`.
pub type HasContentAsyncFuture<'a, S, C, N> = CallFuture<'a, S, C, N, HasContentAsyncCall<'a>>;

/// `has_content` as a future.
pub fn has_content_async<'a, S: Store, C: Clock, N: Names>(
    env: &'a mut Env<S, C, N>,
    cache: &'a str,
    sri: &'a Integrity,
) -> HasContentAsyncFuture<'a, S, C, N>
    ensures waits { Waits result env.entry
        (record { cache = cache.entry; sri = sri.entry }) }
{
    CallFuture::new(env, HasContentAsyncCall { cache, sri })
}
