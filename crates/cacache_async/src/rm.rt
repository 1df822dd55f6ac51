//! Futures of the calls that remove.
ghost use Rattle.std.specs.Prelude.{◌≡◌, None, true, false};
ghost use Rattle.cacache_core.specs.Integrity.{IsIntegrity};
ghost use Rattle.cacache_calls.specs.declared.command.Command.TheVariants as commands;
ghost use Rattle.cacache_calls.specs.{Replies.{done}, Runs.{reply_of}};
ghost use Rattle.cacache_jobs.specs.Environment.{Calls, RunsTimed};
ghost use Rattle.cacache_sync.specs.Lookups.{delete_of};
ghost use Rattle.cacache_async.specs.Futures.{Waits};

use crate::call::Call;
use crate::future::CallFuture;
use cacache_core::errors::Result;
use cacache_core::integrity::Integrity;
use cacache_store::env::{Clock, Env, Names};
use cacache_store::store::Store;
use cacache_sync::rm::{RemoveOpts, clear_sync, remove_hash_sync};

/// What `remove_hash_sync` is called with.
#[derive(Clone, Copy)]
pub struct RemoveHashCall<'a> {
    cache: &'a str,
    sri: &'a Integrity,
}

impl<'a, S: Store, C: Clock, N: Names> Call<S, C, N> for RemoveHashCall<'a> {
    type Output = ();

    ghost makes = { λ c old r new. IsIntegrity c.sri.now
        × Calls S.log old new c.cache.now
        (commands.RemoveHash c.sri.now) (reply_of done r) };

    fn make(self, env: &mut Env<S, C, N>) -> Result<()> {
        remove_hash_sync(env, self.cache, self.sri)
    }
}

/// The future of `remove_hash`.
pub type RemoveHashFuture<'a, S, C, N> = CallFuture<'a, S, C, N, RemoveHashCall<'a>>;

/// `remove_hash_sync` as a future, run as in the example of `read`. Entries that name the content stay.
pub fn remove_hash<'a, S: Store, C: Clock, N: Names>(
    env: &'a mut Env<S, C, N>,
    cache: &'a str,
    sri: &'a Integrity,
) -> RemoveHashFuture<'a, S, C, N>
    ensures waits { Waits result env.entry
        (record { cache = cache.entry; sri = sri.entry }) }
{
    CallFuture::new(env, RemoveHashCall { cache, sri })
}

/// What `clear_sync` is called with.
#[derive(Clone, Copy)]
pub struct ClearCall<'a> {
    cache: &'a str,
}

impl<'a, S: Store, C: Clock, N: Names> Call<S, C, N> for ClearCall<'a> {
    type Output = ();

    ghost makes = { λ c old r new. Calls S.log old new c.cache.now commands.Clear (reply_of done r) };

    fn make(self, env: &mut Env<S, C, N>) -> Result<()> {
        clear_sync(env, self.cache)
    }
}

/// The future of `clear`.
pub type ClearFuture<'a, S, C, N> = CallFuture<'a, S, C, N, ClearCall<'a>>;

/// `clear_sync` as a future, run as in the example of `read`.
pub fn clear<'a, S: Store, C: Clock, N: Names>(
    env: &'a mut Env<S, C, N>,
    cache: &'a str,
) -> ClearFuture<'a, S, C, N>
    ensures waits { Waits result env.entry
        (record { cache = cache.entry }) }
{
    CallFuture::new(env, ClearCall { cache })
}

/// What `RemoveOpts::remove` is called with.
#[derive(Clone, Copy)]
pub struct RemoveOptsRemoveCall<'a> {
    opts: RemoveOpts,
    cache: &'a str,
    key: &'a str,
}

impl<'a, S: Store, C: Clock, N: Names> Call<S, C, N> for RemoveOptsRemoveCall<'a> {
    type Output = ();

    ghost makes = { λ c old r new. (c.opts.remove_fully ≡ true → Calls S.log old new c.cache.now
        (commands.RemoveFully c.key.now) (reply_of done r))
        × (c.opts.remove_fully ≡ false → RunsTimed S.log C.given None old new c.cache.now
        (λ moment. commands.Delete (delete_of c.key.now moment)) (reply_of done r)) };

    fn make(self, env: &mut Env<S, C, N>) -> Result<()> {
        self.opts.remove_sync(env, self.cache, self.key)
    }
}

/// The future of `RemoveOpts::remove`.
pub type RemoveOptsRemoveFuture<'a, S, C, N> = CallFuture<'a, S, C, N, RemoveOptsRemoveCall<'a>>;

/// Removals with options, as futures.
pub trait RemoveAsync {
    /// `remove_sync` as a future, run as in the example of `read`. Unless the key is removed fully, the content stays,
    /// and can still be read by its integrity.
    fn remove<'a, S: Store, C: Clock, N: Names>(
        self,
        env: &'a mut Env<S, C, N>,
        cache: &'a str,
        key: &'a str,
    ) -> RemoveOptsRemoveFuture<'a, S, C, N>;
}

impl RemoveAsync for RemoveOpts {
    fn remove<'a, S: Store, C: Clock, N: Names>(
        self,
        env: &'a mut Env<S, C, N>,
        cache: &'a str,
        key: &'a str,
    ) -> RemoveOptsRemoveFuture<'a, S, C, N>
        ensures waits { Waits result env.entry
            (record { opts = self; cache = cache.entry; key = key.entry }) }
    {
        let call = RemoveOptsRemoveCall {
            opts: self,
            cache,
            key,
        };
        CallFuture::new(env, call)
    }
}
