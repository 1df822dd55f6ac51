//! Futures of the calls on the index.
ghost use Rattle.std.specs.Prelude.{◌≡◌, None, IfOk};
ghost use Rattle.cacache_calls.specs.declared.command.Command.TheVariants as commands;
ghost use Rattle.cacache_calls.specs.{declared.reply.Reply.TheVariants.{Stored}, Inserting.{given_or, no_integrity}, Replies.{done, looked_up}, Runs.{reply_of}};
ghost use Rattle.cacache_jobs.specs.Environment.{Calls, RunsTimed};
ghost use Rattle.cacache_sync.specs.{Lookups.{LooksUp, delete_of}, put.KeyedWriters.{insert_of}};
ghost use Rattle.cacache_async.specs.Futures.{Waits};

use crate::call::Call;
use crate::future::CallFuture;
use cacache_core::errors::Result;
use cacache_core::integrity::Integrity;
use cacache_entry::Metadata;
use cacache_store::env::{Clock, Env, Names};
use cacache_store::store::Store;
use cacache_sync::index::{delete, find};
use cacache_sync::put::index::insert;
use cacache_sync::put::opts::WriteOpts;

/// What `find` is called with.
#[derive(Clone, Copy)]
pub struct FindAsyncCall<'a> {
    cache: &'a str,
    key: &'a str,
}

impl<'a, S: Store, C: Clock, N: Names> Call<S, C, N> for FindAsyncCall<'a> {
    type Output = Option<Metadata>;

    ghost makes = { λ c old r new. LooksUp c.cache.now c.key.now (S.log old.store) (S.log new.store) r
        × Calls S.log old new c.cache.now
        (commands.Find c.key.now) (reply_of looked_up r) };

    fn make(self, env: &mut Env<S, C, N>) -> Result<Option<Metadata>> {
        find(env, self.cache, self.key)
    }
}

/// The future of `find_async`.
pub type FindAsyncFuture<'a, S, C, N> = CallFuture<'a, S, C, N, FindAsyncCall<'a>>;

/// `find` as a future, run as in the example of `read`. An entry doesn't mean that its content is there.
pub fn find_async<'a, S: Store, C: Clock, N: Names>(
    env: &'a mut Env<S, C, N>,
    cache: &'a str,
    key: &'a str,
) -> FindAsyncFuture<'a, S, C, N>
    ensures waits { Waits result env.entry
        (record { cache = cache.entry; key = key.entry }) }
{
    CallFuture::new(env, FindAsyncCall { cache, key })
}

/// What `insert` is called with.
#[derive(Drop)]
pub struct InsertAsyncCall<'a> {
    cache: &'a str,
    key: &'a str,
    opts: WriteOpts,
}

impl<'a, S: Store, C: Clock, N: Names> Call<S, C, N> for InsertAsyncCall<'a> {
    type Output = Integrity;

    ghost makes = { λ c old r new. IfOk r (λ i. i ≡ given_or no_integrity c.opts.integrity)
        × RunsTimed S.log C.given c.opts.time old new c.cache.now
        (λ moment. commands.Insert (insert_of c.key.now c.opts moment)) (reply_of Stored r) };

    fn make(self, env: &mut Env<S, C, N>) -> Result<Integrity> {
        let InsertAsyncCall { cache, key, opts } = self;
        insert(env, cache, key, opts)
    }
}

/// The future of `insert_async`.
pub type InsertAsyncFuture<'a, S, C, N> = CallFuture<'a, S, C, N, InsertAsyncCall<'a>>;

/// `insert` as a future, run as in the example of `read`. Without an integrity it adds a tombstone, and without a size
/// the entry records 0.
pub fn insert_async<'a, S: Store, C: Clock, N: Names>(
    env: &'a mut Env<S, C, N>,
    cache: &'a str,
    key: &'a str,
    opts: WriteOpts,
) -> InsertAsyncFuture<'a, S, C, N>
    ensures waits { Waits result env.entry
        (record { cache = cache.entry; key = key.entry; opts = opts }) }
{
    CallFuture::new(env, InsertAsyncCall { cache, key, opts })
}

/// What `delete` is called with.
#[derive(Clone, Copy)]
pub struct DeleteAsyncCall<'a> {
    cache: &'a str,
    key: &'a str,
}

impl<'a, S: Store, C: Clock, N: Names> Call<S, C, N> for DeleteAsyncCall<'a> {
    type Output = ();

    ghost makes = { λ c old r new. RunsTimed S.log C.given None old new c.cache.now
        (λ moment. commands.Delete (delete_of c.key.now moment)) (reply_of done r) };

    fn make(self, env: &mut Env<S, C, N>) -> Result<()> {
        delete(env, self.cache, self.key)
    }
}

/// The future of `delete_async`.
pub type DeleteAsyncFuture<'a, S, C, N> = CallFuture<'a, S, C, N, DeleteAsyncCall<'a>>;

/// `delete` as a future, run as in the example of `read`. The content stays, and can still be read by its integrity.
pub fn delete_async<'a, S: Store, C: Clock, N: Names>(
    env: &'a mut Env<S, C, N>,
    cache: &'a str,
    key: &'a str,
) -> DeleteAsyncFuture<'a, S, C, N>
    ensures waits { Waits result env.entry
        (record { cache = cache.entry; key = key.entry }) }
{
    CallFuture::new(env, DeleteAsyncCall { cache, key })
}
