//! Futures of the calls that make a content of a link to a file.
ghost use Rattle.std.specs.Prelude.{None, Some, IfOk};
ghost use Rattle.cacache_calls.specs.declared.command.Command.TheVariants as commands;
ghost use Rattle.cacache_calls.specs.{declared.reply.Reply.TheVariants.{Stored}, Linking.{based}, Runs.{reply_of}};
ghost use Rattle.cacache_jobs.specs.Environment.{Calls, RunsTimed};
ghost use Rattle.cacache_sync.specs.put.OpenLinkers.{link_to as linked, HoldsTarget};
ghost use Rattle.cacache_async.specs.Futures.{Waits};

use crate::call::Call;
use crate::future::CallFuture;
use cacache_core::errors::Result;
use cacache_core::integrity::Integrity;
use cacache_store::env::{Clock, Env, Names};
use cacache_store::store::Store;
use cacache_sync::put::linkto::{link_to_hash_sync, link_to_sync};

/// What `link_to_sync` is called with.
#[derive(Clone, Copy)]
pub struct LinkToCall<'a> {
    cache: &'a str,
    key: &'a str,
    target: &'a str,
}

impl<'a, S: Store, C: Clock, N: Names> Call<S, C, N> for LinkToCall<'a> {
    type Output = Integrity;

    ghost makes = { λ c old r new. IfOk r (λ i. HoldsTarget (based old.base c.target.now) i
        (S.log old.store) (S.log new.store))
        × RunsTimed S.log C.given None old new c.cache.now
        (λ moment. commands.Link (linked (Some c.key.now) c.target.now moment)) (reply_of Stored r) };

    fn make(self, env: &mut Env<S, C, N>) -> Result<Integrity> {
        link_to_sync(env, self.cache, self.key, self.target)
    }
}

/// The future of `link_to`.
pub type LinkToFuture<'a, S, C, N> = CallFuture<'a, S, C, N, LinkToCall<'a>>;

/// `link_to_sync` as a future, run as in the example of `read`.
pub fn link_to<'a, S: Store, C: Clock, N: Names>(
    env: &'a mut Env<S, C, N>,
    cache: &'a str,
    key: &'a str,
    target: &'a str,
) -> LinkToFuture<'a, S, C, N>
    ensures waits { Waits result env.entry
        (record { cache = cache.entry; key = key.entry; target = target.entry }) }
{
    CallFuture::new(env, LinkToCall { cache, key, target })
}

/// What `link_to_hash_sync` is called with.
#[derive(Clone, Copy)]
pub struct LinkToHashCall<'a> {
    cache: &'a str,
    target: &'a str,
}

impl<'a, S: Store, C: Clock, N: Names> Call<S, C, N> for LinkToHashCall<'a> {
    type Output = Integrity;

    ghost makes = { λ c old r new. IfOk r (λ i. HoldsTarget (based old.base c.target.now) i
        (S.log old.store) (S.log new.store))
        × Calls S.log old new c.cache.now
        (commands.Link (linked None c.target.now 0)) (reply_of Stored r) };

    fn make(self, env: &mut Env<S, C, N>) -> Result<Integrity> {
        link_to_hash_sync(env, self.cache, self.target)
    }
}

/// The future of `link_to_hash`.
pub type LinkToHashFuture<'a, S, C, N> = CallFuture<'a, S, C, N, LinkToHashCall<'a>>;

/// `link_to_hash_sync` as a future, run as in the example of `read`.
pub fn link_to_hash<'a, S: Store, C: Clock, N: Names>(
    env: &'a mut Env<S, C, N>,
    cache: &'a str,
    target: &'a str,
) -> LinkToHashFuture<'a, S, C, N>
    ensures waits { Waits result env.entry
        (record { cache = cache.entry; target = target.entry }) }
{
    CallFuture::new(env, LinkToHashCall { cache, target })
}
