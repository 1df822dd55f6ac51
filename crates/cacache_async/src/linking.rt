//! Futures that open the target of a link.
ghost use Rattle.std.specs.Prelude.{◌≡◌, None, Some};
ghost use Rattle.cacache_sync.specs.put.OpenLinkers.{BeginsLink, OpensLink, OpensWithSize, asks_file, asks_size};
ghost use Rattle.cacache_async.specs.{Futures.{Waits, target_asked, target_said}, Polling.{linker_in}};

use crate::call::Call;
use crate::future::CallFuture;
use crate::linker::ToLinker;
use cacache_core::errors::Result;
use cacache_store::env::{Clock, Env, Names};
use cacache_store::store::{OpenedFile, Store};
use cacache_sync::put::linker::SyncToLinker;
use cacache_sync::put::opts::WriteOpts;
use std::alloc::Global;

/// The linker, or why there is none.
fn polled_linker<F: OpenedFile>(
    alloc: Global,
    opened: Result<SyncToLinker<F>>,
) -> Result<ToLinker<F>>
    ensures { linker_in result ≡ opened }
{
    let linker = opened?;
    Ok(ToLinker { linker, alloc })
}

/// What opens a target and asks for its size first: a cache, the key that the link is to have, if any, and the
/// target.
#[derive(Clone, Copy)]
pub struct SizedTargetCall<'a> {
    pub(crate) cache: &'a str,
    pub(crate) key: Option<&'a str>,
    pub(crate) target: &'a str,
}

impl<'a, S: Store, C: Clock, N: Names> Call<S, C, N> for SizedTargetCall<'a> {
    type Output = ToLinker<S::File>;

    ghost makes = { λ c old r new.
        OpensWithSize S.File.seen S.log old new (target_asked c old.base) (linker_in r)
        × BeginsLink S.File.seen S.log old new asks_size (target_asked c old.base)
        (linker_in r) };

    fn make(self, env: &mut Env<S, C, N>) -> Result<ToLinker<S::File>> {
        let SizedTargetCall { cache, key, target } = self;
        let alloc = env.alloc;
        match key {
            Some(key) => polled_linker(alloc, SyncToLinker::open(env, cache, key, target)),
            None => polled_linker(alloc, SyncToLinker::open_hash(env, cache, target)),
        }
    }
}

/// The future of `ToLinker::open`.
pub type ToLinkerOpenFuture<'a, S, C, N> = CallFuture<'a, S, C, N, SizedTargetCall<'a>>;

/// The future of `ToLinker::open_hash`.
pub type ToLinkerOpenHashFuture<'a, S, C, N> = CallFuture<'a, S, C, N, SizedTargetCall<'a>>;

/// What a target is opened with: a cache, the key that the link is to have, if any, the target, and options.
#[derive(Drop)]
pub struct TargetCall<'a> {
    pub(crate) cache: &'a str,
    pub(crate) key: Option<&'a str>,
    pub(crate) target: &'a str,
    pub(crate) opts: WriteOpts,
}

impl<'a, S: Store, C: Clock, N: Names> Call<S, C, N> for TargetCall<'a> {
    type Output = ToLinker<S::File>;

    ghost makes = { λ c old r new.
        OpensLink S.File.seen S.log old new (target_said c old.base) (linker_in r)
        × BeginsLink S.File.seen S.log old new asks_file (target_said c old.base) (linker_in r) };

    fn make(self, env: &mut Env<S, C, N>) -> Result<ToLinker<S::File>> {
        let TargetCall {
            cache,
            key,
            target,
            opts,
        } = self;
        let alloc = env.alloc;
        match key {
            Some(key) => polled_linker(alloc, opts.link_to_sync(env, cache, key, target)),
            None => polled_linker(alloc, opts.link_to_hash_sync(env, cache, target)),
        }
    }
}

/// The future of `ToLinker::new`.
pub type AsyncToLinkerNewFuture<'a, S, C, N> = CallFuture<'a, S, C, N, TargetCall<'a>>;

/// The future of `WriteOpts::link_to`.
pub type WriteOptsLinkToFuture<'a, S, C, N> = CallFuture<'a, S, C, N, TargetCall<'a>>;

/// The future of `WriteOpts::link_to_hash`.
pub type WriteOptsLinkToHashFuture<'a, S, C, N> = CallFuture<'a, S, C, N, TargetCall<'a>>;

/// Links that are opened with options, as futures.
pub trait LinkAsync {
    /// `link_to_sync` as a future. Nothing is saved before the linker's `commit`.
    fn link_to<'a, S: Store, C: Clock, N: Names>(
        self,
        env: &'a mut Env<S, C, N>,
        cache: &'a str,
        key: &'a str,
        target: &'a str,
    ) -> WriteOptsLinkToFuture<'a, S, C, N>;

    /// `link_to_hash_sync` as a future. Nothing is saved before the linker's `commit`.
    fn link_to_hash<'a, S: Store, C: Clock, N: Names>(
        self,
        env: &'a mut Env<S, C, N>,
        cache: &'a str,
        target: &'a str,
    ) -> WriteOptsLinkToHashFuture<'a, S, C, N>;
}

impl LinkAsync for WriteOpts {
    fn link_to<'a, S: Store, C: Clock, N: Names>(
        self,
        env: &'a mut Env<S, C, N>,
        cache: &'a str,
        key: &'a str,
        target: &'a str,
    ) -> WriteOptsLinkToFuture<'a, S, C, N>
        ensures waits { Waits result env.entry (record
            { cache = cache.entry; key = Some key.entry; target = target.entry; opts = self }) }
    {
        let call = TargetCall {
            cache,
            key: Some(key),
            target,
            opts: self,
        };
        CallFuture::new(env, call)
    }

    fn link_to_hash<'a, S: Store, C: Clock, N: Names>(
        self,
        env: &'a mut Env<S, C, N>,
        cache: &'a str,
        target: &'a str,
    ) -> WriteOptsLinkToHashFuture<'a, S, C, N>
        ensures waits { Waits result env.entry
            (record { cache = cache.entry; key = None; target = target.entry; opts = self }) }
    {
        let call = TargetCall {
            cache,
            key: None,
            target,
            opts: self,
        };
        CallFuture::new(env, call)
    }
}
