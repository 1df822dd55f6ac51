//! Futures that open polled writers.
ghost use Rattle.std.specs.Prelude.{◌≡◌, None, Some, IfOk, option_map};
ghost use Rattle.cacache_async.specs.Futures.{Waits};
ghost use Rattle.cacache_writers.specs.Opening.{OpensWriter};

use crate::opening::open_writer;
use crate::writer::Writer;
use cacache_async::{Call, CallFuture};
use cacache_core::errors::Result;
use cacache_core::keeping::beside;
use cacache_core::text::Text;
use cacache_store::env::{Clock, Env, Names};
use cacache_store::store::Store;
use cacache_sync::put::opts::WriteOpts;
use std::alloc::{AllocError, Global};

/// The key as a text of its own, if there is one.
fn owned(alloc: Global, key: Option<&str>) -> std::result::Result<Option<Text>, AllocError>
    ensures { IfOk result (λ owned. owned ≡ option_map (λ key. key.now) key.entry) }
{
    match key {
        Some(key) => Ok(Some(Text::from_str(alloc, key)?)),
        None => Ok(None),
    }
}

/// What a writer is opened with: a cache, the key under which it is to commit, if any, and options.
#[derive(Drop)]
pub struct WriterOpenCall<'a> {
    pub(crate) cache: &'a str,
    pub(crate) key: Option<&'a str>,
    pub(crate) opts: WriteOpts,
}

impl<'a, S: Store, C: Clock, N: Names> Call<S, C, N> for WriterOpenCall<'a> {
    type Output = Writer<S::Temp>;

    ghost makes = { λ c old r new. OpensWriter S.log N.given old new c.cache.now
        (option_map (λ key. key.now) c.key) c.opts r };

    // A number is asked once, before the first step.
    fn make(self, env: &mut Env<S, C, N>) -> Result<Writer<S::Temp>> {
        let WriterOpenCall { cache, key, opts } = self;
        let number = env.names.fresh();
        let (key, opts) = beside(owned(env.alloc, key), opts)?;
        open_writer(env.alloc, &mut env.store, cache, number, key, opts)
    }
}

/// The future of `AsyncWriter::new`.
pub type AsyncWriterNewFuture<'a, S, C, N> = CallFuture<'a, S, C, N, WriterOpenCall<'a>>;

/// The future of `Writer::create`.
pub type WriterCreateFuture<'a, S, C, N> = CallFuture<'a, S, C, N, WriterOpenCall<'a>>;

/// The future of `Writer::create_with_algo`.
pub type WriterCreateWithAlgoFuture<'a, S, C, N> = CallFuture<'a, S, C, N, WriterOpenCall<'a>>;

/// The future of `WriteOpts::open`.
pub type WriteOptsOpenFuture<'a, S, C, N> = CallFuture<'a, S, C, N, WriterOpenCall<'a>>;

/// The future of `WriteOpts::open_hash`.
pub type WriteOptsOpenHashFuture<'a, S, C, N> = CallFuture<'a, S, C, N, WriterOpenCall<'a>>;

/// Polled writers that are opened with options, as futures.
pub trait OpenAsync {
    /// Opens a writer that commits under the key. Nothing is saved before its `commit`.
    fn open<'a, S: Store, C: Clock, N: Names>(
        self,
        env: &'a mut Env<S, C, N>,
        cache: &'a str,
        key: &'a str,
    ) -> WriteOptsOpenFuture<'a, S, C, N>;

    /// Opens a writer that commits without a key. Nothing is saved before its `commit`.
    fn open_hash<'a, S: Store, C: Clock, N: Names>(
        self,
        env: &'a mut Env<S, C, N>,
        cache: &'a str,
    ) -> WriteOptsOpenHashFuture<'a, S, C, N>;
}

impl OpenAsync for WriteOpts {
    fn open<'a, S: Store, C: Clock, N: Names>(
        self,
        env: &'a mut Env<S, C, N>,
        cache: &'a str,
        key: &'a str,
    ) -> WriteOptsOpenFuture<'a, S, C, N>
        ensures waits { Waits result env.entry
            (record { cache = cache.entry; key = Some key.entry; opts = self }) }
    {
        let key = Some(key);
        let opts = self;
        CallFuture::new(env, WriterOpenCall { cache, key, opts })
    }

    fn open_hash<'a, S: Store, C: Clock, N: Names>(
        self,
        env: &'a mut Env<S, C, N>,
        cache: &'a str,
    ) -> WriteOptsOpenHashFuture<'a, S, C, N>
        ensures waits { Waits result env.entry
            (record { cache = cache.entry; key = None; opts = self }) }
    {
        let key = None;
        let opts = self;
        CallFuture::new(env, WriterOpenCall { cache, key, opts })
    }
}
