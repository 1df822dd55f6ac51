//! Links that are made after their target is read by polls.
ghost use Rattle.std.specs.{Prelude.{◌≡◌, ◌++◌, ℕ, List, None, Some, IfOk, IfErr, OnOk, OnErr, length}, Io.{ReadsAtMost, KnownBytes.{Consumes, ReadConsumes}}};
ghost use Rattle.futures.specs.{Poll.{IfReady, OnPending}, Task.{Keeps}};
ghost use Rattle.cacache_store.specs.Plain.{LeftFalls};
ghost use Rattle.cacache_calls.specs.{declared.reply.Reply.TheVariants.{Stored}, Runs.{reply_of}};
ghost use Rattle.cacache_sync.specs.{content.{OpenWrites.{IsRetried}, OpenReads.{passed}}, put.{OpenLinkers.{CommitsLink, HasHashed, HashesMore, HashesPart, StoresWhole}, KeyedWriters.{saying}}};
ghost use Rattle.cacache_async.specs.{Futures.{Waits}, Polling.{TellsRead}};

use crate::call::Call;
use crate::future::{CallFuture, polling};
use crate::linking::{
    AsyncToLinkerNewFuture, SizedTargetCall, TargetCall, ToLinkerOpenFuture, ToLinkerOpenHashFuture,
};
use cacache_core::errors::{Fault, Result};
use cacache_core::integrity::{Algorithm, Integrity};
use cacache_store::env::{Clock, Env, Names};
use cacache_store::store::{OpenedFile, Store};
use cacache_sync::put::linker::SyncToLinker;
use cacache_sync::put::opts::WriteOpts;
use futures::task::{Context, Poll};
use std::alloc::Global;
use std::io;
use std::io::Read;

/// An open file that is to become a content by a link to it, and that is read by polls: a `SyncToLinker` that answers
/// its reads at once. Nothing is saved before its `commit`.
#[derive(Drop)]
pub struct ToLinker<F> {
    pub(crate) linker: SyncToLinker<F>,
    pub(crate) alloc: Global,
}

/// What `ToLinker::commit` is called with.
#[derive(Drop)]
pub struct ToLinkerCommitCall<F> {
    linker: SyncToLinker<F>,
}

impl<F: OpenedFile, S: Store<File = F>, C: Clock, N: Names> Call<S, C, N>
    for ToLinkerCommitCall<F> {
    type Output = Integrity;

    ghost makes = { λ c old r new. ((bytes : List ℕ) → HasHashed c.linker bytes
        → IfOk r (λ i. StoresWhole F.seen c.linker bytes i (S.log old.store) (S.log new.store)))
        × ((bytes : List ℕ) → HasHashed c.linker bytes
        → CommitsLink F.seen S.log C.given old new c.linker bytes (reply_of Stored r)) };

    fn make(self, env: &mut Env<S, C, N>) -> Result<Integrity> {
        let ToLinkerCommitCall { linker } = self;
        linker.commit(env)
    }
}

/// The future of `ToLinker::commit`.
pub type ToLinkerCommitFuture<'a, S, C, N, F> = CallFuture<'a, S, C, N, ToLinkerCommitCall<F>>;

impl<F: OpenedFile> ToLinker<F> {
    /// `SyncToLinker::new` as a future. Nothing is saved before its `commit`. It is run and committed as in the example
    /// of `open`.
    pub fn new<'a, S: Store<File = F>, C: Clock, N: Names>(
        env: &'a mut Env<S, C, N>,
        cache: &'a str,
        algo: Algorithm,
        target: &'a str,
    ) -> AsyncToLinkerNewFuture<'a, S, C, N>
        ensures waits { Waits result env.entry (record
            { cache = cache.entry; key = None; target = target.entry; opts = saying algo }) }
    {
        let call = TargetCall {
            cache,
            key: None,
            target,
            opts: WriteOpts::new().algorithm(algo),
        };
        CallFuture::new(env, call)
    }

    /// `SyncToLinker::open` as a future. Nothing is saved before its `commit`.
    ///
    /// ```
    /// let linker = block_on(
    ///     &rt,
    ///     cacache::ToLinker::open(&mut env, "my-cache", "key", "/my-file"),
    /// )??;
    /// let sri = block_on(&rt, linker.commit(&mut env))??; // nothing was saved before
    /// ```
    pub fn open<'a, S: Store<File = F>, C: Clock, N: Names>(
        env: &'a mut Env<S, C, N>,
        cache: &'a str,
        key: &'a str,
        target: &'a str,
    ) -> ToLinkerOpenFuture<'a, S, C, N>
        ensures waits { Waits result env.entry
            (record { cache = cache.entry; key = Some key.entry; target = target.entry }) }
    {
        let key = Some(key);
        CallFuture::new(env, SizedTargetCall { cache, key, target })
    }

    /// `SyncToLinker::open_hash` as a future. Nothing is saved before its `commit`. It is run and committed as in the
    /// example of `open`.
    pub fn open_hash<'a, S: Store<File = F>, C: Clock, N: Names>(
        env: &'a mut Env<S, C, N>,
        cache: &'a str,
        target: &'a str,
    ) -> ToLinkerOpenHashFuture<'a, S, C, N>
        ensures waits { Waits result env.entry
            (record { cache = cache.entry; key = None; target = target.entry }) }
    {
        let key = None;
        CallFuture::new(env, SizedTargetCall { cache, key, target })
    }

    /// Reads some bytes into the front of `buf`, and answers how many: none only at the end of the target, or if `buf` is
    /// empty. It is always ready.
    ///
    /// `IoError` has the fault of the read; the linker stays at the same byte. `OutOfMemory` if there is no memory
    /// for its message.
    pub fn poll_read(&mut self, cx: &mut Context<'_>, buf: &mut [u8]) -> Poll<Result<usize>>
        ensures ready { OnPending result ⊥ }
        ensures kept { Keeps cx.old cx.new }
        ensures bytes { IfReady result (λ r. ReadConsumes (F.seen self.old.linker.file).bytes
            (F.seen self.new.linker.file).bytes r buf.new) }
        ensures left { IfReady result (λ r. LeftFalls (F.seen self.old.linker.file).left
            (F.seen self.new.linker.file).left r) }
        ensures earned { IfReady result (λ r. TellsRead F.reads self.old.linker.file
            (length buf.old) r self.new.linker.file) }
        ensures so_far { IfReady result (λ r. (bytes : List ℕ) → HasHashed self.old.linker bytes
            → HasHashed self.new.linker (bytes ++ passed r buf.new)) }
        ensures linked { self.new.linker.linked ≡ self.old.linker.linked }
    {
        let _ = cx;
        match self.linker.read(buf) {
            Ok(count) => Poll::Ready(Ok(count)),
            Err(error) => Poll::Ready(Err(polling(self.alloc, Fault::from(error.kind())))),
        }
    }

    /// `SyncToLinker::commit` as a future.
    pub fn commit<'a, S: Store<File = F>, C: Clock, N: Names>(
        self,
        env: &'a mut Env<S, C, N>,
    ) -> ToLinkerCommitFuture<'a, S, C, N, F>
        ensures waits { Waits result env.entry (record { linker = self.linker }) }
    {
        let ToLinker { linker, alloc: _ } = self;
        CallFuture::new(env, ToLinkerCommitCall { linker })
    }
}

impl<F: OpenedFile> Read for ToLinker<F> {
    ghost remaining = { λ linker. (F.seen linker.linker.file).bytes };

    /// Reads some bytes into the front of `buf` and returns how many: none only at the end of the target, or if `buf` is
    /// empty. After an error the linker is at the same byte, and may go on.
    fn read(&mut self, buf: &mut [u8]) -> io::Result<usize>
        ensures bound { ReadsAtMost result buf.new }
        ensures bytes { ReadConsumes (F.seen self.old.linker.file).bytes
            (F.seen self.new.linker.file).bytes result buf.new }
        ensures left { LeftFalls (F.seen self.old.linker.file).left
            (F.seen self.new.linker.file).left result }
        ensures earned { F.reads self.old.linker.file (length buf.old) result self.new.linker.file }
        ensures so_far { (bytes : List ℕ) → HasHashed self.old.linker bytes
            → HasHashed self.new.linker (bytes ++ passed result buf.new) }
        ensures linked { self.new.linker.linked ≡ self.old.linker.linked }
    {
        self.linker.read(buf)
    }

    /// Fills `buf`, in as many reads as that takes. A read that was interrupted is tried again.
    ///
    /// After an error a beginning of `buf` was read, perhaps nothing, and the linker goes on after it. `UnexpectedEof`
    /// says that the target has ended.
    fn read_exact(&mut self, buf: &mut [u8]) -> io::Result<()>
        ensures bytes { OnOk result (Consumes (F.seen self.old.linker.file).bytes
            (F.seen self.new.linker.file).bytes buf.new) }
        ensures so_far { OnOk result (HashesMore self.old.linker self.new.linker buf.new) }
        ensures part { OnErr result (HashesPart F.seen self.old.linker self.new.linker buf.new) }
        ensures linked { self.new.linker.linked ≡ self.old.linker.linked }
        ensures retried { IfErr result IsRetried }
    {
        self.linker.read_exact(buf)
    }
}
