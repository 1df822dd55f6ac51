//! Contents that are written by polls.
ghost use Rattle.std.specs.{Prelude.{◌≡◌, None, Some, IfOk, IfErr}, Arc.{arc_value}};
ghost use Rattle.futures.specs.{Poll.{OnPending}, Task.{IsArmed, Keeps}};
ghost use Rattle.cacache_core.specs.declared.errors.Error.TheVariants.{OutOfMemory};
ghost use Rattle.cacache_sync.specs.put.KeyedWriters.{nothing_said, saying};
ghost use Rattle.cacache_async.specs.Futures.{Waits};
ghost use Rattle.cacache_writers.specs.{Writing.{IsFresh}, Turning.{IsWorkerOf}};

use crate::about::About;
use crate::committing::{AsyncWriterCloseFuture, WriterCommitFuture};
use crate::copying::CopyFuture;
use crate::creating::{
    AsyncWriterNewFuture, WriterCreateFuture, WriterCreateWithAlgoFuture, WriterOpenCall,
};
use crate::file::PolledFile;
use crate::worker::Worker;
use crate::writing::{PollWrite, WriteAllFuture};
use cacache_async::CallFuture;
use cacache_core::errors::Result;
use cacache_core::integrity::Algorithm;
use cacache_store::env::{Clock, Env, Names};
use cacache_store::store::Store;
use cacache_sync::put::opts::WriteOpts;
use futures::task::{Context, Poll};
use std::io::Read;
use std::sync::Wait;

/// A content that is written by polls: a worker writes its temporary file, and nothing is saved before the commit. A
/// writer that is dropped ends its workers, and leaves its file to the store: on real folders it is removed, and on a
/// disk in memory it stays for `clear`. A worker that is at work then removes it afterwards: join its thread before the
/// program ends.
#[derive(Drop)]
pub struct Writer<T> {
    pub(crate) file: PolledFile<T>,
    pub(crate) about: About,
}

impl<T: Drop> Writer<T> {
    /// Opens a writer of a content without a key, as a future. `size` has no effect. Nothing is saved before its
    /// `commit`.
    pub fn new<'a, S: Store<Temp = T>, C: Clock, N: Names>(
        env: &'a mut Env<S, C, N>,
        cache: &'a str,
        algo: Algorithm,
        size: Option<usize>,
    ) -> AsyncWriterNewFuture<'a, S, C, N>
        ensures waits { Waits result env.entry
            (record { cache = cache.entry; key = None; opts = saying algo }) }
    {
        let _size = size;
        let key = None;
        let opts = WriteOpts::new().algorithm(algo);
        CallFuture::new(env, WriterOpenCall { cache, key, opts })
    }

    /// Opens a writer that commits under the key, with the SHA-256 integrity, as a future. Nothing is saved before its
    /// `commit`.
    ///
    /// ```
    /// let writer = block_on(&rt, cacache::Writer::create(&mut env, "my-cache", "key"))??;
    /// let worker = writer.worker()?;
    /// let thread = thread::spawn(&rt, move || worker.run(&rt, &Open))?;
    /// let came = written(rt, &mut env, writer);
    /// thread.join(&rt);
    /// ```
    pub fn create<'a, S: Store<Temp = T>, C: Clock, N: Names>(
        env: &'a mut Env<S, C, N>,
        cache: &'a str,
        key: &'a str,
    ) -> WriterCreateFuture<'a, S, C, N>
        ensures waits { Waits result env.entry
            (record { cache = cache.entry; key = Some key.entry; opts = nothing_said }) }
    {
        let key = Some(key);
        let opts = WriteOpts::new();
        CallFuture::new(env, WriterOpenCall { cache, key, opts })
    }

    /// What `create` does, with an algorithm of the caller's for the integrity. Nothing is saved before its `commit`.
    /// It is run as in the example of `create`.
    pub fn create_with_algo<'a, S: Store<Temp = T>, C: Clock, N: Names>(
        env: &'a mut Env<S, C, N>,
        algo: Algorithm,
        cache: &'a str,
        key: &'a str,
    ) -> WriterCreateWithAlgoFuture<'a, S, C, N>
        ensures waits { Waits result env.entry
            (record { cache = cache.entry; key = Some key.entry; opts = saying algo }) }
    {
        let key = Some(key);
        let opts = WriteOpts::new().algorithm(algo);
        CallFuture::new(env, WriterOpenCall { cache, key, opts })
    }

    /// A worker for this writer, which the example of `create` runs in a thread of its own. `OutOfMemory` is the only
    /// error.
    pub fn worker(&self) -> Result<Worker<T>>
        ensures worker { IfOk result (IsWorkerOf (arc_value self.now.file.shared)) }
        ensures err { IfErr result (λ e. e ≡ OutOfMemory) }
    {
        self.file.worker()
    }

    /// Hands these bytes to a worker, and is pending; polled again with the same bytes, it answers how many the
    /// worker took. For no bytes it answers at once. While a flush is out it is only pending, also for no bytes, and
    /// hands nothing over.
    ///
    /// ```
    /// let data = b"my data";
    /// let count = block_on(&rt, poll_fn(|cx| writer.poll_write(&rt, cx, data)))??; // 7
    /// let sri = block_on(&rt, writer.commit(&rt, &mut env))??; // nothing was saved before
    /// ```
    ///
    /// `IoError` with `OtherBytes` if an earlier write isn't answered yet, with `Closed` after a close, and otherwise
    /// with the worker's fault. `OutOfMemory` changes nothing, or there was no memory for a message.
    pub fn poll_write<R: Wait>(
        &mut self,
        rt: &R,
        cx: &mut Context<'_>,
        data: &[u8],
    ) -> Poll<Result<usize>>
        ensures armed { OnPending result (IsArmed cx.new) }
        ensures kept { Keeps cx.old cx.new }
    {
        self.file.poll_write(rt, cx, data)
    }

    /// Writes all of these bytes, as a future: Ok exactly if all were taken. It asks `poll_write` about a piece at a time,
    /// of 64 KiB at most. If it is dropped before it is ready, a piece may be out or unanswered.
    ///
    /// ```
    /// block_on(&rt, writer.write_all(&rt, b"my data"))??;
    /// let sri = block_on(&rt, writer.commit(&rt, &mut env))??; // nothing was saved before
    /// ```
    ///
    /// `IoError` with `WriteZero` if the worker takes none of a piece; other errors are those of `poll_write`. After an
    /// error the file has a beginning of the bytes.
    pub fn write_all<'a, R: Wait>(
        &'a mut self,
        rt: &'a R,
        data: &'a [u8],
    ) -> WriteAllFuture<'a, R, Writer<T>>
        ensures lent { (result.writer.ghost_name ≡ self.entry.ghost_name)
            × (result.writer.now ≡ self.entry.now) }
        ensures waits { result.rest ≡ data.entry }
    {
        let alloc = self.file.alloc;
        WriteAllFuture::new(rt, alloc, self, data)
    }

    /// Writes all that the reader gives, as a future, and answers how many bytes that were. A poll reads once, and
    /// waits for the reader. Bytes are written 64 KiB at a time, and fewer once the reader has ended or failed.
    ///
    /// ```
    /// let reader: &[u8] = b"my data";
    /// let count = block_on(&rt, writer.copy_from(&rt, reader))??; // 7
    /// block_on(&rt, writer.commit(&rt, &mut env))??; // nothing was saved before
    /// ```
    ///
    /// `IoError` says that a read failed or had no memory, and its text that it was the reader, and how. A read that was
    /// interrupted is tried again. All earlier bytes were written then, so a copy that goes on with the same reader loses
    /// none. Other errors are those of `write_all`. After them, and if the future is dropped, the last 64 KiB that were
    /// read may be missing.
    pub fn copy_from<'a, R: Wait, F: Read + Drop>(
        &'a mut self,
        rt: &'a R,
        reader: F,
    ) -> CopyFuture<'a, R, Writer<T>, F>
        ensures lent { (result.writer.ghost_name ≡ self.entry.ghost_name)
            × (result.writer.now ≡ self.entry.now) }
        ensures waits { (result.reader ≡ reader) × IsFresh result.gathered }
    {
        let alloc = self.file.alloc;
        CopyFuture::new(rt, alloc, self, reader)
    }

    /// Has a worker hand on what is buffered. A write that isn't answered yet stays. Once no work comes any more it
    /// answers Ok, also if a worker quit with work undone.
    ///
    /// `IoError` has the worker's fault.
    pub fn poll_flush<R: Wait>(&mut self, rt: &R, cx: &mut Context<'_>) -> Poll<Result<()>>
        ensures armed { OnPending result (IsArmed cx.new) }
        ensures kept { Keeps cx.old cx.new }
    {
        self.file.poll_flush(rt, cx)
    }

    /// Has a worker remove the temporary file; nothing is committed. While other work is out it is only pending: a
    /// later poll begins the removal. If a worker quit with work undone, it answers Ok, and the file goes with the writer.
    ///
    /// `IoError` says that it wasn't removed, and is answered once.
    pub fn poll_close<R: Wait>(&mut self, rt: &R, cx: &mut Context<'_>) -> Poll<Result<()>>
        ensures armed { OnPending result (IsArmed cx.new) }
        ensures kept { Keeps cx.old cx.new }
    {
        self.file.poll_close(rt, cx)
    }

    /// Commits what was written, once no work is out, as `SyncWriter::commit` does. The example of `poll_write` runs
    /// it.
    ///
    /// `IoError` with `Closed` after a close, with `Cancelled` after a worker quit with work undone, and with the
    /// fault of a failed write that no poll answered; other errors are those of `SyncWriter::commit`.
    pub fn commit<'a, R: Wait, S: Store<Temp = T>, C: Clock, N: Names>(
        self,
        rt: &'a R,
        env: &'a mut Env<S, C, N>,
    ) -> WriterCommitFuture<'a, R, S, C, N, T>
        ensures lent { (result.env.ghost_name ≡ env.entry.ghost_name)
            × (result.env.now ≡ env.entry.now) }
        ensures waits { (result.file ≡ self.file) × (result.about ≡ Some self.about) }
    {
        let Writer { file, about } = self;
        WriterCommitFuture::new(rt, env, file, about)
    }

    /// What `commit` does.
    pub fn close<'a, R: Wait, S: Store<Temp = T>, C: Clock, N: Names>(
        self,
        rt: &'a R,
        env: &'a mut Env<S, C, N>,
    ) -> AsyncWriterCloseFuture<'a, R, S, C, N, T>
        ensures lent { (result.env.ghost_name ≡ env.entry.ghost_name)
            × (result.env.now ≡ env.entry.now) }
        ensures waits { (result.file ≡ self.file) × (result.about ≡ Some self.about) }
    {
        self.commit(rt, env)
    }
}

impl<T: Drop> PollWrite for Writer<T> {
    fn poll_write<R: Wait>(
        &mut self,
        rt: &R,
        cx: &mut Context<'_>,
        data: &[u8],
    ) -> Poll<Result<usize>> {
        self.file.poll_write(rt, cx, data)
    }
}
