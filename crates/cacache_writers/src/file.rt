//! A temporary file that is written by polls.
ghost use Rattle.std.specs.{Prelude.{◌≡◌, IfOk, IfErr}, Arc.{arc_value}};
ghost use Rattle.cacache_core.specs.declared.errors.Error.TheVariants.{OutOfMemory};
ghost use Rattle.futures.specs.{Poll.{OnPending}, Task.{IsArmed, Keeps}};
ghost use Rattle.cacache_writers.specs.Turning.{IsWorkerOf};

use crate::kept::Kept;
use crate::shared::Shared;
use crate::worker::Worker;
use cacache_core::errors::Result;
use cacache_core::integrity::Algorithm;
use cacache_polled::Request as Asked;
use futures::task::{Context, Poll};
use std::alloc::Global;
use std::sync::{Arc, Wait};

/// A temporary file that a worker writes. The polls hand the work out and answer with its result; one that is pending
/// wakes its task when the work is done. Dropping it ends its workers, and drops the file unless a worker has it.
pub struct PolledFile<T> {
    /// What it shares with its workers: the core, the temporary file, and the work that is out.
    pub shared: Arc<Shared<T>, Global>,
    pub(crate) alloc: Global,
}

impl<T: Drop> Drop for PolledFile<T> {
    fn drop(self) {
        let PolledFile { shared, alloc: _ } = self;
        shared.leave();
    }
}

impl<T: Drop> PolledFile<T> {
    /// A file that nothing was written to yet. `OutOfMemory` is the only error.
    pub fn new(alloc: Global, algorithm: Algorithm, temp: T) -> Result<PolledFile<T>>
        ensures err { IfErr result (λ e. e ≡ OutOfMemory) }
    {
        let shared = Arc::new(alloc, Shared::new(Kept::new(algorithm, temp)))?;
        Ok(PolledFile { shared, alloc })
    }

    /// A worker for this file. `OutOfMemory` is the only error.
    pub fn worker(&self) -> Result<Worker<T>>
        ensures worker { IfOk result (IsWorkerOf (arc_value self.now.shared)) }
        ensures err { IfErr result (λ e. e ≡ OutOfMemory) }
    {
        Ok(Worker::new(Arc::try_clone(&self.shared)?))
    }

    /// Asks the core, and waits if the core waits.
    fn poll<R: Wait>(&self, rt: &R, cx: &mut Context<'_>, asked: Asked<'_>) -> Poll<Result<usize>>
        ensures armed { OnPending result (IsArmed cx.new) }
        ensures kept { Keeps cx.old cx.new }
    {
        let shared: &Shared<T> = &self.shared;
        let mut guard = shared.kept.lock(rt);
        let kept = &mut *guard;
        let polled = kept.answer(self.alloc, asked, cx, &shared.source);
        shared.release(guard);
        polled
    }

    /// What `Writer::poll_write` does.
    pub fn poll_write<R: Wait>(
        &mut self,
        rt: &R,
        cx: &mut Context<'_>,
        data: &[u8],
    ) -> Poll<Result<usize>>
        ensures armed { OnPending result (IsArmed cx.new) }
        ensures kept { Keeps cx.old cx.new }
    {
        self.poll(rt, cx, Asked::Write(data))
    }

    /// What `Writer::poll_flush` does.
    pub fn poll_flush<R: Wait>(&mut self, rt: &R, cx: &mut Context<'_>) -> Poll<Result<()>>
        ensures armed { OnPending result (IsArmed cx.new) }
        ensures kept { Keeps cx.old cx.new }
    {
        without_count(self.poll(rt, cx, Asked::Flush))
    }

    /// What `Writer::poll_close` does.
    pub fn poll_close<R: Wait>(&mut self, rt: &R, cx: &mut Context<'_>) -> Poll<Result<()>>
        ensures armed { OnPending result (IsArmed cx.new) }
        ensures kept { Keeps cx.old cx.new }
    {
        without_count(self.poll(rt, cx, Asked::Close))
    }
}

/// The answer without the count.
fn without_count(polled: Poll<Result<usize>>) -> Poll<Result<()>>
    ensures { OnPending result (polled ≡ Poll.Pending) }
{
    match polled {
        Poll::Ready(Ok(_)) => Poll::Ready(Ok(())),
        Poll::Ready(Err(error)) => Poll::Ready(Err(error)),
        Poll::Pending => Poll::Pending,
    }
}
