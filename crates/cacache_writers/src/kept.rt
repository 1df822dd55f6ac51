//! What lies under the lock of a polled file.
ghost use Rattle.std.specs.Prelude.{◌≡◌, IfSome, IsTrue, None, true};
ghost use Rattle.futures.specs.{Poll.{OnPending}, Task.{IsArmed, Keeps}};
ghost use Rattle.cacache_core.specs.Hashers.{algorithm_of};
ghost use Rattle.cacache_polled.specs.{declared.kinds.Completion.TheVariants.{Gone}, Table.{ask_of}};
ghost use Rattle.cacache_writers.specs.Sharing.{GivesUp, IsPolled, IsEnded, IsNew, taken_out, left_after};

use cacache_async::polling;
use cacache_core::errors::Result;
use cacache_core::integrity::Algorithm;
use cacache_polled::{Completion, Polled, Request, Work, WriterCore};
use futures::task::{Context, Poll, Source, Waker};
use std::alloc::Global;
use std::snapshot::Snapshot;

/// What lies under the lock.
#[derive(Drop)]
pub struct Kept<T> {
    pub core: WriterCore,
    /// The file, unless a worker has it out or the polled file was dropped.
    pub temp: Option<T>,
    /// Work that was handed out and that no worker has taken.
    pub work: Option<Work>,
    /// Dropping it wakes the task that waits.
    pub waker: Option<Waker>,
    /// No worker comes any more.
    pub is_gone: bool,
}

/// Shows that a core got the ending of its work, and with which file: only `Kept::end` makes one.
#[derive(Drop)]
pub struct Told<T> {
    ending: Completion,
    temp: Snapshot<Option<T>>,
}

impl<T: Drop> Told<T> {
    /// The ending that the core got.
    pub fn ending(&self) -> Completion
        ensures { result ≡ self.now.ending }
    {
        self.ending
    }
}

impl<T: Drop> Kept<T> {
    /// A new core with this file: nothing was asked, and no work is out.
    pub fn new(algorithm: Algorithm, temp: T) -> Kept<T>
        ensures new { IsNew algorithm temp result }
    {
        Kept {
            core: WriterCore::new(algorithm),
            temp: Some(temp),
            work: None,
            waker: None,
            is_gone: false,
        }
    }

    /// One poll. Ok(None) is pending, and Ok(Some) how many bytes a write took. Work that begins is kept for a worker.
    ///
    /// `IoError` has the core's fault. `OutOfMemory` changes nothing, or there was no memory for a message.
    pub fn poll(&mut self, alloc: Global, poll: Request<'_>) -> Result<Option<usize>>
        ensures polled { IsPolled self.old self.new (ask_of poll.entry) result }
        ensures algorithm { algorithm_of self.new.core.hasher ≡ algorithm_of self.old.core.hasher }
    {
        match self.core.poll(alloc, poll) {
            Ok(Polled::Wrote(count)) => Ok(Some(count)),
            Ok(Polled::Done) => Ok(Some(0)),
            Ok(Polled::Failed(fault)) => Err(polling(alloc, fault)),
            Ok(Polled::Pending) => Ok(None),
            Ok(Polled::Start(work)) => {
                self.work = Some(work);
                Ok(None)
            }
            Err(error) => Err(error),
        }
    }

    /// One poll by a task, which waits if the core waits.
    pub(crate) fn answer(
        &mut self,
        alloc: Global,
        poll: Request<'_>,
        cx: &mut Context<'_>,
        source: &Source,
    ) -> Poll<Result<usize>>
        ensures armed { OnPending result (IsArmed cx.new) }
        ensures kept { Keeps cx.old cx.new }
    {
        match self.poll(alloc, poll) {
            Ok(Some(count)) => Poll::Ready(Ok(count)),
            Ok(None) => self.wait(cx, source),
            Err(error) => Poll::Ready(Err(error)),
        }
    }

    /// Takes the work, and the file with it.
    pub fn take(&mut self) -> (Option<Work>, Option<T>)
        ensures work { result.0 ≡ self.old.work }
        ensures temp { result.1 ≡ taken_out self.old.work self.old.temp }
        ensures left { self.new ≡ record self.old
            { work = None; temp = left_after self.old.work self.old.temp } }
    {
        match self.work.take() {
            Some(work) => (Some(work), self.temp.take()),
            None => (None, None),
        }
    }

    /// Ends the work: gives the file back, and wakes the task that waits.
    pub fn end(&mut self, temp: Option<T>, completion: Completion) -> Told<T>
        ensures ended { IsEnded self.old self.new completion }
        ensures temp { self.new.temp ≡ temp }
        ensures told { (result.ending ≡ completion) × (result.temp.value ≡ temp) }
        ensures gone { self.new.is_gone ≡ self.old.is_gone }
        ensures algorithm { algorithm_of self.new.core.hasher ≡ algorithm_of self.old.core.hasher }
    {
        let seen = Snapshot::of(&temp);
        self.temp = temp;
        self.work = None;
        let _ = self.core.complete(completion);
        self.waker = None;
        Told {
            ending: completion,
            temp: seen,
        }
    }

    /// Ends the work that no worker has taken as `Gone`.
    pub(crate) fn give_up(&mut self) -> Option<Told<T>>
        ensures ends { GivesUp self.old self.new self.old.work }
        ensures told { IfSome result (λ told. told.ending ≡ Gone) }
    {
        if self.work.is_none() {
            return None;
        }
        let temp = self.temp.take();
        Some(self.end(temp, Completion::Gone))
    }

    /// No worker comes any more: ends the work that none has taken, and from then on all that begins.
    pub(crate) fn quit(&mut self)
        ensures ends { GivesUp (record self.old { is_gone = true }) self.new self.old.work }
    {
        self.is_gone = true;
        let _told = self.give_up();
    }

    /// Waits for the end of the work. If no worker comes for it, it ends here, and the task is woken.
    pub(crate) fn wait<A>(&mut self, cx: &mut Context<'_>, source: &Source) -> Poll<A>
        ensures gone { IsTrue self.old.is_gone
            → IfSome self.old.work (λ _. IsEnded self.old self.new Gone) }
        ensures armed { OnPending result (IsArmed cx.new) }
        ensures kept { Keeps cx.old cx.new }
    {
        let polled = cx.register(source, &mut self.waker);
        if self.is_gone {
            let _told = self.give_up();
        }
        polled
    }
}
