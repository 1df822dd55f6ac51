//! Threads that do the work of many polled writers.
ghost use Rattle.std.specs.{Prelude.{◌≡◌, ◌+◌, IfOk, IfErr, length, vec_len}, Fn.{FnReturnsAt}};
ghost use Rattle.cacache_core.specs.declared.errors.Error.TheVariants.{OutOfMemory};
ghost use Rattle.cacache_writers.specs.Turning.{IsBoth, TurnEach, share_count, share_size as size_of_share};

use crate::removal::RemovableTemp;
use crate::worker::{Turned, Worker, run_by};
use crate::writer::Writer;
use cacache_core::errors::{Error, Result};
use std::alloc::{AllocGlobal, Global};
use std::sync::atomic::{AtomicBool, Ordering};
use std::sync::{Arc, Wait};
use std::thread;
use std::thread::{JoinHandle, Parker, Threads};
use std::time::Duration;

/// How many milliseconds a thread sleeps at most: it is woken once work is out.
const PAUSE: u64 = 100;

/// Threads that do the work of polled writers. Each ends once its writers were committed, closed or dropped. Dropping
/// this ends those that are left, and waits for them: their work that is out then ends undone, and so does later work.
pub struct Workers<R: Threads> {
    rt: R,
    is_ended: Arc<AtomicBool, Global>,
    /// Each with the bell that wakes it.
    threads: Vec<(Arc<Parker, Global>, JoinHandle<()>)>,
}

impl<R: Threads + Drop> Drop for Workers<R> {
    fn drop(self) {
        let Workers {
            rt,
            is_ended,
            threads,
        } = self;
        is_ended.store(true, Ordering::SeqCst);
        for (bell, thread) in threads {
            bell.unpark();
            thread.join(&rt);
        }
    }
}

/// A worker for each writer, which rings this bell from now on.
fn workers_of<R: Wait + AllocGlobal, T: Drop>(
    rt: &R,
    bell: &Arc<Parker, Global>,
    writers: &[Writer<T>],
) -> Result<Vec<Worker<T>>>
    ensures all { IfOk result (λ workers. vec_len workers ≡ length writers.now) }
    ensures err { IfErr result (λ e. e ≡ OutOfMemory) }
{
    let mut workers = Vec::new(rt.alloc());
    for writer in writers {
        let worker = writer.worker()?;
        worker.shared.hang(rt, Arc::try_clone(bell)?);
        workers.push(worker)?;
    }
    Ok(workers)
}

/// What came of two turns: work was done if one of them did it, and no more comes if both are over.
fn both(one: Turned, other: Turned) -> Turned
    ensures { IsBoth one other result }
{
    match (one, other) {
        (Turned::Did, _) | (_, Turned::Did) => Turned::Did,
        (Turned::Over, turned) => turned,
        (turned, _) => turned,
    }
}

/// Each of these takes a turn.
fn turn_each<W, Turn: Fn(&W) -> Turned>(workers: &[W], turn: Turn) -> Turned
    requires turn { Turn.IsAlwaysCallable turn }
    ensures turns { TurnEach (λ w t. FnReturnsAt Turn.Fn turn w t) workers.now result }
{
    let mut all = Turned::Over;
    let mut rest = workers;
    while let Some((worker, others)) = rest.split_first() {
        all = both(all, turn(worker));
        rest = others;
    }
    all
}

/// Each worker takes a turn.
fn turn_all<R: Wait, T: RemovableTemp>(rt: &R, workers: &[Worker<T>]) -> Turned {
    turn_each(workers, |worker| worker.free_turn(rt))
}

/// The workers take turns until the end, or until all are over, and sleep when none had work. No worker comes after that.
fn work_all<R: Wait + Drop, T: RemovableTemp>(
    rt: R,
    is_ended: Arc<AtomicBool, Global>,
    bell: Arc<Parker, Global>,
    workers: Vec<Worker<T>>,
) {
    let rest = || bell.park_timeout(&rt, Duration::from_millis(PAUSE));
    run_by(&rt, rest, || {
        if is_ended.load(Ordering::SeqCst) {
            Turned::Over
        } else {
            turn_all(&rt, &workers)
        }
    });
    for worker in workers.iter() {
        worker.shared.quit(&rt);
    }
}

/// How many writers each thread has, but the last one.
fn share_size(writers: usize, threads: usize) -> usize
    ensures { result ≡ size_of_share writers threads }
{
    writers.div_ceil(threads.max(1)).max(1)
}

impl<R: Threads + Wait + AllocGlobal + Copy + Send + Sync + Drop + 'static> Workers<R> {
    /// Starts threads that do the work of these writers: at most so many, and at least one if there is a writer. Each
    /// has some of the writers. Declare it after them, so that it is dropped before them.
    ///
    /// `OutOfMemory` if there is no memory or no thread; then those that were started have ended, as by a drop.
    pub fn start<T: RemovableTemp + Send + 'static>(
        rt: R,
        threads: usize,
        writers: &[Writer<T>],
    ) -> Result<Workers<R>>
        ensures threads { IfOk result (λ workers.
            vec_len workers.threads ≡ share_count (length writers.now) threads) }
        ensures err { IfErr result (λ e. e ≡ OutOfMemory) }
    {
        let alloc = rt.alloc();
        let is_ended = Arc::new(alloc, AtomicBool::new(false))?;
        let mut workers = Workers {
            rt,
            is_ended,
            threads: Vec::new(alloc),
        };
        for share in writers.chunks(share_size(writers.len(), threads)) {
            workers.start_one(alloc, share)?;
        }
        Ok(workers)
    }

    /// Starts a thread that does the work of these writers.
    fn start_one<T: RemovableTemp + Send + 'static>(
        &mut self,
        alloc: Global,
        writers: &[Writer<T>],
    ) -> Result<()>
        ensures one { IfOk result (λ _. vec_len self.new.threads ≡ vec_len self.old.threads + 1) }
        ensures err { IfErr result (λ e. e ≡ OutOfMemory) }
    {
        let rt = self.rt;
        let bell = Arc::new(alloc, Parker::new())?;
        let workers = workers_of(&rt, &bell, writers)?;
        let own = Arc::try_clone(&bell)?;
        let is_ended = Arc::try_clone(&self.is_ended)?;
        self.threads.reserve(1)?;
        match thread::spawn(&rt, move || work_all(rt, is_ended, own, workers)) {
            Ok(thread) => {
                self.threads.push((bell, thread))?;
                Ok(())
            }
            Err(_unstarted) => Err(Error::OutOfMemory),
        }
    }
}
