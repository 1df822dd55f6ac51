//! Two polled writers whose workers run in threads of their own: a worker does the work, and no poll does.
ghost use Rattle.std.specs.Prelude.{[], None};

use cacache::Result;
use cacache::errors::Fault;
use cacache::integrity::Algorithm;
use cacache::jobs::{Gate, Open, Pass};
use cacache::polled::{PolledFile, RemovableTemp, Worker};
use cacache::store::{TempFile, TempHandle};
use cacache_core::keeping::{beside, let_go};
use futures::Future;
use futures::executor::block_on;
use futures::task::{Context, Poll};
use std::alloc::AllocGlobal;
use std::io::Write;
use std::random::RandomSource;
use std::sync::Wait;
use std::sync::atomic::{AtomicU64, Ordering};
use std::test::Fail;
use std::thread::Threads;
use std::time::Clock;
use std::{io, thread};

/// Counts the bytes that it takes.
#[derive(Drop)]
struct Counted<'a>(&'a AtomicU64);

impl TempHandle for Counted<'_> {
    ghost seen = { λ _. record { path = []; bytes = None } };
}

impl Write for Counted<'_> {
    fn write(&mut self, buf: &[u8]) -> io::Result<usize> {
        self.write_some(buf)
    }

    fn flush(&mut self) -> io::Result<()> {
        Ok(())
    }
}

impl TempFile for Counted<'_> {
    fn write_some(&mut self, buf: &[u8]) -> io::Result<usize> {
        self.0.fetch_add(buf.len() as u64, Ordering::SeqCst);
        Ok(buf.len())
    }
}

impl RemovableTemp for Counted<'_> {
    fn remove(self) -> std::result::Result<(), Fault> {
        Ok(())
    }
}

/// Is shut until the other writer was answered, for at most 5,000 turns.
#[derive(Drop)]
struct Shut<'a>(&'a AtomicU64);

impl Gate for Shut<'_> {
    fn pass(&self, turn: u64) -> Pass {
        if self.0.load(Ordering::SeqCst) != 0 {
            Pass::Go
        } else if turn < 5000 {
            Pass::NotYet
        } else {
            Pass::Quit
        }
    }
}

/// Polls a write, until it is answered or once alone.
#[derive(Drop)]
struct Writing<'a, R: Wait, T> {
    rt: &'a R,
    file: &'a mut PolledFile<T>,
    data: &'a [u8],
    is_once: bool,
}

impl<'a, R: Wait, T: Drop> Future for Writing<'a, R, T> {
    type Output = Option<Result<usize>>;

    fn poll(&mut self, cx: &mut Context<'_>) -> Poll<Option<Result<usize>>> {
        match self.file.poll_write(self.rt, cx, self.data) {
            Poll::Ready(answer) => Poll::Ready(Some(answer)),
            Poll::Pending if self.is_once => Poll::Ready(None),
            Poll::Pending => Poll::Pending,
        }
    }
}

/// The count that was answered; 1000 if it was pending and 2000 if it failed.
fn wrote<R: Wait + RandomSource + AllocGlobal, T: Drop>(
    rt: &R,
    file: &mut PolledFile<T>,
    data: &[u8],
    is_once: bool,
) -> io::Result<usize> {
    let writing = Writing {
        rt,
        file,
        data,
        is_once,
    };
    Ok(match block_on(rt, writing)? {
        Some(Ok(count)) => count,
        Some(Err(error)) => {
            let_go(error);
            2000
        }
        None => 1000,
    })
}

/// What the polls answered.
#[derive(Clone, Copy)]
struct Seen {
    begun: usize,
    other: usize,
    early: u64,
    late: usize,
}

/// Polls the first writer once, then the second until it is answered, and then the first again.
fn polls<R: Wait + RandomSource + AllocGlobal, T: Drop>(
    rt: &R,
    first: &mut PolledFile<T>,
    second: &mut PolledFile<T>,
    taken: &AtomicU64,
    answered: &AtomicU64,
) -> io::Result<Seen> {
    let begun = wrote(rt, first, b"abc", true)?;
    let other = wrote(rt, second, b"xyzw", false)?;
    let early = taken.load(Ordering::SeqCst);
    answered.store(1, Ordering::SeqCst);
    let late = wrote(rt, first, b"abc", false)?;
    Ok(Seen {
        begun,
        other,
        early,
        late,
    })
}

/// A file that counts its bytes.
fn counting<'a, R: AllocGlobal>(
    rt: &R,
    taken: &'a AtomicU64,
) -> io::Result<PolledFile<Counted<'a>>> {
    match PolledFile::new(rt.alloc(), Algorithm::Sha256, Counted(taken)) {
        Ok(file) => Ok(file),
        Err(refused) => {
            let_go(refused);
            Err(io::ErrorKind::OutOfMemory.into())
        }
    }
}

/// A worker of the file.
fn worker_of<T: Drop>(file: &PolledFile<T>) -> io::Result<Worker<T>> {
    match file.worker() {
        Ok(worker) => Ok(worker),
        Err(_) => Err(io::ErrorKind::OutOfMemory.into()),
    }
}

/// A file that counts its bytes, and its worker.
fn file_with_worker<'a, R: AllocGlobal>(
    rt: &R,
    taken: &'a AtomicU64,
) -> io::Result<(PolledFile<Counted<'a>>, Worker<Counted<'a>>)> {
    let file = counting(rt, taken)?;
    let (worker, file) = beside(worker_of(&file), file)?;
    Ok((file, worker))
}

/// Two workers in threads of their own, and the polls in a third.
fn all_seen<R: Threads + Wait + Clock + RandomSource + AllocGlobal + Sync>(
    rt: &R,
    taken: &AtomicU64,
    others: &AtomicU64,
    answered: &AtomicU64,
) -> io::Result<Seen> {
    let first = file_with_worker(rt, taken)?;
    let (second, first) = beside(file_with_worker(rt, others), first)?;
    let (mut first, one) = first;
    let (mut second, two) = second;
    let workers = move || {
        thread::join(
            rt,
            move || one.run(rt, &Shut(answered)),
            move || two.run(rt, &Open),
        );
    };
    let polling = move || {
        let seen = polls(rt, &mut first, &mut second, taken, answered);
        let_go(closed(rt, &mut first));
        let_go(closed(rt, &mut second));
        seen
    };
    thread::join(rt, workers, polling).1
}

/// Polls a close until it is answered.
#[derive(Drop)]
struct Closing<'a, R: Wait, T> {
    rt: &'a R,
    file: &'a mut PolledFile<T>,
}

impl<'a, R: Wait, T: Drop> Future for Closing<'a, R, T> {
    type Output = Result<()>;

    fn poll(&mut self, cx: &mut Context<'_>) -> Poll<Result<()>> {
        self.file.poll_close(self.rt, cx)
    }
}

/// Whether the file was closed.
fn closed<R: Wait + RandomSource + AllocGlobal, T: Drop>(
    rt: &R,
    file: &mut PolledFile<T>,
) -> io::Result<bool> {
    let closed = block_on(rt, Closing { rt, file })?;
    let is_closed = closed.is_ok();
    let_go(closed);
    Ok(is_closed)
}

#[test]
fn a_worker_does_the_work(rt: HostRuntime) -> std::result::Result<(), Fail> {
    let taken = AtomicU64::new(0);
    let others = AtomicU64::new(0);
    let answered = AtomicU64::new(0);
    let seen = all_seen(&rt, &taken, &others, &answered)?;
    assert_eq!(rt; seen.begun, 1000);
    assert_eq!(rt; seen.other, 4);
    assert_eq!(rt; seen.early, 0);
    assert_eq!(rt; seen.late, 3);
    assert_eq!(rt; taken.load(Ordering::SeqCst), 3);
    Ok(())
}
