//! Whole writes and copies of a writer, polled to their end while its worker takes turns.
use crate::answers::bytes_of;
use crate::places::mishaps_of;
use crate::polls::{over, wrote};
use crate::writers::Desk;
use cacache_jobs::Open;
use cacache_writers::{RemovableTemp, Worker};
use futures::Future;
use futures::task::Poll;
use futures::test::MockTask;
use row_places::{Failing, Mishaps};
use rows::Flaw;
use std::alloc::AllocGlobal;
use std::sync::Wait;

/// How often a future is polled at most.
const POLLS: u32 = 1000;

/// The answer of a future for which the worker works: it takes a turn after each poll that is pending. Pending after so
/// many polls.
fn driven<R: Wait, T: RemovableTemp, F: Future>(
    rt: &R,
    task: &MockTask,
    worker: &mut Worker<T>,
    mut future: F,
) -> Poll<F::Output>
    requires { F.can_poll future }
{
    for _ in 0..POLLS {
        if let Poll::Ready(answer) = task.poll(&mut future) {
            return Poll::Ready(answer);
        }
        worker.turn(rt, &Open);
    }
    Poll::Pending
}

/// What a whole write gives.
pub(crate) fn written_whole<R: Wait + AllocGlobal, T: RemovableTemp>(
    rt: &R,
    desk: &mut Desk<T>,
    data: &str,
) -> Result<String, Flaw> {
    let future = desk.writer.write_all(rt, bytes_of(data));
    let answer = driven(rt, &desk.task, &mut desk.worker, future);
    Ok(over(rt.alloc(), answer)?)
}

/// What a copy of a reader that holds the data gives. In front of a comma may stand what goes wrong with its reads.
pub(crate) fn copied<R: Wait + AllocGlobal, T: RemovableTemp>(
    rt: &R,
    desk: &mut Desk<T>,
    words: &str,
) -> Result<String, Flaw> {
    let (mishaps, data) = match words.split_once(", ") {
        Some((luck, data)) => (mishaps_of(luck)?, data),
        None => (Mishaps::NONE, words),
    };
    let reader = Failing::new(rt.alloc(), bytes_of(data), mishaps)?;
    let future = desk.writer.copy_from(rt, reader);
    let answer = driven(rt, &desk.task, &mut desk.worker, future);
    Ok(wrote(rt.alloc(), answer)?)
}
