//! Single polls of a writer.
use crate::answers::{counted, done};
use cacache_core::errors::Result as Answered;
use cacache_writers::Writer;
use futures::task::Poll;
use futures::test::MockTask;
use std::alloc::{AllocError, Global};
use std::fmt::Display;
use std::sync::Wait;

/// The answer to a poll of a write.
pub(crate) fn wrote<N: Display + Drop>(
    alloc: Global,
    polled: Poll<Answered<N>>,
) -> Result<String, AllocError> {
    match polled {
        Poll::Ready(answer) => counted(alloc, answer),
        Poll::Pending => String::from_str(alloc, "Pending"),
    }
}

/// The answer to a poll that says nothing.
pub(crate) fn over(alloc: Global, polled: Poll<Answered<()>>) -> Result<String, AllocError> {
    match polled {
        Poll::Ready(answer) => done(alloc, answer),
        Poll::Pending => String::from_str(alloc, "Pending"),
    }
}

/// What one poll of a write gives.
pub(crate) fn write<R: Wait, T: Drop>(
    rt: &R,
    alloc: Global,
    task: &MockTask,
    writer: &mut Writer<T>,
    data: &[u8],
) -> Result<String, AllocError> {
    wrote(alloc, task.enter(|cx| writer.poll_write(rt, cx, data)))
}

/// What one poll of a flush gives.
pub(crate) fn flush<R: Wait, T: Drop>(
    rt: &R,
    alloc: Global,
    task: &MockTask,
    writer: &mut Writer<T>,
) -> Result<String, AllocError> {
    over(alloc, task.enter(|cx| writer.poll_flush(rt, cx)))
}

/// What one poll of a close gives.
pub(crate) fn close<R: Wait, T: Drop>(
    rt: &R,
    alloc: Global,
    task: &MockTask,
    writer: &mut Writer<T>,
) -> Result<String, AllocError> {
    over(alloc, task.enter(|cx| writer.poll_close(rt, cx)))
}
