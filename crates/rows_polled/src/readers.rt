//! Contents that are read by polls. A poll of a read is always ready.
use crate::answers::{counted, with};
use crate::steps::{Stepped, in_turn};
use cacache_async::reader::{OpenAsyncFuture, Reader, open_async};
use cacache_core::errors::Result as Answered;
use cacache_core::keeping::{beside, let_go};
use cacache_store::store::{OpenedFile, Store};
use futures::executor::block_on;
use futures::task::{Context, Poll};
use futures::test::MockTask;
use row_places::{Numbers, On, Still};
use rows::Flaw;
use rows::answers::{checked, given, refused};
use rows::parts::integrity_of;
use rows::words::{cut, number_of, word_of, written_out};
use std::alloc::{AllocError, AllocGlobal, Global};
use std::random::RandomSource;
use std::sync::Wait;

/// The future that opens a reader of a content: `open_hash CACHE INTEGRITY` or `open_async CACHE INTEGRITY`.
fn opening<'a, S: Store>(
    env: &'a mut On<S>,
    way: &str,
    cache: &'a str,
    integrity: &str,
) -> Result<OpenAsyncFuture<'a, S, Still, Numbers>, Flaw> {
    let sri = integrity_of(env.alloc, integrity)?;
    match way {
        "open_hash" => Ok(Reader::open_hash(env, cache, sri)),
        "open_async" => Ok(open_async(env, cache, sri)),
        _ => {
            let_go(sri);
            Err(Flaw::NotRead)
        }
    }
}

/// A reader that is opened in one of the ways: `open CACHE KEY`, or that of a content.
fn opened<R: Wait + RandomSource + AllocGlobal, S: Store>(
    rt: &R,
    env: &mut On<S>,
    words: &str,
) -> Result<Answered<Reader<S::File>>, Flaw> {
    let (way, words) = cut(words);
    let (cache, what) = cut(words);
    match way {
        "open" => given(block_on(rt, Reader::open(env, cache, what))),
        _ => given(block_on(rt, opening(env, way, cache, what)?)),
    }
}

/// The answer to a poll of a read: the bytes that it put into the front of these.
fn came(alloc: Global, bytes: &[u8], polled: Poll<Answered<usize>>) -> Result<String, AllocError> {
    match polled {
        Poll::Ready(Ok(count)) => written_out(alloc, word_of(bytes.get(..count).unwrap_or(bytes))),
        Poll::Ready(answer) => counted(alloc, answer),
        Poll::Pending => String::from_str(alloc, "Pending"),
    }
}

/// What is read by polls.
pub(crate) trait Readable {
    /// One poll of a read.
    fn poll_bytes(&mut self, cx: &mut Context<'_>, bytes: &mut [u8]) -> Poll<Answered<usize>>;
}

impl<F: OpenedFile> Readable for Reader<F> {
    fn poll_bytes(&mut self, cx: &mut Context<'_>, bytes: &mut [u8]) -> Poll<Answered<usize>> {
        self.poll_read(cx, bytes)
    }
}

/// What is read by polls, and the task that polls it.
#[derive(Drop)]
struct Reads<'a, P> {
    alloc: Global,
    task: &'a MockTask,
    readable: &'a mut P,
}

impl<'a, P: Readable> Stepped for Reads<'a, P> {
    fn step(&mut self, step: &str) -> Result<String, Flaw> {
        let ("read", count) = cut(step) else {
            return Err(Flaw::NotRead);
        };
        let mut bytes = vec![in self.alloc; 0; number_of(count)?]?;
        let polled = self
            .task
            .enter(|cx| self.readable.poll_bytes(cx, &mut bytes));
        let line = came(self.alloc, &bytes, polled);
        let_go(bytes);
        Ok(line?)
    }
}

/// What reads give, one after another.
pub(crate) fn read_in_turn<P: Readable>(
    alloc: Global,
    task: &MockTask,
    readable: &mut P,
    steps: &str,
) -> Result<String, Flaw> {
    let mut reads = Reads {
        alloc,
        task,
        readable,
    };
    in_turn(alloc, &mut reads, steps)
}

/// What the reads give, and the check after them, if there is one.
fn read_and_checked<F: OpenedFile>(
    alloc: Global,
    task: &MockTask,
    mut reader: Reader<F>,
    steps: &str,
) -> Result<String, Flaw> {
    let Some(reads) = steps.strip_suffix("; check") else {
        return read_in_turn(alloc, task, &mut reader, steps);
    };
    let line = read_in_turn(alloc, task, &mut reader, reads);
    let (line, reader) = beside(line, reader)?;
    Ok(with(line, checked(alloc, reader.check()))?)
}

/// What the steps of a reader that is opened so give.
pub(crate) fn read_by_polls<R: Wait + RandomSource + AllocGlobal, S: Store>(
    rt: &R,
    env: &mut On<S>,
    words: &str,
    steps: &str,
) -> Result<String, Flaw> {
    let alloc = rt.alloc();
    match opened(rt, env, words)? {
        Ok(reader) => {
            let (task, reader) = beside(given(MockTask::new(rt)), reader)?;
            read_and_checked(alloc, &task, reader, steps)
        }
        Err(error) => Ok(refused(alloc, error)?),
    }
}
