//! Links to a target that is read by polls. A poll of a read is always ready.
use crate::answers::with;
use crate::readers::{Readable, read_in_turn};
use cacache_async::linker::ToLinker;
use cacache_async::linking::LinkAsync;
use cacache_core::errors::Result as Answered;
use cacache_core::keeping::beside;
use cacache_store::store::{OpenedFile, Store};
use cacache_sync::put::opts::WriteOpts;
use futures::executor::block_on;
use futures::task::{Context, Poll};
use futures::test::MockTask;
use row_places::On;
use rows::Flaw;
use rows::answers::{given, refused, stored};
use rows::parts::algorithm_of;
use rows::words::cut;
use std::alloc::AllocGlobal;
use std::random::RandomSource;
use std::sync::Wait;

/// A linker that is opened with options, though none are set: `options CACHE KEY TARGET` or `options_hash CACHE -
/// TARGET`.
fn opened_with<R: Wait + RandomSource + AllocGlobal, S: Store>(
    rt: &R,
    env: &mut On<S>,
    way: &str,
    cache: &str,
    what: &str,
) -> Result<Answered<ToLinker<S::File>>, Flaw> {
    let (key, target) = cut(what);
    match way {
        "options" => given(block_on(rt, WriteOpts::new().link_to(env, cache, key, target))),
        "options_hash" => given(block_on(rt, WriteOpts::new().link_to_hash(env, cache, target))),
        _ => Err(Flaw::NotRead),
    }
}

/// A linker that is opened in one of the ways: `open CACHE KEY TARGET`, `open_hash CACHE - TARGET`, `new CACHE ALGORITHM
/// TARGET`, or with options.
fn opened<R: Wait + RandomSource + AllocGlobal, S: Store>(
    rt: &R,
    env: &mut On<S>,
    words: &str,
) -> Result<Answered<ToLinker<S::File>>, Flaw> {
    let (way, words) = cut(words);
    let (cache, what) = cut(words);
    let (key, target) = cut(what);
    match way {
        "open" => given(block_on(rt, ToLinker::open(env, cache, key, target))),
        "open_hash" => given(block_on(rt, ToLinker::open_hash(env, cache, target))),
        "new" => given(block_on(rt, ToLinker::new(env, cache, algorithm_of(key)?, target))),
        _ => opened_with(rt, env, way, cache, what),
    }
}

impl<F: OpenedFile> Readable for ToLinker<F> {
    fn poll_bytes(&mut self, cx: &mut Context<'_>, bytes: &mut [u8]) -> Poll<Answered<usize>> {
        self.poll_read(cx, bytes)
    }
}

/// What the reads give, and the commit after them, if there is one.
fn read_and_committed<R: Wait + RandomSource + AllocGlobal, S: Store>(
    rt: &R,
    env: &mut On<S>,
    task: &MockTask,
    mut linker: ToLinker<S::File>,
    steps: &str,
) -> Result<String, Flaw> {
    let alloc = rt.alloc();
    let Some(reads) = steps.strip_suffix("; commit") else {
        return read_in_turn(alloc, task, &mut linker, steps);
    };
    let line = read_in_turn(alloc, task, &mut linker, reads);
    let (line, linker) = beside(line, linker)?;
    let (committed, line) = beside(given(block_on(rt, linker.commit(env))), line)?;
    Ok(with(line, stored(alloc, committed))?)
}

/// What the steps of a linker that is opened so give.
pub(crate) fn linked_by_polls<R: Wait + RandomSource + AllocGlobal, S: Store>(
    rt: &R,
    env: &mut On<S>,
    words: &str,
    steps: &str,
) -> Result<String, Flaw> {
    match opened(rt, env, words)? {
        Ok(linker) => {
            let (task, linker) = beside(given(MockTask::new(rt)), linker)?;
            read_and_committed(rt, env, &task, linker, steps)
        }
        Err(error) => Ok(refused(rt.alloc(), error)?),
    }
}
