//! The end of a writer: a commit, which may be pending at first, or a drop. What comes after it.
use crate::acts::asked;
use crate::answers::{add, with};
use crate::gates::{turned, worked};
use crate::steps::{Stepped, is_act, with_steps};
use crate::writers::Desk;
use cacache_core::errors::Result as Answered;
use cacache_core::integrity::Integrity;
use cacache_core::keeping::{beside, let_go};
use cacache_store::store::Store;
use cacache_writers::{RemovableTemp, Worker, WriterCommitFuture};
use futures::task::Poll;
use futures::test::MockTask;
use row_places::{Numbers, On, Still};
use rows::Flaw;
use rows::answers::stored;
use std::alloc::{AllocError, AllocGlobal, Global};
use std::random::RandomSource;
use std::sync::Wait;

/// The answer to a poll of a commit.
fn ended(alloc: Global, polled: Poll<Answered<Integrity>>) -> Result<String, AllocError> {
    match polled {
        Poll::Ready(answer) => stored(alloc, answer),
        Poll::Pending => String::from_str(alloc, "Pending"),
    }
}

/// What a step gives after the first poll of a commit: a further poll, or a turn of the worker.
fn stepped<R, S, T>(
    rt: &R,
    task: &MockTask,
    commit: &mut WriterCommitFuture<'_, R, S, Still, Numbers, T>,
    worker: &mut Worker<T>,
    step: &str,
) -> Result<String, Flaw>
where
    R: Wait + AllocGlobal,
    S: Store<Temp = T>,
    T: RemovableTemp,
{
    let alloc = rt.alloc();
    match step {
        "commit" => Ok(ended(alloc, task.poll(commit))?),
        _ => worked(rt, task, worker, step),
    }
}

/// Adds what the steps after the first poll of a commit give.
fn add_behind<R, S, T>(
    rt: &R,
    task: &MockTask,
    commit: &mut WriterCommitFuture<'_, R, S, Still, Numbers, T>,
    worker: &mut Worker<T>,
    after: &str,
    line: &mut String,
) -> Result<(), Flaw>
where
    R: Wait + AllocGlobal,
    S: Store<Temp = T>,
    T: RemovableTemp,
{
    for step in after.split("; ").skip(1) {
        let answer = stepped(rt, task, commit, worker, step)?;
        add(line, answer.as_str())?;
    }
    Ok(())
}

/// What the commit gives, or a close, and the steps after it.
pub(crate) fn committed<R, S, T>(
    rt: &R,
    env: &mut On<S>,
    desk: Desk<T>,
    closes: bool,
    after: &str,
    line: String,
) -> Result<String, Flaw>
where
    R: Wait + AllocGlobal,
    S: Store<Temp = T>,
    T: RemovableTemp,
{
    let Desk {
        task,
        writer,
        mut worker,
    } = desk;
    let mut commit = if closes {
        writer.close(rt, env)
    } else {
        writer.commit(rt, env)
    };
    let mut line = with(line, ended(rt.alloc(), task.poll(&mut commit)))?;
    let behind = add_behind(rt, &task, &mut commit, &mut worker, after, &mut line);
    let (_, line) = beside(behind, line)?;
    Ok(line)
}

/// A commit that is dropped before its first poll, which gives nothing.
pub(crate) fn unpolled<R, S, T>(
    rt: &R,
    env: &mut On<S>,
    desk: Desk<T>,
    line: String,
) -> Result<String, Flaw>
where
    R: Wait + AllocGlobal,
    S: Store<Temp = T>,
    T: RemovableTemp,
{
    let Desk {
        task: _task,
        writer,
        worker: _worker,
    } = desk;
    let_go(writer.commit(rt, env));
    Ok(with(line, String::from_str(rt.alloc(), "-"))?)
}

/// A worker whose writer was dropped, and the environment.
#[derive(Drop)]
struct Alone<'a, 'b, 'c, R, S, T> {
    rt: &'a R,
    env: &'b mut On<S>,
    worker: &'c mut Worker<T>,
}

impl<'a, 'b, 'c, R, S, T> Stepped for Alone<'a, 'b, 'c, R, S, T>
where
    R: Wait + RandomSource + AllocGlobal,
    S: Store<Temp = T>,
    T: RemovableTemp,
{
    fn step(&mut self, step: &str) -> Result<String, Flaw> {
        if is_act(step) {
            asked(self.rt, self.env, step)
        } else {
            let word = turned(self.rt, self.worker, step)?;
            Ok(String::from_str(self.rt.alloc(), word)?)
        }
    }
}

/// A line with what the turns of such a worker give, and the acts between them.
fn with_turns<R, S, T>(
    rt: &R,
    env: &mut On<S>,
    worker: &mut Worker<T>,
    after: &str,
    line: String,
) -> Result<String, Flaw>
where
    R: Wait + RandomSource + AllocGlobal,
    S: Store<Temp = T>,
    T: RemovableTemp,
{
    let mut alone = Alone { rt, env, worker };
    with_steps(line, &mut alone, after)
}

/// What the worker's turns give once the writer is dropped.
pub(crate) fn left<R, S, T>(
    rt: &R,
    env: &mut On<S>,
    desk: Desk<T>,
    after: &str,
    line: String,
) -> Result<String, Flaw>
where
    R: Wait + RandomSource + AllocGlobal,
    S: Store<Temp = T>,
    T: RemovableTemp,
{
    let Desk {
        task,
        writer,
        worker,
    } = desk;
    let_go(writer);
    let_go(task);
    let line = with(line, String::from_str(rt.alloc(), "-"));
    let (line, mut worker) = beside(line, worker)?;
    with_turns(rt, env, &mut worker, after, line)
}
