//! Writers and their workers: what polls and turns give, one after another.
use crate::acts::asked;
use crate::answers::bytes_of;
use crate::ending::{committed, left, unpolled};
use crate::gates::{turned, worked};
use crate::opening::opened;
use crate::polls::{close, flush, write};
use crate::steps::{Stepped, in_turn, is_act};
use crate::wholes::{copied, written_whole};
use cacache_core::keeping::{beside, let_go};
use cacache_store::store::Store;
use cacache_writers::{RemovableTemp, Worker, Writer};
use futures::test::MockTask;
use row_places::On;
use rows::Flaw;
use rows::answers::{given, refused};
use rows::words::cut;
use std::alloc::AllocGlobal;
use std::random::RandomSource;
use std::sync::Wait;

/// A writer, a worker of it, and the task that polls it.
#[derive(Drop)]
pub(crate) struct Desk<T> {
    pub(crate) task: MockTask,
    pub(crate) writer: Writer<T>,
    pub(crate) worker: Worker<T>,
}

/// What a whole piece gives: a poll hands it out, the worker takes a turn, and a second poll is answered.
fn piece<R: Wait + AllocGlobal, T: RemovableTemp>(
    rt: &R,
    desk: &mut Desk<T>,
    data: &str,
) -> Result<String, Flaw> {
    let alloc = rt.alloc();
    let data = bytes_of(data);
    let_go(write(rt, alloc, &desk.task, &mut desk.writer, data)?);
    turned(rt, &mut desk.worker, "turn")?;
    Ok(write(rt, alloc, &desk.task, &mut desk.writer, data)?)
}

/// What a step gives.
fn stepped<R: Wait + AllocGlobal, T: RemovableTemp>(
    rt: &R,
    desk: &mut Desk<T>,
    step: &str,
) -> Result<String, Flaw> {
    let alloc = rt.alloc();
    let (name, data) = cut(step);
    match name {
        "write" => Ok(write(rt, alloc, &desk.task, &mut desk.writer, bytes_of(data))?),
        "flush" => Ok(flush(rt, alloc, &desk.task, &mut desk.writer)?),
        "close" => Ok(close(rt, alloc, &desk.task, &mut desk.writer)?),
        "piece" => piece(rt, desk, data),
        "all" => written_whole(rt, desk, data),
        "copy" => copied(rt, desk, data),
        _ => worked(rt, &desk.task, &mut desk.worker, step),
    }
}

/// A desk at which steps are made, and the environment of the writer.
#[derive(Drop)]
struct Shift<'a, 'b, 'c, R, S, T> {
    rt: &'a R,
    env: &'b mut On<S>,
    desk: &'c mut Desk<T>,
}

impl<'a, 'b, 'c, R, S, T> Stepped for Shift<'a, 'b, 'c, R, S, T>
where
    R: Wait + RandomSource + AllocGlobal,
    S: Store<Temp = T>,
    T: RemovableTemp,
{
    fn step(&mut self, step: &str) -> Result<String, Flaw> {
        if is_act(step) {
            asked(self.rt, self.env, step)
        } else {
            stepped(self.rt, self.desk, step)
        }
    }
}

/// What steps give, one after another.
fn stepped_in_turn<R, S, T>(
    rt: &R,
    env: &mut On<S>,
    desk: &mut Desk<T>,
    steps: &str,
) -> Result<String, Flaw>
where
    R: Wait + RandomSource + AllocGlobal,
    S: Store<Temp = T>,
    T: RemovableTemp,
{
    let alloc = rt.alloc();
    let mut shift = Shift { rt, env, desk };
    in_turn(alloc, &mut shift, steps)
}

/// What ends a writer: a commit, a close, a commit that is never polled, or a drop.
const ENDS: [&str; 4] = ["; commit", "; shut", "; leave", "; drop"];

/// The steps up to the end of a writer, its end, and those after it. Both are empty if it isn't ended.
fn cut_at_end(steps: &str) -> (&str, &'static str, &str) {
    for end in ENDS {
        if let Some((before, after)) = steps.split_once(end) {
            return (before, end, after);
        }
    }
    (steps, "", "")
}

/// What the steps give up to the end of the writer, its end, and the steps after it.
fn made_with<R, S, T>(
    rt: &R,
    env: &mut On<S>,
    mut desk: Desk<T>,
    steps: &str,
) -> Result<String, Flaw>
where
    R: Wait + RandomSource + AllocGlobal,
    S: Store<Temp = T>,
    T: RemovableTemp,
{
    let (before, end, after) = cut_at_end(steps);
    let line = stepped_in_turn(rt, env, &mut desk, before);
    let (line, desk) = beside(line, desk)?;
    match end {
        "; commit" => committed(rt, env, desk, false, after, line),
        "; shut" => committed(rt, env, desk, true, after, line),
        "; leave" => unpolled(rt, env, desk, line),
        "; drop" => left(rt, env, desk, after, line),
        _ => {
            let_go(desk);
            Ok(line)
        }
    }
}

/// The writer with a worker and a task.
fn desk_of<R: RandomSource + AllocGlobal, T: Drop>(
    rt: &R,
    writer: Writer<T>,
) -> Result<Desk<T>, Flaw> {
    let (task, writer) = beside(given(MockTask::new(rt)), writer)?;
    let (worker, task) = beside(given(writer.worker()), task)?;
    Ok(Desk {
        task,
        writer,
        worker,
    })
}

/// What the steps of a writer that is opened so give.
pub(crate) fn written<R, S, T>(
    rt: &R,
    env: &mut On<S>,
    words: &str,
    steps: &str,
) -> Result<String, Flaw>
where
    R: Wait + RandomSource + AllocGlobal,
    S: Store<Temp = T>,
    T: RemovableTemp,
{
    match opened(rt, env, words)? {
        Ok(writer) => {
            let desk = desk_of(rt, writer)?;
            made_with(rt, env, desk, steps)
        }
        Err(error) => Ok(refused(rt.alloc(), error)?),
    }
}
