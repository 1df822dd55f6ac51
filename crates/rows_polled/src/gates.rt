//! Gates, and the turns of workers that ask them.
use cacache_jobs::{Gate, Pass};
use cacache_writers::{RemovableTemp, Turned, Worker};
use futures::test::MockTask;
use rows::Flaw;
use rows::words::{cut, number_of};
use std::alloc::AllocGlobal;
use std::sync::Wait;

/// A gate that lets turns through from this one on, and gives this answer to those before.
#[derive(Clone, Copy)]
struct OpensAt {
    first: u64,
    before: Pass,
}

impl Gate for OpensAt {
    fn pass(&self, turn: u64) -> Pass {
        if turn < self.first {
            self.before
        } else {
            Pass::Go
        }
    }
}

/// The gate that a turn of this name asks: `turn` goes, `wait` and `quit` don't, and `from N` goes from the turn of this
/// number on.
fn gate_of(step: &str) -> Result<OpensAt, Flaw> {
    let (first, before) = match cut(step) {
        ("turn", _) => (0, Pass::Go),
        ("wait", _) => (u64::MAX, Pass::NotYet),
        ("quit", _) => (u64::MAX, Pass::Quit),
        ("from", turn) => (number_of(turn)? as u64, Pass::NotYet),
        _ => return Err(Flaw::NotRead),
    };
    Ok(OpensAt { first, before })
}

/// What came of a turn, as rows say it.
fn name_of(turned: Turned) -> &'static str {
    match turned {
        Turned::Did => "Did",
        Turned::NoWork => "NoWork",
        Turned::NotYet => "NotYet",
        Turned::Over => "Over",
    }
}

/// What a turn gives.
pub(crate) fn turned<R: Wait, T: RemovableTemp>(
    rt: &R,
    worker: &mut Worker<T>,
    step: &str,
) -> Result<&'static str, Flaw> {
    let gate = gate_of(step)?;
    Ok(name_of(worker.turn(rt, &gate)))
}

/// What a turn gives, or whether the task was woken since its last poll.
pub(crate) fn worked<R: Wait + AllocGlobal, T: RemovableTemp>(
    rt: &R,
    task: &MockTask,
    worker: &mut Worker<T>,
    step: &str,
) -> Result<String, Flaw> {
    let word = match step {
        "woken" => if task.is_woken() { "yes" } else { "no" },
        _ => turned(rt, worker, step)?,
    };
    Ok(String::from_str(rt.alloc(), word)?)
}
