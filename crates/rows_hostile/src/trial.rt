//! What a row asks for, and what came.
use crate::changes::changes;
use crate::handles::handled;
use crate::meeting::all_met;
use crate::script::{Change, Run, played};
use crate::tally::Tally;
use cacache_core::keeping::beside;
use rows::words::{column, cut};
use rows::{Flaw, Outcome, Trial};
use std::alloc::{AllocError, Global};

/// The rows so far.
#[derive(Drop)]
pub(crate) struct Scripts {
    alloc: Global,
    /// Whether a row was tried to its end and differed from what it should be.
    pub(crate) differs: bool,
}

/// What came of runs with these changes: how many there were, or if some differ, how the first of them does.
fn all_played(alloc: Global, changes: &[Change]) -> Result<String, AllocError> {
    let mut tally = Tally::NONE;
    for change in changes {
        if let Some(text) = played(alloc, *change, &mut tally)? {
            return format!(in alloc; "{change:?}: {text}");
        }
    }
    let Tally {
        runs,
        moves,
        replies,
        failures,
    } = tally;
    format!(in alloc; "{runs} runs, {moves} moves, {replies} replies, {failures} failures")
}

/// What came of the run in which memory may be refused once.
fn spared(alloc: Global) -> Result<String, AllocError> {
    match played(alloc, Change::Memory, &mut Tally::NONE)? {
        Some(text) => Ok(text),
        None => String::from_str(alloc, "as the model says"),
    }
}

/// What came of all runs of a kind, which change at the moves of a plain run.
fn changed_at(alloc: Global, kind: &str, plain: &Run) -> Result<String, Flaw> {
    let changes = changes(alloc, kind, plain.sides.history())?;
    Ok(all_played(alloc, changes.as_slice())?)
}

/// What came of the plain run if its sides differ, and otherwise of all runs of a kind.
fn kind_played(alloc: Global, kind: &str) -> Result<String, Flaw> {
    let mut plain = Run::new(alloc, Change::Nothing)?;
    let (differing, plain) = beside(plain.calls(alloc, &mut Tally::NONE), plain)?;
    match differing {
        Some(text) => Ok(text),
        None => changed_at(alloc, kind, &plain),
    }
}

/// What came of a row.
fn tried(alloc: Global, act: &str) -> Result<String, Flaw> {
    let (kind, words) = cut(act);
    match kind {
        "memory" => Ok(spared(alloc)?),
        "puts" => Ok(all_met(alloc)?),
        "reader" | "finish" | "copy" | "writer" | "whole" | "abandons" | "linker" => {
            handled(alloc, kind, words)
        }
        _ => kind_played(alloc, kind),
    }
}

impl Scripts {
    /// Before any row.
    pub(crate) fn new(alloc: Global) -> Scripts {
        Scripts {
            alloc,
            differs: false,
        }
    }
}

impl Trial for Scripts {
    fn outcome(&mut self, row: &str) -> Result<Outcome, Flaw> {
        let (act, wanted) = column(row)?;
        let got = tried(self.alloc, act)?;
        let (wanted, got) = beside(String::from_str(self.alloc, wanted), got)?;
        self.differs = self.differs || wanted != got;
        Ok(Outcome { wanted, got })
    }
}
