//! Acts with one step that fails, with each fault in turn, on a disk in memory of their own.
use crate::acts::made;
use crate::failing::Failing;
use crate::row::Row;
use cacache::errors::Fault;
use cacache::store::MemStore;
use cacache_core::keeping::let_go;
use row_places::{On, Walks, in_memory, on};
use rows::Flaw;
use std::alloc::{AllocError, Global};

/// More steps than any act makes.
const MOST: usize = 400;

/// Why steps fail, besides `Device`; None if memory is refused.
const FAULTS: [Option<Fault>; 14] = [
    None,
    Some(Fault::NotFound),
    Some(Fault::AlreadyExists),
    Some(Fault::NotADirectory),
    Some(Fault::IsADirectory),
    Some(Fault::NotEmpty),
    Some(Fault::Unsupported),
    Some(Fault::InvalidInput),
    Some(Fault::WriteZero),
    Some(Fault::ShortAppend),
    Some(Fault::Closed),
    Some(Fault::OtherBytes),
    Some(Fault::Cancelled),
    Some(Fault::TooDeep),
];

/// A look at the cache, the acts before, and the act with steps that fail.
#[derive(Clone, Copy)]
struct Scene<'a> {
    alloc: Global,
    look: Row<'a>,
    before: &'a str,
    act: Row<'a>,
}

/// What the act gives if no step fails, and what the look gives before and after it.
#[derive(Drop)]
struct Plain {
    line: String,
    before: String,
    after: String,
}

/// What an answer has that says why a step failed.
fn told(alloc: Global, fault: Option<Fault>) -> Result<String, AllocError> {
    match fault {
        Some(fault) => format!(in alloc; "Refused {fault:?}: "),
        None => String::from_str(alloc, "Refused: out of memory"),
    }
}

impl Plain {
    /// The mark of what the look gives: `=` if it is that of before, `+` if it is that of after, otherwise `?`.
    fn state(&self, seen: &str) -> char {
        if seen == self.before.as_str() {
            '='
        } else if seen == self.after.as_str() {
            '+'
        } else {
            '?'
        }
    }

    /// The mark of an act with a step that failed: what the look gives, after the answer in brackets if that doesn't
    /// say why the step failed. `.` stands for the answer if no step fails, and what the look gives then.
    fn mark(
        &self,
        alloc: Global,
        fault: Option<Fault>,
        line: &str,
        seen: &str,
    ) -> Result<String, AllocError> {
        let state = self.state(seen);
        if line.contains(told(alloc, fault)?.as_str()) {
            return format!(in alloc; "{state}");
        }
        if line == self.line.as_str() && seen == self.after.as_str() {
            return String::from_str(alloc, ".");
        }
        format!(in alloc; "({line}){state}")
    }
}

/// Makes the acts before.
fn prepare(env: &mut On<MemStore>, scene: Scene<'_>) -> Result<(), Flaw> {
    for act in scene.before.split("; ") {
        if !act.is_empty() {
            let_go(made(env, Row { act, ..scene.act })?);
        }
    }
    Ok(())
}

/// What the act gives if this step fails; None if it makes fewer steps.
fn failed(
    env: &mut On<MemStore>,
    row: Row<'_>,
    fails: usize,
    fault: Option<Fault>,
) -> Result<Option<String>, Flaw> {
    let failing = Failing {
        store: &mut env.store,
        asked: 0,
        fails,
        fault,
        walks: Walks::new(),
    };
    let mut over = on(env.alloc, failing, env.base.as_str())?;
    let line = made(&mut over, row)?;
    Ok(if over.store.asked > fails {
        Some(line)
    } else {
        None
    })
}

/// The mark of the act if this step fails, on an empty disk; None if it makes fewer steps.
fn trial(
    env: &mut On<MemStore>,
    scene: Scene<'_>,
    plain: &Plain,
    fails: usize,
    fault: Option<Fault>,
) -> Result<Option<String>, Flaw> {
    prepare(env, scene)?;
    match failed(env, scene.act, fails, fault)? {
        Some(line) => {
            let seen = made(env, scene.look)?;
            Ok(Some(plain.mark(scene.alloc, fault, line.as_str(), seen.as_str())?))
        }
        None => Ok(None),
    }
}

/// The marks of the act, one for each of its steps, if this fails so.
fn marks(scene: Scene<'_>, plain: &Plain, fault: Option<Fault>) -> Result<String, Flaw> {
    let mut marks = String::new(scene.alloc);
    for fails in 0..MOST {
        let mut env = in_memory(scene.alloc)?;
        match trial(&mut env, scene, plain, fails, fault)? {
            Some(mark) => marks.push_str(mark.as_str())?,
            None => return Ok(marks),
        }
    }
    Err(Flaw::Unfit)
}

/// What the act gives on an empty disk if no step fails.
fn plain_of(env: &mut On<MemStore>, scene: Scene<'_>) -> Result<Plain, Flaw> {
    prepare(env, scene)?;
    let before = made(env, scene.look)?;
    let line = made(env, scene.act)?;
    let after = made(env, scene.look)?;
    Ok(Plain {
        line,
        before,
        after,
    })
}

/// The marks of the act with `Device`, and after them each other fault that gives others.
fn all_marks(scene: Scene<'_>, plain: &Plain) -> Result<String, Flaw> {
    let alloc = scene.alloc;
    let device = marks(scene, plain, Some(Fault::Device))?;
    let mut line = device.clone()?;
    for fault in FAULTS {
        let others = marks(scene, plain, fault)?;
        if others != device {
            let told = match fault {
                Some(fault) => format!(in alloc; "; {fault:?} {others}")?,
                None => format!(in alloc; "; memory {others}")?,
            };
            line.push_str(told.as_str())?;
        }
    }
    Ok(line)
}

/// What comes of a row: a look, the acts before and the act with steps that fail, with `; ` between them.
pub(crate) fn tried(alloc: Global, row: Row<'_>) -> Result<String, Flaw> {
    let Some((look, acts)) = row.act.split_once("; ") else {
        return Err(Flaw::NotRead);
    };
    let (before, act) = acts.rsplit_once("; ").unwrap_or(("", acts));
    let scene = Scene {
        alloc,
        look: Row { act: look, ..row },
        before,
        act: Row { act, ..row },
    };
    let mut env = in_memory(alloc)?;
    let plain = plain_of(&mut env, scene)?;
    all_marks(scene, &plain)
}
