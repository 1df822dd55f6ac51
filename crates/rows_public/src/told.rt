//! What the log of a disk in memory gains by an act.
use crate::acts::made;
use crate::row::Row;
use cacache::store::{Answer, LogItem, MemStore, PlainAnswer, PlainStep, Step};
use row_places::On;
use rows::Flaw;
use std::alloc::{AllocError, Global};

/// A step: what it is, where, and how many bytes it is given.
fn asked(alloc: Global, step: &PlainStep) -> Result<String, AllocError> {
    let (what, path, count) = match step {
        Step::MakeDirs(path) => ("MakeDirs", path, None),
        Step::CreateTemp(path) => ("CreateTemp", path, None),
        Step::ReadDir(path) => ("ReadDir", path, None),
        Step::ReadAll(path) => ("ReadAll", path, None),
        Step::SyncTemp(file) => ("SyncTemp", &file.path, None),
        Step::SyncFile(path) => ("SyncFile", path, None),
        Step::SyncDir(path) => ("SyncDir", path, None),
        Step::Append(path, bytes) => ("Append", path, Some(bytes.len())),
        Step::Write(file, bytes) => ("Write", &file.path, Some(bytes.len())),
        Step::Size(path) => ("Size", path, None),
        Step::Open(path) => ("Open", path, None),
        Step::Persist(file, path) => return format!(in alloc; "Persist {} {path}", file.path),
        Step::Symlink(target, path) => return format!(in alloc; "Symlink {target} {path}"),
        _ => return String::from_str(alloc, "another step"),
    };
    match count {
        Some(count) => format!(in alloc; "{what} {path} {count}"),
        None => format!(in alloc; "{what} {path}"),
    }
}

/// An answer: what it is, and how many bytes it has or took.
fn answered(alloc: Global, answer: &PlainAnswer) -> Result<String, AllocError> {
    match answer {
        Answer::Done => String::from_str(alloc, "done"),
        Answer::Temp(file) => String::from_str(alloc, file.path.as_str()),
        Answer::Wrote(_, count) => format!(in alloc; "wrote {count}"),
        Answer::Took(count) => format!(in alloc; "took {count}"),
        Answer::Bytes(bytes) => format!(in alloc; "{} bytes", bytes.len()),
        Answer::Names(names) => format!(in alloc; "{} names", names.as_slice().len()),
        Answer::Synced(_) => String::from_str(alloc, "synced"),
        Answer::Failed(fault) => format!(in alloc; "{fault:?}"),
        _ => String::from_str(alloc, "another answer"),
    }
}

/// An item of the log.
fn item(alloc: Global, item: &LogItem) -> Result<String, AllocError> {
    match item {
        LogItem::Made(step, answer) => {
            let step = asked(alloc, step)?;
            let answer = answered(alloc, answer)?;
            format!(in alloc; "{step}: {answer}")
        }
        _ => String::from_str(alloc, "somebody else"),
    }
}

/// The items of the log from this place on.
fn items(alloc: Global, log: &[LogItem]) -> Result<String, AllocError> {
    let mut line = String::new(alloc);
    for it in log {
        if !line.is_empty() {
            line.push_str("; ")?;
        }
        line.push_str(item(alloc, it)?.as_str())?;
    }
    Ok(line)
}

/// Where the log is before an act, and what the act gives.
fn made_from(env: &mut On<MemStore>, row: Row<'_>) -> Result<(usize, String), Flaw> {
    let before = env.store.log().len();
    Ok((before, made(env, row)?))
}

/// How many steps an act makes, and what it gives.
pub(crate) fn counted(env: &mut On<MemStore>, row: Row<'_>) -> Result<String, Flaw> {
    let (before, line) = made_from(env, row)?;
    let count = env.store.log().len().saturating_sub(before);
    Ok(format!(in env.alloc; "{count} steps: {line}")?)
}

/// The steps that an act makes with their answers, and what it gives.
pub(crate) fn told(env: &mut On<MemStore>, row: Row<'_>) -> Result<String, Flaw> {
    let alloc = env.alloc;
    let (before, line) = made_from(env, row)?;
    let gained = env.store.log().get(before..).unwrap_or(&[]);
    Ok(format!(in alloc; "{}; {line}", items(alloc, gained)?)?)
}
