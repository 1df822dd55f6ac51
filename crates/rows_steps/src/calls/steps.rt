//! Steps as texts, in the words of rows; handles are left out.
use cacache_core::text::Text;
use cacache_store::store::{PlainStep, Step};
use rows::words::word_of;
use std::alloc::{AllocError, Global};

/// A step on one path, by its kind and the path; None for the others.
fn on_path(step: &PlainStep) -> Option<(&'static str, &Text)> {
    match step {
        Step::MakeDirs(path) => Some(("MakeDirs", path)),
        Step::CreateTemp(path) => Some(("CreateTemp", path)),
        Step::Persist(_, path) => Some(("Persist", path)),
        Step::ReadAll(path) => Some(("ReadAll", path)),
        Step::Open(path) => Some(("Open", path)),
        Step::Exists(path) => Some(("Exists", path)),
        Step::Size(path) => Some(("Size", path)),
        Step::ReadDir(path) => Some(("ReadDir", path)),
        Step::RemoveFile(path) => Some(("RemoveFile", path)),
        Step::RemoveDir(path) => Some(("RemoveDir", path)),
        Step::SyncFile(path) => Some(("SyncFile", path)),
        Step::SyncDir(path) => Some(("SyncDir", path)),
        _ => None,
    }
}

/// A step on two paths, by its kind and the paths; None for the others.
fn on_paths(step: &PlainStep) -> Option<(&'static str, &Text, &Text)> {
    match step {
        Step::Symlink(target, path) => Some(("Symlink", target, path)),
        Step::Copy(from, to) => Some(("Copy", from, to)),
        Step::Reflink(from, to) => Some(("Reflink", from, to)),
        Step::HardLink(from, to) => Some(("HardLink", from, to)),
        _ => None,
    }
}

/// A step in the words of a row.
pub(crate) fn shown_step(alloc: Global, step: &PlainStep) -> Result<String, AllocError> {
    if let Some((kind, path)) = on_path(step) {
        return format!(in alloc; "{kind} {path}");
    }
    if let Some((kind, first, second)) = on_paths(step) {
        return format!(in alloc; "{kind} {first} {second}");
    }
    match step {
        Step::Write(_, bytes) => format!(in alloc; "Write {}", word_of(bytes.as_slice())),
        Step::Append(path, bytes) => {
            let line = word_of(bytes.as_slice());
            format!(in alloc; "Append {path} {line}")
        }
        Step::SyncTemp(_) => String::from_str(alloc, "SyncTemp"),
        Step::Read(_, most) => format!(in alloc; "Read {most}"),
        _ => String::from_str(alloc, "another step"),
    }
}
