//! Steps as words: `Append /file one` is a step, and `Took 3` its answer.
use crate::held::Held;
use crate::texts::{bytes_of, path_of, text_of};
use cacache_core::keeping::beside;
use cacache_core::text::Text;
use cacache_store::store::{Answer, Kind, Listing, Step, Store};
use rows::Flaw;
use rows::words::cut;
use std::alloc::{AllocError, Global};

/// A step on one path.
fn short_step<F, T>(ask: &str, path: Text) -> Result<Step<F, T>, Flaw> {
    Ok(match ask {
        "MakeDirs" => Step::MakeDirs(path),
        "CreateTemp" => Step::CreateTemp(path),
        "ReadAll" => Step::ReadAll(path),
        "Exists" => Step::Exists(path),
        "Open" => Step::Open(path),
        "Size" => Step::Size(path),
        "ReadDir" => Step::ReadDir(path),
        "RemoveFile" => Step::RemoveFile(path),
        "RemoveDir" => Step::RemoveDir(path),
        "SyncFile" => Step::SyncFile(path),
        "SyncDir" => Step::SyncDir(path),
        _ => return Err(Flaw::NotRead),
    })
}

/// A step on two paths.
fn long_step<F, T>(
    alloc: Global,
    root: &str,
    ask: &str,
    words: &str,
) -> Result<Step<F, T>, AllocError> {
    let (from, to) = cut(words);
    let from = path_of(alloc, root, from)?;
    let (to, from) = beside(path_of(alloc, root, to), from)?;
    Ok(match ask {
        "Symlink" => Step::Symlink(from, to),
        "Copy" => Step::Copy(from, to),
        "Reflink" => Step::Reflink(from, to),
        _ => Step::HardLink(from, to),
    })
}

/// An `Append`.
fn append<F, T>(alloc: Global, root: &str, words: &str) -> Result<Step<F, T>, AllocError> {
    let (path, bytes) = cut(words);
    let path = path_of(alloc, root, path)?;
    let (bytes, path) = beside(bytes_of(alloc, bytes), path)?;
    Ok(Step::Append(path, bytes))
}

/// The step of some words.
fn step_of<F: Drop, T: Drop>(
    alloc: Global,
    root: &str,
    held: &mut Held<F, T>,
    words: &str,
) -> Result<Step<F, T>, Flaw> {
    let (ask, rest) = cut(words);
    match ask {
        "Write" | "Persist" | "SyncTemp" | "Read" => held.step(alloc, root, ask, rest),
        "Append" => Ok(append(alloc, root, rest)?),
        "Symlink" | "Copy" | "Reflink" | "HardLink" => Ok(long_step(alloc, root, ask, rest)?),
        _ => short_step(ask, path_of(alloc, root, rest)?),
    }
}

/// How many names of a kind there are.
fn count_of(listing: &Listing, kind: Kind) -> usize {
    listing
        .as_slice()
        .iter()
        .filter(|name| name.kind == kind)
        .count()
}

/// A listing as it is shown: its files, folders and links are counted.
fn counted(alloc: Global, names: &Listing) -> Result<String, AllocError> {
    let files = count_of(names, Kind::File);
    let folders = count_of(names, Kind::Folder);
    let links = count_of(names, Kind::Link);
    format!(in alloc; "Names {files} {folders} {links}")
}

/// Bytes after the word for their answer.
fn shown_bytes(alloc: Global, word: &str, bytes: &[u8]) -> Result<String, AllocError> {
    let text = text_of(alloc, bytes)?;
    format!(in alloc; "{word} {text}")
}

/// An answer as a row shows it.
pub(crate) fn shown<F, T>(alloc: Global, answer: &Answer<F, T>) -> Result<String, AllocError> {
    match answer {
        Answer::Done => String::from_str(alloc, "Done"),
        Answer::NoMemory(_) => String::from_str(alloc, "NoMemory"),
        Answer::Temp(_) => String::from_str(alloc, "Temp"),
        Answer::Synced(_) => String::from_str(alloc, "Synced"),
        Answer::File(_) => String::from_str(alloc, "File"),
        Answer::Wrote(_, count) => format!(in alloc; "Wrote {count}"),
        Answer::Took(count) => format!(in alloc; "Took {count}"),
        Answer::There(is) => format!(in alloc; "There {is}"),
        Answer::Length(size) => format!(in alloc; "Length {size}"),
        Answer::Failed(fault) => format!(in alloc; "Failed {fault:?}"),
        Answer::Names(names) => counted(alloc, names),
        Answer::Bytes(bytes) => shown_bytes(alloc, "Bytes", bytes.as_slice()),
        Answer::Got(_, bytes) => shown_bytes(alloc, "Got", bytes.as_slice()),
    }
}

/// Does the step of some words, holds the file of its answer, and shows the answer.
fn stepped<S: Store>(
    alloc: Global,
    root: &str,
    store: &mut S,
    held: &mut Held<S::File, S::Temp>,
    words: &str,
) -> Result<String, Flaw> {
    let step = step_of(alloc, root, held, words)?;
    let answer = store.step(step);
    let shown = shown(alloc, &answer);
    held.keep(answer);
    Ok(shown?)
}

/// Does what the words say, a step or something with what is held, and shows what comes of it.
pub(crate) fn came<S: Store>(
    alloc: Global,
    root: &str,
    store: &mut S,
    held: &mut Held<S::File, S::Temp>,
    words: &str,
) -> Result<String, Flaw> {
    match cut(words) {
        ("close", _) => {
            held.close();
            Ok(String::from_str(alloc, "closed")?)
        }
        (ask, word) if matches!(ask, "gives" | "rest" | "takes" | "takes-all") => {
            held.by_hand(alloc, ask, word)
        }
        _ => stepped(alloc, root, store, held, words),
    }
}
