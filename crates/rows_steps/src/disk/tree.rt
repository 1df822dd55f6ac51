//! A disk as words: `a/` is a folder, `f=x` a file and `l->f` a link, folders before what is in them.
use crate::disk::steps::{appending, two_paths};
use crate::disk::words::text_of;
use cacache_core::keeping::{beside, let_go};
use cacache_disk::{Disk, Luck};
use cacache_store::store::{Answer, Kind, Listing, Name, PlainAnswer, PlainStep, Step};
use rows::Flaw;
use rows::words::word_of;
use std::alloc::{AllocError, Global};

/// How deep folders are shown.
const DEPTH: usize = 100;

/// The step that makes what a word says.
fn making(alloc: Global, word: &str) -> Result<PlainStep, Flaw> {
    if let Some((path, target)) = word.split_once("->") {
        return two_paths(alloc, "Symlink", target, path);
    }
    if let Some((path, bytes)) = word.split_once('=') {
        return appending(alloc, path, bytes);
    }
    if !word.ends_with('/') {
        return Err(Flaw::NotRead);
    }
    Ok(Step::MakeDirs(text_of(alloc, word)?))
}

/// Whether a step succeeded.
fn is_well(answer: &PlainAnswer) -> bool {
    !matches!(answer, Answer::Failed(_))
}

/// Makes what a word says.
fn make(alloc: Global, disk: &mut Disk, word: &str) -> Result<(), Flaw> {
    let step = making(alloc, word)?;
    let applied = disk.apply(&step, Luck::Plain);
    let_go(step);
    let answer = applied?;
    let is_made = is_well(&answer);
    let_go(answer);
    if is_made { Ok(()) } else { Err(Flaw::NotRead) }
}

/// Makes what the words say.
fn make_all(alloc: Global, disk: &mut Disk, text: &str) -> Result<(), Flaw> {
    for word in text.split(' ') {
        make(alloc, disk, word)?;
    }
    Ok(())
}

/// A disk with what the words say. The first word is `/`, the top folder.
pub(crate) fn disk_of(alloc: Global, text: &str) -> Result<Disk, Flaw> {
    let mut disk = Disk::new(alloc)?;
    let (_, disk) = beside(make_all(alloc, &mut disk, text), disk)?;
    Ok(disk)
}

/// The targets of a disk's links, in the order of their paths, as its `Debug` text shows them: no answer has one.
#[derive(Clone, Copy)]
struct Targets<'a> {
    rest: &'a str,
}

impl<'a> Targets<'a> {
    /// The target of the next link.
    fn next(&mut self) -> &'a str {
        let Some((_, rest)) = self.rest.split_once("Link(\"") else {
            return "?";
        };
        let Some((target, rest)) = rest.split_once("\")") else {
            return "?";
        };
        self.rest = rest;
        if target.is_empty() { "-" } else { target }
    }
}

/// The listing in an answer.
fn listing_in(answer: PlainAnswer) -> Option<Listing> {
    match answer {
        Answer::Names(listing) => Some(listing),
        other => {
            let_go(other);
            None
        }
    }
}

/// What is in a folder.
fn listed(alloc: Global, disk: &mut Disk, folder: &str) -> Result<Option<Listing>, AllocError> {
    let step = Step::ReadDir(text_of(alloc, folder)?);
    let applied = disk.apply(&step, Luck::Plain);
    let_go(step);
    Ok(listing_in(applied?))
}

/// The bytes of a file as a word.
fn shown_bytes<'a>(disk: &'a Disk, path: &str) -> Result<&'a str, AllocError> {
    match disk.shared(path)? {
        Some(bytes) => Ok(word_of(bytes.as_slice())),
        None => Ok("?"),
    }
}

/// The path of a name in a folder; that of the top folder is empty.
fn joined(alloc: Global, folder: &str, name: &str) -> Result<String, AllocError> {
    if folder.is_empty() {
        return String::from_str(alloc, name);
    }
    format!(in alloc; "{folder}/{name}")
}

/// What is at a path as a word.
fn shown_at(
    alloc: Global,
    disk: &Disk,
    targets: &mut Targets<'_>,
    path: &str,
    kind: Kind,
) -> Result<String, AllocError> {
    match kind {
        Kind::Folder => format!(in alloc; " {path}/"),
        Kind::Link => format!(in alloc; " {path}->{}", targets.next()),
        Kind::File => format!(in alloc; " {path}={}", shown_bytes(disk, path)?),
    }
}

/// Puts what is at a name of a folder after the text: its path.
fn show_name(
    alloc: Global,
    disk: &Disk,
    targets: &mut Targets<'_>,
    folder: &str,
    name: &Name,
    text: &mut String,
) -> Result<String, AllocError> {
    let path = joined(alloc, folder, name.name.as_str())?;
    let (shown, path) = beside(
        shown_at(alloc, disk, targets, path.as_str(), name.kind),
        path,
    )?;
    let (_, path) = beside(text.push_str(shown.as_str()), path)?;
    Ok(path)
}

/// Puts what is in a folder after the text.
fn show_folder(
    alloc: Global,
    disk: &mut Disk,
    targets: &mut Targets<'_>,
    folder: &str,
    depth: usize,
    text: &mut String,
) -> Result<(), AllocError> {
    if depth == 0 {
        return Ok(());
    }
    let Some(listing) = listed(alloc, disk, if folder.is_empty() { "/" } else { folder })? else {
        return Ok(());
    };
    for name in listing.as_slice() {
        let path = show_name(alloc, disk, targets, folder, name, text)?;
        if name.kind == Kind::Folder {
            show_folder(alloc, disk, targets, path.as_str(), depth - 1, text)?;
        }
    }
    Ok(())
}

/// All that a disk holds, as words.
pub(crate) fn shown_tree(alloc: Global, disk: &mut Disk) -> Result<String, AllocError> {
    let all = format!(in alloc; "{disk:?}")?;
    let mut targets = Targets { rest: all.as_str() };
    let mut text = String::from_str(alloc, "/")?;
    let shown = show_folder(alloc, disk, &mut targets, "", DEPTH, &mut text);
    let (_, text) = beside(shown, text)?;
    Ok(text)
}

/// All that a disk holds once what a word says is made.
fn shown_with(alloc: Global, disk: &mut Disk, word: &str) -> Result<String, Flaw> {
    make(alloc, disk, word)?;
    Ok(shown_tree(alloc, disk)?)
}

/// What a copy of a disk holds once what a word says is made.
pub(crate) fn shown_copy(alloc: Global, disk: &Disk, word: &str) -> Result<String, Flaw> {
    let mut copy = disk.clone()?;
    let shown = shown_with(alloc, &mut copy, word);
    let_go(copy);
    shown
}
