//! Where rows are tried: a disk, or a store with its log.
use crate::disk::handles::{Handle, handle_in};
use crate::disk::shown::{shown_answer, shown_item};
use crate::disk::tree::{disk_of, shown_copy, shown_tree};
use cacache_core::bytes::Bytes;
use cacache_core::errors::Error;
use cacache_core::keeping::{beside, let_go};
use cacache_disk::memory::MemStore;
use cacache_disk::{Disk, Luck};
use cacache_store::store::{Answer, PlainAnswer, PlainStep, Store};
use rows::Flaw;
use rows::words::word_of;
use std::alloc::{AllocError, Global};

/// A disk, or a store with its log.
#[derive(Drop)]
pub(crate) enum Place {
    Disk(Disk),
    Store(MemStore),
}

/// What a step came to: its answer as a text, and the handle in it.
#[derive(Drop)]
pub(crate) struct Heard {
    pub(crate) text: String,
    pub(crate) handle: Option<Handle>,
}

/// What an answer says.
fn heard_in(alloc: Global, answer: PlainAnswer) -> Result<Heard, Flaw> {
    match shown_answer(alloc, &answer) {
        Ok(text) => {
            let handle = handle_in(answer);
            Ok(Heard { text, handle })
        }
        Err(_) => {
            let_go(answer);
            Err(Flaw::NoMemory)
        }
    }
}

/// What an answer says, with what its copy says if that is something else.
fn with_copy(alloc: Global, heard: Heard, copied: &str) -> Result<Heard, Flaw> {
    if heard.text.as_str() == copied {
        return Ok(heard);
    }
    let Heard { text, handle } = heard;
    let (text, handle) = beside(format!(in alloc; "{text} but {copied}"), handle)?;
    Ok(Heard { text, handle })
}

/// What an answer says, with what its copy says if that is something else.
fn both(alloc: Global, answer: PlainAnswer, copy: PlainAnswer) -> Result<Heard, Flaw> {
    let copied = shown_answer(alloc, &copy);
    let_go(copy);
    let (heard, copied) = beside(heard_in(alloc, answer), copied)?;
    let (copied, heard) = beside(copied, heard)?;
    with_copy(alloc, heard, copied.as_str())
}

/// Does a step on a disk.
fn on_disk(alloc: Global, disk: &mut Disk, step: PlainStep, luck: Luck) -> Result<Heard, Flaw> {
    let applied = disk.apply_logged(&step, luck);
    let_go(step);
    match applied {
        Ok((answer, copy)) => both(alloc, answer, copy),
        Err(_) => Err(Flaw::Refused),
    }
}

/// Whether luck is plain.
pub(crate) fn is_plain(luck: Luck) -> bool {
    matches!(luck, Luck::Plain)
}

/// Does a step on a store.
fn on_store(alloc: Global, store: &mut MemStore, step: PlainStep) -> Result<Heard, Flaw> {
    let answer = store.step(step);
    if matches!(&answer, Answer::NoMemory(_)) {
        let_go(answer);
        return Err(Flaw::Refused);
    }
    heard_in(alloc, answer)
}

/// What a plant on a disk comes to.
fn planted(alloc: Global, disk: &mut Disk, path: &str, bytes: &Bytes) -> Result<String, Flaw> {
    match disk.plant(path, bytes) {
        Ok(Ok(())) => Ok(String::from_str(alloc, "Done")?),
        Ok(Err(fault)) => Ok(format!(in alloc; "Failed {fault:?}")?),
        Err(_) => Err(Flaw::Refused),
    }
}

/// A refusal as a text.
fn refusal(alloc: Global, error: &Error) -> Result<String, Flaw> {
    match error {
        Error::IoError(fault, text) => Ok(format!(in alloc; "Failed {fault:?}: {text}")?),
        _ => Err(Flaw::Refused),
    }
}

/// What a plant on a store comes to.
fn foreign(alloc: Global, came: Result<(), Error>) -> Result<String, Flaw> {
    match came {
        Ok(()) => Ok(String::from_str(alloc, "Done")?),
        Err(error) => {
            let text = refusal(alloc, &error);
            let_go(error);
            text
        }
    }
}

/// The bytes that are shared at a path of a disk, as a word.
fn shared(alloc: Global, disk: &Disk, path: &str) -> Result<String, AllocError> {
    match disk.shared(path)? {
        Some(bytes) => String::from_str(alloc, word_of(bytes.as_slice())),
        None => String::from_str(alloc, "none"),
    }
}

/// Bytes that were found, as a word.
fn found<E: Drop>(alloc: Global, bytes: Result<Option<Vec<u8>>, E>) -> Result<String, AllocError> {
    let Ok(bytes) = bytes else {
        return Err(AllocError);
    };
    let word = bytes
        .as_ref()
        .map_or("none", |bytes| word_of(bytes.as_slice()));
    String::from_str(alloc, word)
}

/// A store that begins with what a disk holds.
fn store_of(alloc: Global, disk: &Disk) -> Result<Place, Flaw> {
    match MemStore::of(alloc, disk) {
        Ok(store) => Ok(Place::Store(store)),
        Err(error) => {
            let_go(error);
            Err(Flaw::NoMemory)
        }
    }
}

impl Place {
    /// A new place with this.
    pub(crate) fn new(alloc: Global, before: &str) -> Result<Place, Flaw> {
        if before == "store" {
            return Ok(Place::Store(MemStore::new(alloc)?));
        }
        if let Some(words) = before.strip_prefix("of ") {
            let disk = disk_of(alloc, words)?;
            let place = store_of(alloc, &disk);
            let_go(disk);
            return place;
        }
        Ok(Place::Disk(disk_of(alloc, before)?))
    }

    /// What a disk holds, or how much a store has logged.
    pub(crate) fn shown(&mut self, alloc: Global) -> Result<String, AllocError> {
        match self {
            Place::Disk(disk) => shown_tree(alloc, disk),
            Place::Store(store) => format!(in alloc; "logged {}", store.log().len()),
        }
    }

    /// Whether a step may have this luck: a store has none but the plain one.
    pub(crate) fn allows(&self, luck: Luck) -> bool {
        matches!(self, Place::Disk(_)) || is_plain(luck)
    }

    /// Does a step.
    pub(crate) fn step(
        &mut self,
        alloc: Global,
        step: PlainStep,
        luck: Luck,
    ) -> Result<Heard, Flaw> {
        match self {
            Place::Disk(disk) => on_disk(alloc, disk, step, luck),
            Place::Store(store) => on_store(alloc, store, step),
        }
    }

    /// Does what somebody else may do: puts a file with these bytes at the path.
    pub(crate) fn plant(
        &mut self,
        alloc: Global,
        path: &str,
        bytes: &Bytes,
    ) -> Result<String, Flaw> {
        match self {
            Place::Disk(disk) => planted(alloc, disk, path, bytes),
            Place::Store(store) => foreign(alloc, store.plant(path, bytes.as_slice())),
        }
    }

    /// Does what somebody else may do: makes the folders of the path. Only a store does it.
    pub(crate) fn plant_folder(&mut self, alloc: Global, path: &str) -> Result<String, Flaw> {
        match self {
            Place::Disk(_) => Err(Flaw::NotRead),
            Place::Store(store) => foreign(alloc, store.plant_folder(path)),
        }
    }

    /// What a copy of the disk holds once what a word says is made.
    pub(crate) fn copied(&self, alloc: Global, word: &str) -> Result<String, Flaw> {
        match self {
            Place::Disk(disk) => shown_copy(alloc, disk, word),
            Place::Store(_) => Err(Flaw::NotRead),
        }
    }

    /// The bytes at the path as a word, `none` if there are none.
    pub(crate) fn bytes(&self, alloc: Global, path: &str) -> Result<String, Flaw> {
        match self {
            Place::Disk(disk) => Ok(shared(alloc, disk, path)?),
            Place::Store(store) => Ok(found(alloc, store.bytes(path))?),
        }
    }

    /// An item of a store's log, counted from 0.
    pub(crate) fn logged(&self, alloc: Global, index: usize) -> Result<String, Flaw> {
        let Place::Store(store) = self else {
            return Err(Flaw::NotRead);
        };
        let Some(item) = store.log().get(index) else {
            return Err(Flaw::NotRead);
        };
        Ok(shown_item(alloc, item)?)
    }
}
