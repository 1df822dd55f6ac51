//! A store over a system, real or watched, and what rows hold of it.
use crate::held::{Held, failed};
use crate::steps::came;
use crate::watched::{Watched, taken};
use crate::watched_file::Notes;
use crate::ways::Ways;
use cacache_core::keeping::let_go;
use cacache_folder::{FolderStore, SystemFile, SystemStore, SystemTemp};
use cacache_store::store::Store;
use cacache_system::{Host, System};
use rows::Flaw;
use rows::words::{cut, number_of};
use std::alloc::{AllocError, Global};
use std::io::ErrorKind;
use std::rc::Rc;

/// A store over a system, and what rows hold of it.
pub(crate) struct Stand<Y: System + Drop> {
    store: SystemStore<Y>,
    held: Held<SystemFile<Y>, SystemTemp<Y>>,
}

// Written out, so that it is a call of its own: whoever lets one go has a proof that doesn't go through its parts.
impl<Y: System + Drop> Drop for Stand<Y> {
    fn drop(self) {
        let Stand {
            store: _store,
            held: _held,
        } = self;
    }
}

/// What comes of removing the temporary file that is held.
fn removed<Y: System + Drop>(alloc: Global, temp: Option<SystemTemp<Y>>) -> Result<String, Flaw> {
    let Some(temp) = temp else {
        return Err(Flaw::Unfit);
    };
    Ok(match temp.remove() {
        Ok(()) => String::from_str(alloc, "removed")?,
        Err(error) => failed(alloc, error)?,
    })
}

/// A reason as a row shows it.
fn shown_reason(alloc: Global, reason: Option<ErrorKind>) -> Result<String, AllocError> {
    match reason {
        Some(kind) => format!(in alloc; "{kind:?}"),
        None => String::from_str(alloc, "none"),
    }
}

impl<Y: System + AllocGlobal + Clone + Drop> Stand<Y> {
    /// A store without any held handles.
    fn new(store: SystemStore<Y>) -> Stand<Y> {
        Stand {
            store,
            held: Held::new(),
        }
    }

    /// Does what the words say below a folder, and shows what comes of it.
    fn came(&mut self, alloc: Global, root: &str, words: &str) -> Result<String, Flaw> {
        if words == "remove" {
            return removed(alloc, self.held.temp.take());
        }
        if words == "begin" {
            self.store.begin_walks();
            return Ok(String::from_str(alloc, "begun")?);
        }
        if words == "end" {
            self.store.end_walks();
            return Ok(String::from_str(alloc, "ended")?);
        }
        if words == "reason" {
            return Ok(shown_reason(alloc, self.store.reason())?);
        }
        came(alloc, root, &mut self.store, &mut self.held, words)
    }
}

/// Where rows are tried.
#[derive(Drop)]
pub(crate) enum Place {
    /// On real folders.
    Real(Stand<Host<HostRuntime>>),
    /// A real folder with all calls noted, and with files that behave in ways of their own.
    Watched(Stand<Host<Watched>>, Notes),
}

impl Place {
    /// Real folders.
    pub(crate) fn real(rt: HostRuntime) -> Place {
        Place::Real(Stand::new(FolderStore::new(rt)))
    }

    /// Real folders that are watched.
    pub(crate) fn watched(rt: HostRuntime, ways: Ways) -> Result<Place, AllocError> {
        let (watched, notes) = Watched::new(rt, ways)?;
        let stand = Stand::new(FolderStore::new(watched));
        Ok(Place::Watched(stand, notes))
    }

    /// Does what the words say once.
    fn once(&mut self, alloc: Global, root: &str, words: &str) -> Result<String, Flaw> {
        match self {
            Place::Real(stand) => stand.came(alloc, root, words),
            Place::Watched(stand, _) => stand.came(alloc, root, words),
        }
    }

    /// Does what the words say with a number at their end.
    fn numbered(
        &mut self,
        alloc: Global,
        root: &str,
        words: &str,
        number: usize,
    ) -> Result<String, Flaw> {
        let words = format!(in alloc; "{words}{number}")?;
        let came = self.once(alloc, root, words.as_str());
        let_go(words);
        came
    }

    /// Does what the words say with each number from one up to another at their end, until one fails. Shows what
    /// comes of the last one that is done.
    fn each(&mut self, alloc: Global, root: &str, words: &str) -> Result<String, Flaw> {
        let (from, words) = cut(words);
        let (to, words) = cut(words);
        let to = number_of(to)?;
        for number in number_of(from)?..to {
            let came = self.numbered(alloc, root, words, number)?;
            if came.starts_with("Failed") {
                return Ok(came);
            }
            let_go(came);
        }
        self.numbered(alloc, root, words, to)
    }

    /// Does what the words say below a folder, and shows what comes of it.
    pub(crate) fn came(&mut self, alloc: Global, root: &str, words: &str) -> Result<String, Flaw> {
        match words.strip_prefix("each ") {
            Some(words) => self.each(alloc, root, words),
            None => self.once(alloc, root, words),
        }
    }

    /// Forgets the calls so far.
    pub(crate) fn forget(&self, alloc: Global) {
        if let Place::Watched(_, notes) = self {
            let_go(taken(notes, alloc));
        }
    }

    /// The calls since they were forgotten, without the folder that all paths lie in.
    pub(crate) fn calls(&self, alloc: Global, root: &str) -> Result<String, Flaw> {
        let Place::Watched(_, notes) = self else {
            return Err(Flaw::Unfit);
        };
        let calls = taken(notes, alloc);
        let shown = if calls.is_empty() {
            String::from_str(alloc, "-")
        } else {
            calls.replace(alloc, root, "")
        };
        let_go(calls);
        Ok(shown?)
    }

    /// How many hold the notes: each open file and folder is one of them.
    pub(crate) fn holders(&self, alloc: Global) -> Result<String, Flaw> {
        let Place::Watched(_, notes) = self else {
            return Err(Flaw::Unfit);
        };
        Ok(format!(in alloc; "{}", Rc::strong_count(notes))?)
    }
}
