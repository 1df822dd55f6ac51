//! A store whose files all changed at one time, and on which one kind of step may fail. In walks that weren't begun nothing
//! changes.
ghost use Rattle.std.specs.{Prelude.{None, Some, if◌then◌else◌, is_some}, declared.io.ErrorKind.{ErrorKind}};
ghost use Rattle.cacache.specs.Stores.{Fits, Logs, plain_step, plain_answer};

use crate::stuck::Kind;
use cacache::env::Reasons;
use cacache::errors::Fault;
use cacache::store::{Answer, Step, Store};
use cacache_core::keeping::let_go;
use cacache_store::store::Stamps;
use row_places::Walks;
use std::io::ErrorKind;

/// Another store, which says of each path that it changed then.
#[derive(Drop)]
pub(crate) struct Dated<S> {
    pub(crate) store: S,
    /// What it says: a time in milliseconds since 1970, or why there is none.
    pub(crate) changed: Result<u64, Fault>,
    /// The kind of steps that fail, if there is one.
    pub(crate) stuck: Option<Kind>,
    /// How many of these are still done, before one fails.
    pub(crate) done: u32,
    walks: Walks,
}

impl<S> Dated<S> {
    /// The store, which knows no times. No step fails.
    pub(crate) fn new(store: S) -> Dated<S> {
        Dated {
            store,
            changed: Err(Fault::Unsupported),
            stuck: None,
            done: 0,
            walks: Walks::new(),
        }
    }
}

impl<S: Store> Store for Dated<S> {
    type File = S::File;

    type Temp = S::Temp;

    ghost log = { λ _. None };

    fn step(&mut self, step: Step<S::File, S::Temp>) -> Answer<S::File, S::Temp>
        ensures fits { Fits (plain_step S.File.seen S.Temp.seen step)
            (plain_answer S.File.seen S.Temp.seen result) }
        ensures logged { Logs None None (plain_step S.File.seen S.Temp.seen step)
            (plain_answer S.File.seen S.Temp.seen result) }
    {
        if self.walks.refuses(&step) {
            let_go(step);
            return Answer::Failed(Fault::Device);
        }
        let is_stuck = match self.stuck {
            Some(kind) => kind.is_of(&step),
            None => false,
        };
        if !is_stuck {
            return self.store.step(step);
        }
        if self.done > 0 {
            self.done -= 1;
            return self.store.step(step);
        }
        let_go(step);
        Answer::Failed(Fault::Device)
    }

    fn begin_walks(&mut self) {
        self.walks.begin();
        self.store.begin_walks();
    }

    fn end_walks(&mut self) {
        self.walks = Walks::new();
        self.store.end_walks();
    }
}

impl<S: Store> Stamps for Dated<S> {
    fn changed(&mut self, _path: &str) -> Result<u64, Fault> {
        self.changed
    }
}

/// What it refuses itself failed as on a full disk.
impl<S: Reasons> Reasons for Dated<S> {
    ghost known = { λ dated. if is_some dated.stuck then Some ErrorKind.StorageFull else S.known dated.store };

    fn reason(&self) -> Option<ErrorKind> {
        if self.stuck.is_some() {
            return Some(ErrorKind::StorageFull);
        }
        self.store.reason()
    }
}
