//! A disk in memory and real folders, which go through the same rows.
use crate::acts::made;
use crate::dated::Dated;
use cacache::env::Env;
use cacache::store::{FolderStore, MemStore};
use row_places::{On, in_both, in_folders, in_memory};
use rows::words::column;
use rows::{Flaw, Outcome, Trial};
use std::alloc::Global;
use std::io;

/// A disk in memory and real folders.
#[derive(Drop)]
pub(crate) struct Places {
    alloc: Global,
    memory: On<Dated<MemStore>>,
    folders: On<Dated<FolderStore<HostRuntime>>>,
}

/// This environment, with a store that says when its files changed.
fn dated<S>(env: On<S>) -> On<Dated<S>> {
    let Env {
        alloc,
        store,
        clock,
        names,
        base,
    } = env;
    Env {
        alloc,
        store: Dated::new(store),
        clock,
        names,
        base,
    }
}

impl Places {
    /// Empty ones. The folders are those below the one where the program runs.
    pub(crate) fn new(rt: &HostRuntime) -> io::Result<Places> {
        let alloc = rt.alloc();
        let folders = dated(in_folders(rt)?);
        let memory = dated(in_memory(alloc)?);
        Ok(Places {
            alloc,
            memory,
            folders,
        })
    }

    /// What an act gives at both places, or after `in memory` there.
    fn everywhere(&mut self, act: &str, input: &str) -> Result<String, Flaw> {
        if let Some(act) = act.strip_prefix("in memory ") {
            return made(&mut self.memory, act, input);
        }
        let in_memory = made(&mut self.memory, act, input)?;
        let in_folders = made(&mut self.folders, act, input)?;
        Ok(in_both(self.alloc, in_memory, in_folders)?)
    }
}

impl Trial for Places {
    fn outcome(&mut self, row: &str) -> Result<Outcome, Flaw> {
        let (act, rest) = column(row)?;
        let (input, wanted) = column(rest)?;
        let wanted = String::from_str(self.alloc, wanted)?;
        let got = self.everywhere(act, input)?;
        Ok(Outcome { wanted, got })
    }
}
