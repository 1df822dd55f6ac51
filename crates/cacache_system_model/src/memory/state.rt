//! What a system in memory holds: a disk, and the files that are open.
ghost use Rattle.std.specs.Prelude.{◌≡◌, ◌+◌, ◌%◌, ◌^◌, None, OnOk};
ghost use Rattle.cacache_disk.specs.{Tree.{cut}, LedTo.{removable, emptied}};
ghost use Rattle.cacache_system_model.specs.memory.Files.{Displaces, MovesPath};

use crate::memory::files::{OpenFile, displaced};
use crate::memory::tree::{movable, place, put_moved, remove_file, remove_folder};
use cacache_disk::{Disk, Stop};
use std::alloc::Global;

/// An open file, by its number.
#[derive(Drop)]
pub struct MemoryFile {
    pub(crate) number: u64,
}

/// A disk, the files that are open, by their numbers, and the mark of the next file that loses its name.
#[derive(Clone, Drop)]
pub struct Memory {
    pub(crate) alloc: Global,
    pub(crate) disk: Disk,
    pub(crate) files: Vec<OpenFile>,
    pub(crate) marks: u64,
}

impl Memory {
    /// Removes a file or a link.
    #[tactic(auto, using(crate::proofs::memory::Displacing::stays, crate::proofs::memory::Displacing::removable_bad))]
    pub(crate) fn remove_file(&mut self, path: &str) -> Result<(), Stop>
        ensures displaces { Displaces (removable self.old.disk path.now) (cut self.old.disk) None
            self.old result self.new }
        ensures counts { OnOk result (self.new.marks ≡ (self.old.marks + 1) % 2 ^ 64) }
    {
        let names = place(&self.disk, path)?;
        let files = displaced(
            self.alloc,
            &self.files,
            &self.disk,
            None,
            &names,
            self.marks,
        )?;
        remove_file(&mut self.disk, self.alloc, path)?;
        self.files = files;
        self.marks = self.marks.wrapping_add(1);
        Ok(())
    }

    /// Removes an empty folder.
    #[tactic(auto, using(crate::proofs::memory::Displacing::stays, crate::proofs::memory::Displacing::emptied_bad))]
    pub(crate) fn remove_folder(&mut self, path: &str) -> Result<(), Stop>
        ensures displaces { Displaces (emptied self.old.disk path.now) (cut self.old.disk) None
            self.old result self.new }
        ensures counts { OnOk result (self.new.marks ≡ (self.old.marks + 1) % 2 ^ 64) }
    {
        let names = place(&self.disk, path)?;
        let files = displaced(
            self.alloc,
            &self.files,
            &self.disk,
            None,
            &names,
            self.marks,
        )?;
        remove_folder(&mut self.disk, self.alloc, path)?;
        self.files = files;
        self.marks = self.marks.wrapping_add(1);
        Ok(())
    }

    /// Moves a file. A folder or a link isn't moved.
    #[tactic(auto, using(crate::proofs::memory::Displacing::moves_nothing, crate::proofs::memory::Displacing::unmoved))]
    pub(crate) fn rename(&mut self, from: &str, to: &str) -> Result<(), Stop>
        ensures moves { MovesPath from.now to.now self.old result self.new }
        ensures counts { OnOk result (self.new.marks ≡ (self.old.marks + 1) % 2 ^ 64) }
    {
        let bytes = movable(&self.disk, from)?;
        let old = place(&self.disk, from)?;
        let new = place(&self.disk, to)?;
        let files = displaced(
            self.alloc,
            &self.files,
            &self.disk,
            Some(&old),
            &new,
            self.marks,
        )?;
        put_moved(&mut self.disk, self.alloc, from, bytes, to)?;
        self.files = files;
        self.marks = self.marks.wrapping_add(1);
        Ok(())
    }
}
