//! A file that is read and then replaced: the new one keeps its owner, its group and its mode.
ghost use Rattle.cacache_system.specs.declared.call.SystemCall.TheVariants as asks;
ghost use Rattle.cacache_system.specs.CallsOf as calls;
ghost use Rattle.cacache_folder.specs.{FolderNumbers.{numbered_temp}, Moves.{GoesBefore, Rewrites, Persists}};
ghost use Rattle.std.specs.Prelude.{◌≡◌};

use crate::folder::folders::{folder_of, number_of};
use crate::folder::paths::is_absent;
use crate::folder::runner::Runner;
use crate::folder::temp::SystemTemp;
use cacache_system::{FileInfo, System};
use std::io;

/// The file that was read last, by the number of its path and that of its folder's.
#[derive(Clone, Copy)]
pub(crate) struct Reading {
    file: u64,
    folder: u64,
}

impl Reading {
    /// None was read yet.
    pub(crate) fn none() -> Reading {
        Reading { file: 0, folder: 0 }
    }

    /// Keeps that the file at the path was read.
    pub(crate) fn keep(&mut self, path: &str) {
        self.file = number_of(path);
        self.folder = number_of(folder_of(path));
    }

    /// Forgets the file, if its folder is made. So a content that was read and is put again counts as a new one.
    pub(crate) fn forget_in(&mut self, folder: &str) {
        if self.file != 0 && number_of(folder) == self.folder {
            self.file = 0;
        }
    }

    /// Whether the file at the path was read last.
    fn is_of(self, path: &str) -> bool {
        self.file != 0 && number_of(path) == self.file
    }
}

/// Syncs the temporary file, if it was synced before: what it got since is to last too.
fn sync_again<Y: System + Drop>(system: &mut Y, temp: &SystemTemp<Y>) -> io::Result<()>
    ensures { GoesBefore (calls.sync_again temp.now.is_synced (Y.number temp.now.file)) result
        (Y.calls system.old) (Y.calls system.new) }
{
    if temp.is_synced {
        system.sync(&temp.file)
    } else {
        Ok(())
    }
}

/// Gives the temporary file this mode.
fn give_mode<Y: System + Drop>(system: &mut Y, temp: &SystemTemp<Y>, mode: u32) -> io::Result<()>
    ensures { GoesBefore (calls.give_mode (Y.number temp.now.file) temp.now.is_synced mode) result
        (Y.calls system.old) (Y.calls system.new) }
{
    system.set_mode(&temp.file, mode)?;
    sync_again(system, temp)
}

/// Gives the temporary file this owner, this group and this mode. The mode comes last: a new owner takes bits of it
/// away.
fn give<Y: System + Drop>(system: &mut Y, temp: &SystemTemp<Y>, info: &FileInfo) -> io::Result<()>
    ensures { GoesBefore (calls.give (Y.number temp.now.file) temp.now.is_synced info.now) result
        (Y.calls system.old) (Y.calls system.new) }
{
    system.set_owner(&temp.file, info.owner, info.group)?;
    give_mode(system, temp, info.mode)
}

/// Gives the temporary file the owner, the group and the mode of the file at the path, if there is one. A link is
/// followed.
fn keep<Y: System + Drop>(system: &mut Y, temp: &SystemTemp<Y>, path: &str) -> io::Result<()>
    ensures { GoesBefore (calls.keeping (Y.number temp.now.file) temp.now.is_synced path.now) result
        (Y.calls system.old) (Y.calls system.new) }
{
    match system.stat(path) {
        Ok(info) => give(system, temp, &info),
        Err(error) => if is_absent(error.kind()) {
            Ok(())
        } else {
            Err(error)
        },
    }
}

impl<Y: System + AllocGlobal + Clone + Drop> Runner<Y> {
    /// Replaces the file at the path, which was read before.
    fn replace_read(&mut self, temp: &SystemTemp<Y>, path: &str) -> io::Result<()>
        ensures kept { self.new.reason ≡ self.old.reason }
        ensures ran { Rewrites (numbered_temp Y.number temp.now) temp.now.is_synced path.now result
            (Y.calls self.old.system) (Y.calls self.new.system) }
    {
        keep(&mut self.system, temp, path)?;
        self.system.rename(temp.path.as_str(), path)
    }

    /// Moves the temporary file to the path. It replaces the file there, if that was read before.
    pub(crate) fn persist(&mut self, temp: &SystemTemp<Y>, path: &str) -> io::Result<()>
        ensures kept { self.new.reason ≡ self.old.reason }
        ensures ran { Persists (numbered_temp Y.number temp.now) path.now result
            (Y.calls self.old.system) (Y.calls self.new.system) }
    {
        if self.reading.is_of(path) {
            self.replace_read(temp, path)
        } else {
            self.system.rename(temp.path.as_str(), path)
        }
    }
}
