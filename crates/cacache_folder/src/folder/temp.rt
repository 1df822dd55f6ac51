//! Temporary files of real folders.
ghost use Rattle.std.specs.{Prelude.{◌≡◌, None, IsOk}, Io.{WritesAtMost, KnownBytes.{WriteAppends}}};
ghost use Rattle.cacache_system.specs.declared.call.SystemCall.TheVariants as asks;
ghost use Rattle.cacache_system.specs.{declared.call.CallResult.{CallResult}, Seen.{MakesCall, said}, CallsOf.{RunLogged}};
ghost use Rattle.cacache_system.specs.declared.call.CallResult.TheVariants as says;
ghost use Rattle.cacache_folder.specs.{FolderNumbers.{numbered_temp}, HandleRuns.{writing}};

use crate::folder::again::ask_to_write;
use cacache_core::keeping::let_go;
use cacache_core::text::Text;
use cacache_store::store::{TempFile, TempHandle};
use cacache_system::{Host, System};
use std::io;
use std::io::Write;

/// A temporary file of a system, with a system of its own, which its writes and its removal ask. Dropping it closes
/// the file and removes it; a failure to do so isn't reported.
pub struct SystemTemp<Y: System + Drop> {
    pub(crate) system: Y,
    pub(crate) file: Y::File,
    pub(crate) path: Text,
    /// Whether it was synced.
    pub(crate) is_synced: bool,
}

/// A temporary file of real folders.
pub type FolderTemp<R> = SystemTemp<Host<R>>;

impl<Y: System + Drop> Drop for SystemTemp<Y> {
    fn drop(self)
        ensures { (after : Y) × (answer : CallResult) × MakesCall (Y.calls self.system)
            (Y.calls after) (asks.RemoveFile self.path) answer }
    {
        let SystemTemp {
            system,
            file,
            path,
            is_synced: _,
        } = self;
        let_go(file);
        let mut system = system;
        let _ = system.remove_file(path.as_str());
    }
}

impl<Y: System + Drop> SystemTemp<Y> {
    /// The temporary file that was made, with a system for its writes.
    pub(crate) fn new(system: Y, file: Y::File, path: Text) -> SystemTemp<Y>
        ensures file { result.file ≡ file }
        ensures path { result.path ≡ path }
    {
        SystemTemp {
            system,
            file,
            path,
            is_synced: false,
        }
    }

    /// This file after a sync.
    pub(crate) fn synced(self) -> SystemTemp<Y>
        ensures file { result.file ≡ self.file }
        ensures path { result.path ≡ self.path }
    {
        let mut temp = self;
        temp.is_synced = true;
        temp
    }

    /// Closes the file, which was moved: nothing is left to remove.
    pub(crate) fn close(self) {
        let SystemTemp {
            system: _system,
            file: _file,
            path: _path,
            is_synced: _,
        } = self;
    }

    /// Closes the file and removes it by one call, after which the system is let go. The error says why it wasn't
    /// removed.
    pub fn remove(self) -> io::Result<()>
        ensures { (after : Y) × MakesCall (Y.calls self.system) (Y.calls after)
            (asks.RemoveFile self.path) (said (λ _. says.Done) result) }
    {
        let SystemTemp {
            system,
            file,
            path,
            is_synced: _,
        } = self;
        let_go(file);
        let mut system = system;
        system.remove_file(path.as_str())
    }
}

impl<Y: System + Drop> Write for SystemTemp<Y> {
    fn write(&mut self, buf: &[u8]) -> io::Result<usize>
        ensures bound { WritesAtMost result buf.now }
        ensures bytes { WriteAppends None None result buf.now }
        ensures ran { RunLogged (writing (numbered_temp Y.number self.old) buf.now)
            (said says.Count result) (Y.calls self.old.system) (Y.calls self.new.system) }
    {
        self.write_some(buf)
    }

    fn flush(&mut self) -> io::Result<()>
        ensures same { self.new ≡ self.old }
        ensures done { IsOk result }
    {
        Ok(())
    }
}

impl<Y: System + Drop> TempHandle for SystemTemp<Y> {
    ghost use Rattle.cacache_folder.specs.FolderHandles.{seen_temp};

    ghost seen = { seen_temp };
}

impl<Y: System + Drop> TempFile for SystemTemp<Y> {
    fn write_some(&mut self, buf: &[u8]) -> io::Result<usize>
        ensures bound { WritesAtMost result buf.now }
        ensures path { self.new.path ≡ self.old.path }
        ensures bytes { WriteAppends None None result buf.now }
        ensures number { Y.number self.new.file ≡ Y.number self.old.file }
        ensures ran { RunLogged (writing (numbered_temp Y.number self.old) buf.now)
            (said says.Count result) (Y.calls self.old.system) (Y.calls self.new.system) }
    {
        ask_to_write(&mut self.system, &mut self.file, buf)
    }
}
