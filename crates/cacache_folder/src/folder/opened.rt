//! Open files of real folders.
ghost use Rattle.std.specs.{Prelude.{◌≡◌, ◌==◌, ◌-◌, ◌^◌, ◌<◌, ◌≤◌, ◌&&◌, not, None, IfOk, IsErr, length}, Io.{ReadsAtMost, KnownBytes.{ReadConsumes}}};
ghost use Rattle.cacache_store.specs.Plain.{LeftFalls};
ghost use Rattle.cacache_system.specs.declared.call.SystemCall.TheVariants as asks;
ghost use Rattle.cacache_system.specs.{Seen.{said_bytes}, CallsOf.{RunLogged}};
ghost use Rattle.cacache_folder.specs.{FolderNumbers.{numbered_file}, HandleRuns.{reading}, Goings.{Insists}};

use crate::folder::again::ask_to_read;
use cacache_store::store::{FileHandle, OpenedFile};
use cacache_system::{Host, System};
use std::io;
use std::io::{ErrorKind, Read};

/// An open file of a system, with a system of its own, which its reads ask. It gives at most 2^64 - 1 bytes. A read
/// past them fails, and never says that the file ended.
#[derive(Drop)]
pub struct SystemFile<Y: System + Drop> {
    pub(crate) system: Y,
    pub(crate) file: Y::File,
    pub(crate) left: usize,
}

/// An open file of real folders.
pub type FolderFile<R> = SystemFile<Host<R>>;

impl<Y: System + Drop> SystemFile<Y> {
    /// The open file, from which nothing was read yet, with a system for its reads.
    pub(crate) fn new(system: Y, file: Y::File) -> SystemFile<Y>
        ensures system { result.system ≡ system }
        ensures file { result.file ≡ file }
        ensures left { result.left ≡ 2 ^ 64 - 1 }
    {
        SystemFile {
            system,
            file,
            left: usize::MAX,
        }
    }
}

/// Whether the file gave all that it may, so that it must not be said to end.
pub(crate) fn gives_no_more<Y: System + Drop>(file: &SystemFile<Y>, size: usize) -> bool
    ensures { result ≡ (file.now.left == 0 && not (size == 0)) }
{
    file.left == 0 && size != 0
}

/// One read of at most `room` bytes to the front of a buffer.
fn read_front<Y: System>(
    system: &mut Y,
    file: &mut Y::File,
    buf: &mut [u8],
    room: usize,
) -> io::Result<usize>
    requires { room ≤ length buf.old }
    ensures bound { ReadsAtMost result buf.new }
    ensures room { IfOk result (λ count. count ≤ room) }
    ensures same { Y.number file.new ≡ Y.number file.old }
    ensures made { Insists (asks.Read (Y.number file.old) room) (said_bytes buf.new result)
        (Y.calls system.old) (Y.calls system.new) }
{
    match ask_to_read(system, file, &mut buf[..room]) {
        Ok(count) => Ok(count),
        Err(error) => Err(error),
    }
}

impl<Y: System + Drop> Read for SystemFile<Y> {
    fn read(&mut self, buf: &mut [u8]) -> io::Result<usize>
        ensures bound { ReadsAtMost result buf.new }
        ensures left { LeftFalls self.old.left self.new.left result }
        ensures bytes { ReadConsumes None None result buf.new }
        ensures ran { RunLogged (reading (numbered_file Y.number self.old) (length buf.old))
            (said_bytes buf.new result) (Y.calls self.old.system) (Y.calls self.new.system) }
    {
        self.read_some(buf)
    }
}

impl<Y: System + Drop> FileHandle for SystemFile<Y> {
    ghost use Rattle.cacache_folder.specs.FolderHandles.{seen_file};

    ghost seen = { seen_file };
}

impl<Y: System + Drop> OpenedFile for SystemFile<Y> {
    fn read_some(&mut self, buf: &mut [u8]) -> io::Result<usize>
        ensures bound { ReadsAtMost result buf.new }
        ensures left { LeftFalls self.old.left self.new.left result }
        ensures bytes { ReadConsumes None None result buf.new }
        ensures over { self.old.left ≡ 0 → 0 < length buf.old → IsErr result }
        ensures number { Y.number self.new.file ≡ Y.number self.old.file }
        ensures ran { RunLogged (reading (numbered_file Y.number self.old) (length buf.old))
            (said_bytes buf.new result) (Y.calls self.old.system) (Y.calls self.new.system) }
    {
        if gives_no_more(self, buf.len()) {
            return Err(io::Error::from(ErrorKind::FileTooLarge));
        }
        let room = buf.len().min(self.left);
        match read_front(&mut self.system, &mut self.file, buf, room) {
            Ok(count) => {
                self.left -= count;
                Ok(count)
            }
            Err(error) => Err(error),
        }
    }
}
