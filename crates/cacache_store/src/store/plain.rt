//! Plain files: bytes in memory. Contracts see any file as a plain file.
ghost use Rattle.std.specs.{Prelude.{◌≡◌, IsOk, length}, Io.{ReadsAtMost, KnownBytes.{ReadConsumes, WriteAppends}}};
ghost use Rattle.cacache_store.specs.Plain.{LeftFalls, GivesAll, TakesAll};

use crate::store::handles::{FileHandle, OpenedFile, TempFile, TempHandle};
use cacache_core::bytes::Bytes;
use cacache_core::text::Text;
use std::io;
use std::io::{ErrorKind, Read, Write};

/// An open file in memory. Contracts see any open file in this form.
#[derive(Debug, Drop, PartialEq)]
pub struct PlainFile {
    /// An upper bound on the number of bytes still to be read.
    pub left: usize,
    /// The bytes still to be read, if they are known.
    pub bytes: Option<Bytes>,
}

/// A temporary file in memory. Contracts see any temporary file in this form.
#[derive(Debug, Drop, PartialEq)]
pub struct PlainTemp {
    /// Its path until it is moved.
    pub path: Text,
    /// The bytes written so far, if they are known.
    pub bytes: Option<Bytes>,
}

impl FileHandle for PlainFile {
    ghost seen = { λ file. file };
}

impl Read for PlainFile {
    ghost remaining = { λ file. file.bytes };

    fn read(&mut self, buf: &mut [u8]) -> io::Result<usize>
        ensures bound { ReadsAtMost result buf.new }
        ensures bytes { ReadConsumes self.old.bytes self.new.bytes result buf.new }
        ensures gives_all { GivesAll self.old (length buf.old) result }
    {
        self.read_some(buf)
    }
}

impl OpenedFile for PlainFile {
    ghost reads = { λ file room result _. GivesAll file room result };

    fn read_some(&mut self, buf: &mut [u8]) -> io::Result<usize>
        ensures bound { ReadsAtMost result buf.new }
        ensures left { LeftFalls self.old.left self.new.left result }
        ensures bytes { ReadConsumes self.old.bytes self.new.bytes result buf.new }
        ensures gives_all { GivesAll self.old (length buf.old) result }
    {
        let Some(bytes) = self.bytes.take() else {
            return Err(io::Error::from(ErrorKind::Unsupported));
        };
        let count = buf.len().min(bytes.len());
        if self.left < count {
            self.bytes = Some(bytes);
            return Err(io::Error::from(ErrorKind::InvalidInput));
        }
        buf[..count].copy_from_slice(&bytes.as_slice()[..count]);
        self.left -= count;
        self.bytes = Some(bytes.rest(count));
        Ok(count)
    }
}

impl TempHandle for PlainTemp {
    ghost seen = { λ temp. temp };
}

impl Write for PlainTemp {
    ghost contents = { λ temp. temp.bytes };

    fn write(&mut self, buf: &[u8]) -> io::Result<usize>
        ensures bytes { WriteAppends self.old.bytes self.new.bytes result buf.now }
        ensures takes_all { TakesAll (length buf.now) result }
    {
        self.write_some(buf)
    }

    fn flush(&mut self) -> io::Result<()>
        ensures bytes { self.new.bytes ≡ self.old.bytes }
        ensures done { IsOk result }
    {
        Ok(())
    }
}

impl TempFile for PlainTemp {
    ghost writes = { λ _ size result _. TakesAll size result };

    fn write_some(&mut self, buf: &[u8]) -> io::Result<usize>
        ensures path { self.new.path ≡ self.old.path }
        ensures bytes { WriteAppends self.old.bytes self.new.bytes result buf.now }
        ensures takes_all { TakesAll (length buf.now) result }
    {
        let Some(bytes) = &mut self.bytes else {
            return Err(io::Error::from(ErrorKind::Unsupported));
        };
        bytes.extend(buf)?;
        Ok(buf.len())
    }
}
