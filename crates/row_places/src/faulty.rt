//! A store with files that fail if a row says so, and do a part of their work.
ghost use Rattle.std.specs.Prelude.{◌≡◌, ◌+◌, ◌≤◌, None, IfOk, length};
ghost use Rattle.row_places.specs.Seen.{FitsSeen};

use cacache_core::bytes::Bytes;
use cacache_core::errors::Fault;
use cacache_core::keeping::{beside, let_go, set};
use cacache_core::text::Text;
use cacache_store::store::{
    Answer, FileHandle, OpenedFile, PlainFile, Step, Store, TempFile, TempHandle,
};
use cacache_writers::RemovableTemp;
use std::alloc::{AllocError, Global};
use std::io;
use std::io::{ErrorKind, Read, Write};

/// What the open file holds.
const TEXT: &[u8] = b"hello world";

/// The most bytes that a read gives.
const PIECE: usize = 64;

/// What goes wrong with the files of a store. Reads and writes are counted from 0, each file's by themselves.
#[derive(Clone, Copy)]
pub struct Mishaps {
    /// The number of the read, and of the write, that fails.
    pub fails: Option<usize>,
    /// The write that takes one byte at most, if one does.
    pub short: Option<usize>,
    /// The most bytes that any write takes.
    pub most: usize,
    /// Whether each read and write with an even number is interrupted.
    pub interrupts: bool,
    /// Whether no flush is done.
    pub unflushed: bool,
    /// Whether no file is removed: none is found.
    pub stays: bool,
}

impl Mishaps {
    /// Nothing goes wrong.
    pub const NONE: Mishaps = Mishaps {
        fails: None,
        short: None,
        most: usize::MAX,
        interrupts: false,
        unflushed: false,
        stays: false,
    };
}

/// An open file that has mishaps.
#[derive(Drop)]
pub struct Failing {
    file: PlainFile,
    mishaps: Mishaps,
    reads: usize,
}

impl FileHandle for Failing {
    ghost seen = { λ file. file.file };
}

impl Read for Failing {
    fn read(&mut self, buf: &mut [u8]) -> io::Result<usize> {
        self.read_some(buf)
    }
}

impl OpenedFile for Failing {
    fn read_some(&mut self, buf: &mut [u8]) -> io::Result<usize> {
        let number = self.reads;
        self.reads = number.saturating_add(1);
        if self.mishaps.fails == Some(number) {
            return Err(io::Error::from(ErrorKind::Other));
        }
        if self.mishaps.interrupts && number % 2 == 0 {
            return Err(io::Error::from(ErrorKind::Interrupted));
        }
        self.file.read_some(buf)
    }
}

impl Failing {
    /// An open file that holds these bytes.
    pub fn new(alloc: Global, bytes: &[u8], mishaps: Mishaps) -> Result<Failing, AllocError> {
        let held = Bytes::new(alloc, Vec::from_slice(alloc, bytes)?)?;
        let file = PlainFile {
            left: bytes.len(),
            bytes: Some(held),
        };
        Ok(Failing {
            file,
            mishaps,
            reads: 0,
        })
    }

    /// At most `max` bytes.
    fn piece(&mut self, alloc: Global, max: usize) -> io::Result<Bytes>
        ensures count { IfOk result (λ bytes. length bytes ≤ max) }
        ensures left { IfOk result (λ bytes.
            self.new.file.left + length bytes ≡ self.old.file.left) }
    {
        let mut buf = vec![in alloc; 0; max.min(PIECE)]?;
        let count = self.read_some(&mut buf)?;
        buf.truncate(count);
        Ok(Bytes::new(alloc, buf)?)
    }
}

/// A temporary file that has mishaps.
#[derive(Drop)]
pub struct Short {
    path: Text,
    bytes: Vec<u8>,
    mishaps: Mishaps,
    writes: usize,
}

impl Short {
    /// How many of so many bytes the next write takes.
    fn room(&mut self, size: usize) -> io::Result<usize>
        ensures bound { IfOk result (λ count. count ≤ size) }
        ensures path { self.new.path ≡ self.old.path }
    {
        let number = self.writes;
        self.writes = number.saturating_add(1);
        if self.mishaps.fails == Some(number) {
            return Err(io::Error::from(ErrorKind::Other));
        }
        if self.mishaps.interrupts && number % 2 == 0 {
            return Err(io::Error::from(ErrorKind::Interrupted));
        }
        if self.mishaps.short == Some(number) {
            return Ok(size.min(1));
        }
        Ok(size.min(self.mishaps.most))
    }
}

impl TempHandle for Short {
    ghost seen = { λ temp. record { path = temp.path; bytes = None } };
}

impl Write for Short {
    fn write(&mut self, buf: &[u8]) -> io::Result<usize> {
        self.write_some(buf)
    }

    fn flush(&mut self) -> io::Result<()> {
        if self.mishaps.unflushed {
            return Err(io::Error::from(ErrorKind::Other));
        }
        Ok(())
    }
}

impl TempFile for Short {
    fn write_some(&mut self, buf: &[u8]) -> io::Result<usize> {
        let count = self.room(buf.len())?;
        self.bytes.extend_from_slice(&buf[..count])?;
        Ok(count)
    }
}

impl RemovableTemp for Short {
    fn remove(self) -> Result<(), Fault> {
        let stays = self.mishaps.stays;
        let_go(self);
        if stays { Err(Fault::NotFound) } else { Ok(()) }
    }
}

/// Does a `Read` and answers it.
fn given(alloc: Global, file: Failing, max: usize) -> Answer<Failing, Short>
    ensures fits { FitsSeen (Step.Read file max) result }
{
    let mut file = file;
    match file.piece(alloc, max) {
        Ok(bytes) => Answer::Got(file, bytes),
        Err(_) => Answer::Failed(Fault::Device),
    }
}

/// A store that makes all folders, links and temporary files, takes all lines, opens one file, which holds
/// `hello world`, and keeps what was moved last.
#[derive(Drop)]
pub struct Faulty {
    alloc: Global,
    /// What goes wrong with the temporary files that it makes, and whether a file can be removed.
    pub mishaps: Mishaps,
    file: Option<Failing>,
    /// The path of the file that was moved last.
    pub path: Text,
    /// What it holds.
    pub kept: Vec<u8>,
    /// How many files were to be removed.
    pub removals: usize,
}

impl Faulty {
    /// The store with files that fail so.
    pub fn new(alloc: Global, mishaps: Mishaps) -> Result<Faulty, AllocError> {
        let (file, path) = beside(
            Failing::new(alloc, TEXT, mishaps),
            Text::from_str(alloc, "")?,
        )?;
        Ok(Faulty {
            alloc,
            mishaps,
            file: Some(file),
            path,
            kept: Vec::new(alloc),
            removals: 0,
        })
    }

    /// A temporary file at this path.
    fn temp(&self, path: Text) -> Short
        ensures { result.path ≡ path }
    {
        Short {
            path,
            bytes: Vec::new(self.alloc),
            mishaps: self.mishaps,
            writes: 0,
        }
    }

    /// Keeps what a temporary file has, at its new path.
    fn keep(&mut self, temp: Short, path: Text) {
        let Short {
            path: _path,
            bytes,
            mishaps: _,
            writes: _,
        } = temp;
        set(&mut self.kept, bytes);
        set(&mut self.path, path);
    }

    /// Removes a file, if it can be.
    fn remove(&mut self) -> Result<(), Fault> {
        self.removals = self.removals.saturating_add(1);
        if self.mishaps.stays {
            Err(Fault::NotFound)
        } else {
            Ok(())
        }
    }
}

impl Store for Faulty {
    type File = Failing;

    type Temp = Short;

    ghost log = { λ _. None };

    fn step(&mut self, step: Step<Failing, Short>) -> Answer<Failing, Short>
        ensures fits { FitsSeen step result }
    {
        match step {
            Step::MakeDirs(_path) => Answer::Done,
            Step::CreateTemp(path) => Answer::Temp(self.temp(path)),
            Step::Persist(temp, path) => {
                self.keep(temp, path);
                Answer::Done
            }
            Step::RemoveFile(_path) => match self.remove() {
                Ok(()) => Answer::Done,
                Err(fault) => Answer::Failed(fault),
            },
            Step::Append(_path, bytes) => Answer::Took(bytes.len()),
            Step::Symlink(_target, _path) => Answer::Done,
            Step::Read(file, max) => given(self.alloc, file, max),
            Step::Size(_path) => Answer::Length(TEXT.len() as u64),
            Step::Open(_path) => match self.file.take() {
                Some(file) => Answer::File(file),
                None => Answer::Failed(Fault::NotFound),
            },
            other => {
                let_go(other);
                Answer::Failed(Fault::Device)
            }
        }
    }

    /// Does nothing: no folder is ever listed.
    fn end_walks(&mut self) {}
}
