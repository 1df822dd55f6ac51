//! Open files that behave in ways of their own, and notes of what was asked.
ghost use Rattle.std.specs.Prelude.{◌≤◌, IfOk};

use crate::ways::Ways;
use std::cell::RefCell;
use std::fs::{File, Metadata, OpenFile, Permissions};
use std::io;
use std::io::{ErrorKind, Read, Seek, SeekFrom, Write};
use std::os::fd::{AsRawFd, RawFd};
use std::rc::Rc;

/// What was asked, with a `;` after each call.
pub(crate) type Notes = Rc<RefCell<String>>;

/// Notes a path. The number of a fresh file, which differs from run to run, is noted as a `*`.
fn note_path(notes: &mut String, path: &str) -> io::Result<()> {
    match path.rsplit_once(".tmp") {
        Some((front, digits)) if digits.len() == 16 => {
            notes.push_str(front)?;
            notes.push('*')?;
        }
        _ => notes.push_str(path)?,
    }
    Ok(())
}

/// Notes a call with its paths.
pub(crate) fn note_paths(notes: &Notes, call: &str, paths: &[String]) -> io::Result<()> {
    if let Ok(mut notes) = notes.try_borrow_mut() {
        notes.push_str(call)?;
        for path in paths {
            notes.push(' ')?;
            note_path(&mut notes, path.as_str())?;
        }
        notes.push(';')?;
    }
    Ok(())
}

/// Notes a call.
pub(crate) fn note(notes: &Notes, call: &str) -> io::Result<()> {
    note_paths(notes, call, &[])
}

/// Fails if calls are to fail.
pub(crate) fn failing(kind: Option<ErrorKind>) -> io::Result<()> {
    match kind {
        Some(kind) => Err(io::Error::from(kind)),
        None => Ok(()),
    }
}

/// An open file that behaves in its ways.
#[derive(Drop)]
pub(crate) struct WatchedFile {
    pub(crate) file: File,
    pub(crate) ways: Ways,
    pub(crate) notes: Notes,
}

impl AsRawFd for WatchedFile {
    fn as_raw_fd(&self) -> RawFd {
        self.file.as_raw_fd()
    }
}

impl WatchedFile {
    /// How many bytes the next read or write moves, out of those for which there is room.
    fn room(&mut self, call: &str, room: usize) -> io::Result<usize>
        ensures { IfOk result (λ count. count ≤ room) }
    {
        failing(self.ways.fault)?;
        if let Some(left) = self.ways.interruptions.checked_sub(1) {
            self.ways.interruptions = left;
            note(&self.notes, "interrupted")?;
            return Err(io::Error::from(ErrorKind::Interrupted));
        }
        note(&self.notes, call)?;
        Ok(room.min(self.ways.most))
    }
}

impl Read for WatchedFile {
    fn read(&mut self, buf: &mut [u8]) -> io::Result<usize> {
        let room = self.room("read", buf.len())?;
        self.file.read(&mut buf[..room])
    }
}

impl Write for WatchedFile {
    fn write(&mut self, buf: &[u8]) -> io::Result<usize> {
        let room = self.room("write", buf.len())?;
        self.file.write(&buf[..room])
    }

    fn flush(&mut self) -> io::Result<()> {
        note(&self.notes, "flush")?;
        self.file.flush()
    }
}

impl Seek for WatchedFile {
    fn seek(&mut self, to: SeekFrom) -> io::Result<u64> {
        note(&self.notes, "seek")?;
        self.file.seek(to)
    }
}

impl OpenFile for WatchedFile {
    fn metadata(&self) -> io::Result<Metadata> {
        match self.ways.size {
            Some(size) => Ok(Metadata::of_file(size)),
            None => self.file.metadata(),
        }
    }

    fn set_len(&self, size: u64) -> io::Result<()> {
        note(&self.notes, "set_len")?;
        self.file.set_len(size)
    }

    fn set_permissions(&self, permissions: Permissions) -> io::Result<()> {
        note(&self.notes, "set_permissions")?;
        failing(self.ways.mode)?;
        self.file.set_permissions(permissions)
    }

    fn sync_all(&self) -> io::Result<()> {
        note(&self.notes, "sync_all")?;
        failing(self.ways.fault)?;
        self.file.sync_all()
    }

    fn sync_data(&self) -> io::Result<()> {
        note(&self.notes, "sync_data")?;
        self.file.sync_data()
    }
}
