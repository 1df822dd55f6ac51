//! A runtime of its own, which hands each call on to the system's and notes what was asked.
use crate::made_up::MadeUp;
use crate::watched_file::{Notes, WatchedFile, failing, note, note_paths};
use crate::ways::{Ways, name_of};
use std::alloc::{Alloc, AllocError, Allocator, Global};
use std::cell::RefCell;
use std::fs::{Metadata, OpenOptions};
use std::io;
use std::io::ErrorKind;
use std::path::PathBuf;
use std::random::RandomSource;
use std::rc::Rc;
use std::rt::Files;

/// The notes so far, which begin anew.
pub(crate) fn taken(notes: &Notes, alloc: Global) -> String {
    notes
        .try_replace(String::new(alloc))
        .unwrap_or(String::new(alloc))
}

/// Where the system has the open files of a process.
const OPEN: &str = "/proc/self/fd/";

/// The system's runtime, but its files behave in ways of their own. No memory is found to open a file `full`. A file
/// with a name that begins with `bare` has no number, and five bytes if its ways give no size. A file `kept` isn't removed,
/// a folder `shy` is made and said to be refused, and a device is in a folder `special`. The names of each folder are
/// made up.
#[derive(Clone, Drop)]
pub(crate) struct Watched {
    host: HostRuntime,
    ways: Ways,
    notes: Notes,
}

impl Watched {
    /// The runtime, and what it will have been asked.
    pub(crate) fn new(host: HostRuntime, ways: Ways) -> Result<(Watched, Notes), AllocError> {
        let alloc = host.alloc();
        let notes = Rc::new(alloc, RefCell::new(String::new(alloc)))?;
        let watched = Watched {
            host,
            ways,
            notes: notes.clone()?,
        };
        Ok((watched, notes))
    }

    /// A path that leads through an open folder as rows show it: the folder's own path, `//` and the rest. Any other as
    /// it is.
    fn shown(&self, path: &str) -> io::Result<String> {
        let alloc = self.host.alloc();
        let Some(rest) = path.strip_prefix(OPEN) else {
            return Ok(String::from_str(alloc, path)?);
        };
        let (number, rest) = rest.split_once('/').unwrap_or((rest, ""));
        let link = format!(in alloc; "{OPEN}{number}")?;
        let folder = self.host.read_link(alloc, link.as_str())?.into_string();
        Ok(format!(in alloc; "{folder}//{rest}")?)
    }

    /// Notes a call on some paths, and refuses it if such calls are refused.
    fn asked(&self, call: &str, paths: &[&str]) -> io::Result<()> {
        if self.ways.paths {
            let mut shown = Vec::new(self.host.alloc());
            for path in paths {
                shown.push(self.shown(path)?)?;
            }
            note_paths(&self.notes, call, shown.as_slice())?;
        } else {
            note(&self.notes, call)?;
        }
        failing(self.ways.refused)
    }

    /// Notes how a file is opened, as `asked` does.
    fn asked_to_open(&self, how: &OpenOptions, path: &str) -> io::Result<()> {
        let how = format!(in self.host.alloc(); "{how:?}")?;
        self.asked(name_of(how.as_str()), &[path])
    }
}

impl Alloc for Watched {
    type A = Global;

    fn alloc(&self) -> Global {
        self.host.alloc()
    }
}

impl RandomSource for Watched {
    fn fill_bytes(&self, buf: &mut [u8]) -> io::Result<()> {
        self.asked("random", &[])?;
        self.host.fill_bytes(buf)
    }
}

impl Files for Watched {
    type File = WatchedFile;

    type Dir = MadeUp;

    fn open_file(&self, how: &OpenOptions, path: &str) -> io::Result<WatchedFile> {
        self.asked_to_open(how, path)?;
        if path.contains("/.tmp") {
            failing(self.ways.made)?;
        }
        if path.ends_with("/full") {
            return Err(io::Error::from(ErrorKind::OutOfMemory));
        }
        let file = self.host.open_file(how, path)?;
        let notes = self.notes.clone()?;
        let ways = self.ways;
        Ok(WatchedFile { file, ways, notes })
    }

    fn open_dir(&self, path: &str) -> io::Result<MadeUp> {
        let call = if path.ends_with('/') {
            "open_dir/"
        } else {
            "open_dir"
        };
        self.asked(call, &[path])?;
        let shown = self.shown(path)?;
        Ok(MadeUp::new(shown.as_str(), self.notes.clone()?))
    }

    fn metadata(&self, path: &str) -> io::Result<Metadata> {
        self.asked("metadata", &[path])?;
        if path.contains("/bare") {
            return Ok(Metadata::of_file(self.ways.size.unwrap_or(5)));
        }
        self.host.metadata(path)
    }

    fn symlink_metadata(&self, path: &str) -> io::Result<Metadata> {
        self.asked("symlink_metadata", &[path])?;
        failing(self.ways.fault)?;
        let is_special = self.shown(path)?.contains("/special/");
        self.host
            .symlink_metadata(if is_special { "/dev/null" } else { path })
    }

    fn hard_link(&self, from: &str, to: &str) -> io::Result<()> {
        self.asked("hard_link", &[from, to])?;
        self.host.hard_link(from, to)
    }

    fn symlink(&self, target: &str, path: &str) -> io::Result<()> {
        self.asked("symlink", &[target, path])?;
        self.host.symlink(target, path)
    }

    fn copy(&self, from: &str, to: &str) -> io::Result<u64> {
        self.asked("copy", &[from, to])?;
        let copied = self.host.copy(from, to);
        failing(self.ways.copy)?;
        copied
    }

    fn canonicalize<B: Allocator>(&self, alloc: B, path: &str) -> io::Result<PathBuf<B>> {
        self.asked("canonicalize", &[path])?;
        self.host.canonicalize(alloc, path)
    }

    fn rename(&self, from: &str, to: &str) -> io::Result<()> {
        self.asked("rename", &[from, to])?;
        failing(self.ways.rename)?;
        self.host.rename(from, to)
    }

    fn chown(&self, path: &str, owner: Option<u32>, group: Option<u32>) -> io::Result<()> {
        self.asked("chown", &[path])?;
        failing(self.ways.owner)?;
        self.host.chown(path, owner, group)
    }

    fn remove_file(&self, path: &str) -> io::Result<()> {
        self.asked("remove_file", &[path])?;
        if path.ends_with("/kept") {
            return Err(io::Error::from(ErrorKind::PermissionDenied));
        }
        self.host.remove_file(path)
    }

    fn create_dir(&self, path: &str) -> io::Result<()> {
        self.asked("create_dir", &[path])?;
        self.host.create_dir(path)?;
        if path.ends_with("/shy") {
            return Err(io::Error::from(ErrorKind::PermissionDenied));
        }
        Ok(())
    }

    fn remove_dir(&self, path: &str) -> io::Result<()> {
        self.asked("remove_dir", &[path])?;
        self.host.remove_dir(path)
    }

    fn remove_dir_all<B: Allocator>(&self, alloc: B, path: &str) -> io::Result<()> {
        self.asked("remove_dir_all", &[path])?;
        self.host.remove_dir_all(alloc, path)
    }
}
