//! The real system. All that stays trusted here is that each method asks what it is named for, and that it asks in the
//! folders that walks hold open if they were begun, and not by a path that somebody may have led elsewhere since.
ghost use Rattle.std.specs.{Prelude.{◌≡◌, ◌++◌, None, OnOk, IfSome}, Io.{StartsWith}};

use crate::call::FileInfo;
use crate::held::{Node, open_path};
use crate::open_folders::{OpenFolders, unless_missing, unless_other};
use crate::system::System;
use cacache_core::text::Text;
use cacache_store::store::Kind;
use std::alloc::{Alloc, AllocError, Global};
use std::fs::{File, Metadata, OpenFile, Permissions};
use std::io;
use std::io::{ErrorKind, Read, Write};
use std::os::fd::AsRawFd;
use std::os::unix::fs::{MetadataExt, OpenOptionsExt, PermissionsExt};
use std::random::RandomSource;
use std::rt::Files;

/// A runtime's files as the system. It keeps no log.
pub struct Host<R: Files> {
    rt: R,
    alloc: Global,
    /// Whether walks were begun, and so hold folders.
    holds: bool,
    /// What walks know since one listed a folder. In a box, since a system is moved with each file of a store.
    walks: Option<Box<OpenFolders<R>>>,
}

// Written out, since each function that drops a file of real folders would prove a derived one again.
impl<R: Files + Drop> Drop for Host<R> {
    fn drop(self) {
        let Host {
            rt: _rt,
            alloc: _,
            holds: _,
            walks: _walks,
        } = self;
    }
}

impl<R: Files + AllocGlobal> Host<R>
where
    R::File: AsRawFd,
{
    /// The system of a runtime.
    pub fn new(rt: R) -> Host<R>
        ensures { result.rt ≡ rt }
    {
        let alloc = rt.alloc();
        Host {
            rt,
            alloc,
            holds: false,
            walks: None,
        }
    }
}

impl<R: Files + AllocGlobal + Clone> Clone for Host<R>
where
    R::File: AsRawFd,
{
    /// A second one of this system, which holds nothing open.
    fn clone(&self) -> Result<Host<R>, AllocError> {
        Ok(Host::new(self.rt.clone()?))
    }
}

impl<R: Files + AllocGlobal> Alloc for Host<R> {
    type A = Global;

    fn alloc(&self) -> Global {
        self.rt.alloc()
    }
}

impl<R: Files> Host<R>
where
    R::File: AsRawFd,
{
    /// Refuses to open what a walk found to be neither file, folder nor link, and still is: that could wait for ever.
    fn refuse_odd(&self, path: &str, there: &str) -> io::Result<()> {
        match &self.walks {
            Some(walks) if walks.is_odd(path) && leads_to_odd(&self.rt, there) => {
                Err(io::Error::from(ErrorKind::Unsupported))
            }
            _ => Ok(()),
        }
    }

    /// Where to ask for what is at a path, if a walk leads there.
    fn near(&self, path: &str) -> Result<Option<String>, AllocError> {
        match &self.walks {
            Some(walks) => walks.near(path),
            None => Ok(None),
        }
    }

    /// Where to change what is at a path, if a walk leads there.
    fn within(&mut self, path: &str) -> io::Result<Option<String>> {
        match &mut self.walks {
            Some(walks) => walks.within(&self.rt, path),
            None => Ok(None),
        }
    }
}

/// The bits of a mode that say who may do what. The others say what kind of thing it is.
const RIGHTS: u32 = 0o7777;

/// What the system's metadata say.
fn info(metadata: &Metadata) -> FileInfo {
    FileInfo {
        kind: if metadata.is_dir() {
            Kind::Folder
        } else if metadata.is_symlink() {
            Kind::Link
        } else {
            Kind::File
        },
        regular: metadata.is_file(),
        size: metadata.len(),
        inode: metadata.ino(),
        device: metadata.dev(),
        mode: metadata.mode() & RIGHTS,
        owner: metadata.uid(),
        group: metadata.gid(),
    }
}

/// 64 random bits.
pub fn random_bits<R: RandomSource>(source: &R) -> io::Result<u64> {
    let mut bits = [0; 8];
    source.fill_bytes(&mut bits)?;
    Ok(u64::from_le_bytes(bits))
}

/// Whether there is neither file, folder nor link.
fn is_odd(metadata: &Metadata) -> bool {
    !(metadata.is_file() || metadata.is_dir() || metadata.is_symlink())
}

/// A time in milliseconds since the start of 1970.
fn in_millis(seconds: i64, nanoseconds: i64) -> u64 {
    let millis = seconds
        .saturating_mul(1000)
        .saturating_add(nanoseconds / 1_000_000);
    u64::try_from(millis).unwrap_or(0)
}

/// Opens the file at a path, to which a walk leads, to append to it, or makes it. No link is followed: what was opened has to be
/// what is at the path.
fn open_plain<R: Files>(rt: &R, path: &str) -> io::Result<R::File> {
    let named = match rt.symlink_metadata(path) {
        Ok(metadata) => metadata,
        Err(error) if error.kind() == ErrorKind::NotFound => {
            return File::options().append(true).create_new(true).open(rt, path);
        }
        Err(error) => return Err(error),
    };
    if !named.is_file() {
        return Err(io::Error::from(ErrorKind::Unsupported));
    }
    let opened = File::options().append(true).open(rt, path);
    let (file, _) = unless_other(opened, Some(Node::of(&named)))?;
    Ok(file)
}

/// Whether the path leads to what is neither file nor folder.
fn leads_to_odd<R: Files>(rt: &R, path: &str) -> bool {
    rt.metadata(path).is_ok_and(|metadata| is_odd(&metadata))
}

/// The path by which to ask for what is at a path: another, if a walk leads there.
fn by<'a>(path: &'a str, other: &'a Option<String>) -> &'a str {
    match other {
        Some(other) => other.as_str(),
        None => path,
    }
}

impl<R: Files + RandomSource + Drop> System for Host<R>
where
    R::File: AsRawFd,
{
    type File = R::File;

    type Folder = R::Dir;

    ghost number = { λ _. 0 };

    ghost folder_number = { λ _. 0 };

    ghost calls = { λ _. None };

    fn open_to_read(&mut self, path: &str) -> io::Result<R::File> {
        let near = self.near(path)?;
        let there = by(path, &near);
        self.refuse_odd(path, there)?;
        File::open(&self.rt, there)
    }

    fn create_new(&mut self, path: &str, mode: u32) -> io::Result<R::File> {
        let within = self.within(path)?;
        File::options()
            .write(true)
            .create_new(true)
            .mode(mode)
            .open(&self.rt, by(path, &within))
    }

    fn open_to_append(&mut self, path: &str) -> io::Result<R::File> {
        match self.within(path)? {
            Some(within) => open_plain(&self.rt, within.as_str()),
            None => {
                self.refuse_odd(path, path)?;
                File::options()
                    .append(true)
                    .create(true)
                    .open(&self.rt, path)
            }
        }
    }

    fn open_folder(&mut self, path: &str) -> io::Result<R::Dir> {
        let mut walks = match self.walks.take() {
            Some(walks) => walks,
            None => Box::new(self.alloc, OpenFolders::new(self.alloc))?,
        };
        let listing = if self.holds {
            walks.list(&self.rt, path)
        } else {
            self.rt.open_dir(path)
        };
        self.walks = Some(walks);
        listing
    }

    fn read(&mut self, file: &mut R::File, buf: &mut [u8]) -> io::Result<usize> {
        file.read(buf)
    }

    // If it is known what the file will give, all of it is read, over any runtime.
    fn read_rest(&mut self, file: &mut R::File, bytes: &mut Vec<u8>) -> io::Result<usize>
        ensures appends { StartsWith bytes.new.items bytes.old.items }
        ensures rest { OnOk result (IfSome (R.File.remaining file.old) (λ rest.
            bytes.new.items ≡ bytes.old.items ++ rest)) }
    {
        file.read_to_end(bytes)
    }

    fn write(&mut self, file: &mut R::File, buf: &[u8]) -> io::Result<usize> {
        file.write(buf)
    }

    fn read_names(&mut self, folder: &mut R::Dir, buf: &mut [u8]) -> io::Result<usize> {
        folder.read(buf)
    }

    fn sync(&mut self, file: &R::File) -> io::Result<()> {
        file.sync_all()
    }

    // The kit's call takes a path. That of the open file leads to it, whatever stands at its name by now.
    fn set_owner(&mut self, file: &R::File, owner: u32, group: u32) -> io::Result<()> {
        let path = open_path(self.alloc, file)?;
        self.rt
            .chown(path.as_str(), Some(owner), Some(group))
            .map_err(unless_missing)
    }

    fn set_mode(&mut self, file: &R::File, mode: u32) -> io::Result<()> {
        file.set_permissions(Permissions::from_mode(mode))
    }

    fn stat_file(&mut self, file: &R::File) -> io::Result<FileInfo> {
        Ok(info(&file.metadata()?))
    }

    fn stat(&mut self, path: &str) -> io::Result<FileInfo> {
        let near = self.near(path)?;
        Ok(info(&self.rt.metadata(by(path, &near))?))
    }

    fn stat_link(&mut self, path: &str) -> io::Result<FileInfo> {
        let near = self.near(path)?;
        let there = by(path, &near);
        let metadata = self.rt.symlink_metadata(there)?;
        if let Some(walks) = &mut self.walks {
            if is_odd(&metadata) || metadata.is_symlink() && leads_to_odd(&self.rt, there) {
                walks.note_odd(path)?;
            }
        }
        Ok(info(&metadata))
    }

    fn rename(&mut self, from: &str, to: &str) -> io::Result<()> {
        let Some(walks) = &mut self.walks else {
            return self.rt.rename(from, to);
        };
        let (away, there) = walks.within_both(&self.rt, from, to)?;
        self.rt.rename(by(from, &away), by(to, &there))
    }

    fn make_folder(&mut self, path: &str) -> io::Result<()> {
        let within = self.within(path)?;
        self.rt.create_dir(by(path, &within))
    }

    fn remove_file(&mut self, path: &str) -> io::Result<()> {
        let within = self.within(path)?;
        self.rt.remove_file(by(path, &within))
    }

    fn remove_folder(&mut self, path: &str) -> io::Result<()> {
        let within = self.within(path)?;
        if let Some(walks) = &mut self.walks {
            walks.leave(path);
        }
        self.rt.remove_dir(by(path, &within))
    }

    fn symlink(&mut self, target: &str, path: &str) -> io::Result<()> {
        self.rt.symlink(target, path)
    }

    fn hard_link(&mut self, from: &str, to: &str) -> io::Result<()> {
        self.rt.hard_link(from, to)
    }

    fn copy_file(&mut self, from: &str, to: &str) -> io::Result<u64> {
        self.rt.copy(from, to)
    }

    fn real_path(&mut self, alloc: Global, path: &str) -> io::Result<Text> {
        Ok(Text::new(self.rt.canonicalize(alloc, path)?.into_string()))
    }

    fn changed(&mut self, path: &str) -> io::Result<u64> {
        let within = self.within(path)?;
        let metadata = self.rt.symlink_metadata(by(path, &within))?;
        let written = in_millis(metadata.mtime(), metadata.mtime_nsec());
        Ok(written.max(in_millis(metadata.ctime(), metadata.ctime_nsec())))
    }

    fn random(&mut self) -> io::Result<u64> {
        random_bits(&self.rt)
    }

    fn begin_walks(&mut self) {
        self.holds = true;
        self.walks = None;
    }

    fn end_walks(&mut self) {
        self.holds = false;
        self.walks = None;
    }
}
