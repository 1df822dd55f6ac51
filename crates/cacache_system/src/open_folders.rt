//! Folders that walks hold open, so that no link leads a change out of them.
//!
//! A walk lists a folder, then those below it, and may remove what it finds, append to it or put a file in its place.
//! Meanwhile somebody who may write there can put a link in the place of a folder. So the folder at which such a walk
//! begins is opened once, and each one below it in the one above. If it is an area of a cache, the cache's folder and the
//! other areas are opened first. A call goes to `/proc/self/fd/N/name`, where `N` is the number of the open folder: that
//! leads into it, whatever stands at its path by then. Walks that only look go by paths.
use crate::held::{Held, Node, held_as, joined, leads, no_folder, rest_below};
use cacache_core::keeping::let_go;
use cacache_core::paths::{CONTENT_AREA, INDEX_AREA, TEMP_AREA};
use std::alloc::{AllocError, Global};
use std::fs::{File, OpenFile};
use std::io;
use std::io::ErrorKind;
use std::os::fd::AsRawFd;
use std::rt::Files;

/// How many folders that were opened by their paths are held at most: a cache's and its areas.
const FIRST: usize = 4;

/// How many folders below those are held at most. A cache has four levels.
const BELOW: usize = 4;

/// The folders in a cache's folder, by their names.
const AREAS: [&str; 3] = [INDEX_AREA, CONTENT_AREA, TEMP_AREA];

/// The folders that walks hold open.
pub(crate) struct OpenFolders<R: Files> {
    alloc: Global,
    /// In the order in which they were opened.
    held: Vec<Held<R::File>>,
    /// Paths at which the walks found neither file, folder nor link.
    odd: Vec<String>,
}

impl<R: Files> Drop for OpenFolders<R> {
    fn drop(self) {
        let OpenFolders {
            alloc: _,
            held: _held,
            odd: _odd,
        } = self;
    }
}

/// The path of the folder in which a path names something.
fn folder_of(path: &str) -> &str {
    match path.rsplit_once('/') {
        Some((folder, _)) => folder,
        None => "",
    }
}

/// What the system knows the folder at the path by, if no link stands there.
fn folder_at<R: Files>(rt: &R, path: &str) -> io::Result<Node> {
    let metadata = rt.symlink_metadata(path)?;
    if metadata.is_dir() {
        Ok(Node::of(&metadata))
    } else {
        Err(no_folder())
    }
}

/// The error of a call through what is open. That is there, so what is missing is `/proc`.
pub(crate) fn unless_missing(error: io::Error) -> io::Error {
    match error.kind() {
        ErrorKind::NotFound => io::Error::from(ErrorKind::Unsupported),
        _ => error,
    }
}

/// What was opened, if it is what was named, and what the system knows it by.
pub(crate) fn unless_other<F: OpenFile + Drop>(
    opened: io::Result<F>,
    named: Option<Node>,
) -> io::Result<(F, Node)> {
    let file = opened?;
    match (file.metadata(), named) {
        (Ok(found), None) => Ok((file, Node::of(&found))),
        (Ok(found), Some(named)) if Node::of(&found).is_same(named) => Ok((file, named)),
        (Ok(_), Some(_)) => Err(no_folder()),
        (Err(error), _) => Err(error),
    }
}

/// What comes before the name of the folder in its path, if that names an area of a cache.
fn before_area(folder: &str) -> Option<&str> {
    let name = match folder.rsplit_once('/') {
        Some((_, name)) => name,
        None => folder,
    };
    if AREAS.iter().any(|area| *area == name) {
        folder.strip_suffix(name)
    } else {
        None
    }
}

/// The folder of a path whose name ends before this byte.
fn folder_before(path: &str, end: usize) -> Option<&str> {
    let (folder, rest) = path.split_at_checked(end)?;
    let is_whole = rest.is_empty() || rest.starts_with('/');
    if is_whole && !folder.ends_with('/') {
        Some(folder)
    } else {
        None
    }
}

impl<R: Files> OpenFolders<R>
where
    R::File: AsRawFd,
{
    /// None is held yet.
    pub(crate) fn new(alloc: Global) -> OpenFolders<R> {
        OpenFolders {
            alloc,
            held: Vec::new(alloc),
            odd: Vec::new(alloc),
        }
    }

    /// Closes a folder and those below it, since it is removed.
    pub(crate) fn leave(&mut self, path: &str) {
        self.held.retain(|held| !leads(path, held.path.as_str()));
    }

    /// Keeps that there is neither file, folder nor link at the path.
    pub(crate) fn note_odd(&mut self, path: &str) -> Result<(), AllocError> {
        if !self.is_odd(path) {
            self.odd.push(String::from_str(self.alloc, path)?)?;
        }
        Ok(())
    }

    /// Whether a walk found neither file, folder nor link at the path.
    pub(crate) fn is_odd(&self, path: &str) -> bool {
        self.odd.as_slice().iter().any(|odd| odd.as_str() == path)
    }

    /// The place of the innermost folder that is held above the path.
    fn above(&self, path: &str) -> Option<usize> {
        let mut found = None;
        let mut longest = 0;
        for (at, held) in self.held.as_slice().iter().enumerate() {
            let length = held.path.len();
            if length >= longest && rest_below(held.path.as_str(), path).is_some() {
                longest = length;
                found = Some(at);
            }
        }
        found
    }

    /// Where to ask for what is at a path: by its name in the innermost folder that is held above it. None if no walk
    /// leads there.
    pub(crate) fn near(&self, path: &str) -> Result<Option<String>, AllocError> {
        match self.above(path) {
            Some(at) => match self.held.as_slice().get(at) {
                Some(held) => Ok(Some(held.beneath(self.alloc, path)?)),
                None => Ok(None),
            },
            None => Ok(None),
        }
    }

    /// How long the path of the innermost folder is that is held on the way to a folder, or is that.
    fn reached(&self, folder: &str) -> Option<usize> {
        let mut reached = None;
        for held in self.held.as_slice() {
            let length = held.path.len();
            if leads(held.path.as_str(), folder) && length >= reached.unwrap_or(0) {
                reached = Some(length);
            }
        }
        reached
    }

    /// Closes the first of the folders that were opened by their paths, or of those below them, if there are too many for one
    /// more.
    fn make_room(&mut self, is_first: bool) {
        let most = if is_first { FIRST } else { BELOW };
        let mut count = 0usize;
        let mut oldest = 0;
        for (at, held) in self.held.as_slice().iter().enumerate() {
            if held.is_first == is_first {
                if count == 0 {
                    oldest = at;
                }
                count = count.saturating_add(1);
            }
        }
        if count >= most && oldest < self.held.len() {
            let_go(self.held.remove(oldest));
        }
    }

    /// Closes the folders below those that were opened by their paths, but for those that lead to a folder.
    fn release(&mut self, folder: &str) {
        self.held
            .retain(|held| held.is_first || leads(held.path.as_str(), folder));
    }

    /// Opens a folder by its path. What was there by now is held as the folder at that path.
    fn open(&self, rt: &R, there: &str, path: &str, is_first: bool) -> io::Result<Held<R::File>> {
        let opened = unless_other(File::open(rt, there), None);
        held_as(self.alloc, path, is_first, opened)
    }

    /// Opens the folder at the path by its name in the innermost that is held above it. It has to have that name while it is
    /// open, when no other one is known by the same number. So no link is followed.
    fn enter(&mut self, rt: &R, path: &str) -> io::Result<()> {
        let Some(there) = self.near(path)? else {
            return Err(no_folder());
        };
        let asked = joined(self.alloc, there.as_str(), "/")?;
        let held = self.open(rt, asked.as_str(), path, false)?;
        match folder_at(rt, there.as_str()) {
            Ok(named) if named.is_same(held.node) => self.push(held),
            Ok(_) => Err(no_folder()),
            Err(error) => Err(error),
        }
    }

    /// Holds one folder more.
    fn push(&mut self, held: Held<R::File>) -> io::Result<()> {
        self.make_room(held.is_first);
        Ok(self.held.push(held)?)
    }

    /// Holds the folder at the path, and those on the way to it from the folder at which a walk began. If no walk leads
    /// there, none is held.
    fn hold(&mut self, rt: &R, folder: &str) -> io::Result<()> {
        let Some(reached) = self.reached(folder) else {
            return Ok(());
        };
        for end in reached.saturating_add(1)..folder.len().saturating_add(1) {
            if let Some(path) = folder_before(folder, end) {
                self.enter(rt, path)?;
            }
        }
        Ok(())
    }

    /// Where to change what is at a path: by its name in its folder, which is held from now on. None if no walk leads
    /// there.
    pub(crate) fn within(&mut self, rt: &R, path: &str) -> io::Result<Option<String>> {
        if self.held.is_empty() {
            return Ok(None);
        }
        let folder = folder_of(path);
        self.release(folder);
        self.hold(rt, folder)?;
        Ok(self.near(path)?)
    }

    /// Where to move what is at one path from, and where to move it to at another.
    pub(crate) fn within_both(
        &mut self,
        rt: &R,
        from: &str,
        to: &str,
    ) -> io::Result<(Option<String>, Option<String>)> {
        self.within(rt, from)?;
        self.hold(rt, folder_of(to))?;
        Ok((self.near(from)?, self.near(to)?))
    }

    /// Opens a folder by a path that ends in a `/`, and holds it from now on. A link there is followed, as reads do. Without
    /// `/proc` no path leads into it.
    fn begin_at(&mut self, rt: &R, path: &str, folder: &str) -> io::Result<()> {
        let held = self.open(rt, path, folder, true)?;
        match rt.metadata(held.inside.as_str()) {
            Ok(_) => self.push(held),
            Err(error) => Err(unless_missing(error)),
        }
    }

    /// Holds the folder of a cache and its areas, since a walk begins in one, so that no link takes the place of another before
    /// the call comes there. An area that can't be opened isn't held: the call goes there from the cache's folder, and changes
    /// nothing through a link.
    fn hold_cache(&mut self, rt: &R, before: &str) -> io::Result<()> {
        let path = if before.is_empty() { "./" } else { before };
        self.begin_at(rt, path, before.trim_end_matches('/'))?;
        for area in AREAS {
            let folder = joined(self.alloc, before, area)?;
            if let Some(there) = self.near(folder.as_str())? {
                let path = joined(self.alloc, there.as_str(), "/")?;
                let _unless_it_fails = self.begin_at(rt, path.as_str(), folder.as_str());
            }
        }
        Ok(())
    }

    /// The folder, if it was opened by its path.
    fn first(&self, folder: &str) -> Option<&Held<R::File>> {
        self.held
            .as_slice()
            .iter()
            .find(|held| held.is_first && held.path.as_str() == folder)
    }

    /// Whether a folder that was opened by its path is still there. If not, its listing might lack what is there now.
    fn stays(&self, rt: &R, folder: &str) -> bool {
        let Some(held) = self.first(folder) else {
            return true;
        };
        match rt.metadata(folder) {
            Ok(found) => Node::of(&found).is_same(held.node),
            Err(_) => false,
        }
    }

    /// Where to list a folder. None if no walk leads there.
    fn inside(&mut self, rt: &R, folder: &str) -> io::Result<Option<String>> {
        match self.first(folder) {
            Some(held) => Ok(Some(held.inside.clone()?)),
            None => self.within(rt, folder),
        }
    }

    /// Opens a folder to list it. Below a folder that is held no link is followed. Elsewhere a walk begins, which holds it, and
    /// follows a link to an area or one with a `/` after it. It stays open, so that no later link is followed.
    pub(crate) fn list(&mut self, rt: &R, path: &str) -> io::Result<R::Dir> {
        let folder = path.trim_end_matches('/');
        if !self.stays(rt, folder) {
            return Err(no_folder());
        }
        if let Some(there) = self.inside(rt, folder)? {
            return rt.open_dir(there.as_str());
        }
        match before_area(folder) {
            Some(before) => self.hold_cache(rt, before)?,
            None => {
                if !path.ends_with('/') {
                    let _no_link = folder_at(rt, folder)?;
                }
                self.begin_at(rt, joined(self.alloc, folder, "/")?.as_str(), folder)?;
            }
        }
        match self.inside(rt, folder)? {
            Some(there) => rt.open_dir(there.as_str()),
            None => Err(no_folder()),
        }
    }
}
