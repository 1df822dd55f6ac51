//! A folder that is held open.
use std::alloc::{AllocError, Global};
use std::fs::Metadata;
use std::io;
use std::io::ErrorKind;
use std::os::fd::AsRawFd;
use std::os::unix::fs::MetadataExt;

/// What the system knows a folder by.
#[derive(Clone, Copy)]
pub(crate) struct Node {
    number: u64,
    device: u64,
}

impl Node {
    /// What the system's metadata say.
    pub(crate) fn of(metadata: &Metadata) -> Node {
        Node {
            number: metadata.ino(),
            device: metadata.dev(),
        }
    }

    /// Whether both are of one folder. A system may number none, and then no two are.
    pub(crate) fn is_same(self, other: Node) -> bool {
        self.number != 0 && self.number == other.number && self.device == other.device
    }
}

/// A folder that is held open.
pub(crate) struct Held<F> {
    /// Its path, without a `/` at the end.
    pub(crate) path: String,
    /// A path that leads into it while it is open, with a `/` at the end.
    pub(crate) inside: String,
    /// Whether it was opened by its path, and not in another.
    pub(crate) is_first: bool,
    /// What the system knows it by.
    pub(crate) node: Node,
    /// Keeps it open.
    _file: F,
}

// Written out, so that what drops one calls this.
impl<F: Drop> Drop for Held<F> {
    fn drop(self) {
        let Held {
            path: _path,
            inside: _inside,
            is_first: _,
            node: _,
            _file: _closed,
        } = self;
    }
}

impl<F: AsRawFd> Held<F> {
    /// The folder with this path, which was opened.
    pub(crate) fn new(
        alloc: Global,
        path: &str,
        is_first: bool,
        node: Node,
        file: F,
    ) -> Result<Held<F>, AllocError>
    where
        F: Drop,
    {
        let mut inside = open_path(alloc, &file)?;
        inside.push('/')?;
        Ok(Held {
            path: String::from_str(alloc, path)?,
            inside,
            is_first,
            node,
            _file: file,
        })
    }
}

impl<F> Held<F> {
    /// Where to ask, inside the folder, for what is at a path below it.
    pub(crate) fn beneath(&self, alloc: Global, path: &str) -> Result<String, AllocError> {
        let rest = rest_below(self.path.as_str(), path).unwrap_or("");
        joined(alloc, self.inside.as_str(), rest)
    }
}

/// A path that leads to what is open.
pub(crate) fn open_path<F: AsRawFd>(alloc: Global, open: &F) -> Result<String, AllocError> {
    let number = open.as_raw_fd();
    format!(in alloc; "/proc/self/fd/{number}")
}

/// The folder with this path, if it was opened.
pub(crate) fn held_as<F: AsRawFd + Drop>(
    alloc: Global,
    path: &str,
    is_first: bool,
    opened: io::Result<(F, Node)>,
) -> io::Result<Held<F>> {
    match opened {
        Ok((file, node)) => Ok(Held::new(alloc, path, is_first, node, file)?),
        Err(error) => Err(error),
    }
}

/// One text after another.
pub(crate) fn joined(alloc: Global, first: &str, second: &str) -> Result<String, AllocError> {
    let mut text = String::with_capacity(alloc, first.len().saturating_add(second.len()))?;
    text.push_str(first)?;
    text.push_str(second)?;
    Ok(text)
}

/// What follows the folder's path in a path of something below it. Paths that don't begin with a `/` are below the empty one.
pub(crate) fn rest_below<'a>(folder: &str, path: &'a str) -> Option<&'a str> {
    let rest = path.strip_prefix(folder)?;
    let name = rest.trim_start_matches('/');
    let is_joined = name.len() < rest.len() || folder.is_empty();
    if name.is_empty() || !is_joined {
        None
    } else {
        Some(name)
    }
}

/// Whether the folder leads to another, or is that.
pub(crate) fn leads(folder: &str, other: &str) -> bool {
    folder == other || rest_below(folder, other).is_some()
}

/// The error if no folder is there, or a link.
pub(crate) fn no_folder() -> io::Error {
    io::Error::from(ErrorKind::NotADirectory)
}
