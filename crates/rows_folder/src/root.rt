//! A folder of the rows' own, below the system's for temporary files, and what is done there besides the store's
//! work.
use crate::held::failed;
use crate::texts::path_of;
use cacache_core::keeping::{beside, let_go};
use cacache_folder::ProcessNames;
use cacache_store::env::Names;
use rows::Flaw;
use rows::words::cut;
use std::env::temp_dir;
use std::os::unix::fs::MetadataExt;
use std::{fs, io};

/// A folder that nothing else uses. It is removed with all below when it is let go.
pub(crate) struct Root {
    pub(crate) rt: HostRuntime,
    /// The folder's path.
    pub(crate) path: String,
    /// The number in the file system of the file that was looked at last.
    number: u64,
}

impl Drop for Root {
    fn drop(self) {
        let Root {
            rt,
            path,
            number: _,
        } = self;
        let_go(fs::remove_dir_all(&rt, path.as_str()));
        let_go(path);
    }
}

impl Root {
    /// A new folder.
    pub(crate) fn new(rt: HostRuntime) -> io::Result<Root> {
        let number = ProcessNames::new(rt).fresh();
        let base = temp_dir(&rt)?;
        let path = format!(in rt.alloc(); "{}/rows_folder-{number}", base.as_str());
        let_go(base);
        let path = path?;
        let (_, path) = beside(fs::create_dir(&rt, path.as_str()), path)?;
        Ok(Root {
            rt,
            path,
            number: 0,
        })
    }

    /// The mode of the file at a path, without what kind of file it is, and whether it is the file that was looked at last.
    pub(crate) fn look(&mut self, path: &str) -> Result<String, Flaw> {
        let alloc = self.rt.alloc();
        let path = path_of(alloc, self.path.as_str(), path)?;
        let found = fs::metadata(&self.rt, path.as_str());
        let_go(path);
        match found {
            Ok(found) => {
                let is_same = found.ino() == self.number;
                self.number = found.ino();
                let mode = found.mode() & 0o777;
                Ok(format!(in alloc; "mode {mode:o}, same {is_same}")?)
            }
            Err(error) => Ok(failed(alloc, error)?),
        }
    }

    /// Gives a file or a folder another path.
    pub(crate) fn rename(&self, words: &str) -> Result<String, Flaw> {
        let alloc = self.rt.alloc();
        let (from, to) = cut(words);
        let from = path_of(alloc, self.path.as_str(), from)?;
        let (to, from) = beside(path_of(alloc, self.path.as_str(), to), from)?;
        let renamed = fs::rename(&self.rt, from.as_str(), to.as_str());
        let_go(from);
        let_go(to);
        let shown = match renamed {
            Ok(()) => String::from_str(alloc, "renamed"),
            Err(error) => failed(alloc, error),
        };
        Ok(shown?)
    }
}
