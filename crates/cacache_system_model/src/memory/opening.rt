//! Files of a system in memory that are made, opened and copied.
ghost use Rattle.std.specs.Prelude.{[], ◌≡◌, Ok, IfOk, IfErr, if◌then◌else◌};
ghost use Rattle.cacache_core.specs.declared.errors.Fault.TheVariants.{InvalidInput};
ghost use Rattle.cacache_disk.specs.{declared.node.Node.TheVariants.{File}, Tree.{put, same_path}, LedTo.{file_at, found, free, leads, writable}, Plans.{Stops}};
ghost use Rattle.cacache_system_model.specs.{Calls.{brought}, Machine.{with_empty}, memory.{Changes.{CanPut}, Files.{Copied, Opens, OpensIfRoom}}};

use crate::memory::files::{OpenFile, Place, longer};
use crate::memory::state::Memory;
use crate::memory::tree::{place, with_file};
use cacache_core::errors::Fault;
use cacache_disk::{Contents, Node, Path, Stop};
use std::alloc::{AllocError, Global};

impl Memory {
    /// Opens a file that is there.
    fn open(&mut self, names: Path) -> Result<u64, Stop>
        ensures { OpensIfRoom names self.old.disk self.old result self.new }
    {
        let number = self.files.len() as u64;
        let place = Place::Under(names);
        self.files.push(OpenFile { place, read: 0 })?;
        Ok(number)
    }

    /// Makes an empty file at some names and opens it. If memory is refused, it isn't made.
    fn make(&mut self, names: Path) -> Result<u64, Stop>
        requires { CanPut self.old.disk names (File []) }
        ensures { OpensIfRoom names (put self.old.disk names (File [])) self.old result self.new }
    {
        let empty = longer(self.alloc, None, &[])?;
        let disk = with_file(&self.disk, names.clone()?, empty)?;
        let number = self.open(names)?;
        self.disk = disk;
        Ok(number)
    }

    /// Opens what a path leads to.
    #[tactic(auto, using(crate::proofs::memory::Openings::opens_bad, crate::proofs::memory::Places::found_missing))]
    pub(crate) fn open_found(&mut self, path: &str) -> Result<u64, Stop>
        ensures { Opens (found self.old.disk path.now) (λ names. self.old.disk) self.old result
            self.new }
    {
        let (names, node) = self.disk.leads(path)?;
        match node {
            Some(_) => self.open(names),
            None => Err(Stop::Fault(Fault::NotFound)),
        }
    }

    /// Makes an empty file where nothing is, and opens it.
    #[tactic(auto, using(crate::proofs::memory::Openings::opens_bad, crate::proofs::memory::Moves::free_bad, crate::proofs::memory::Occurring::makes_no_second))]
    pub(crate) fn create(&mut self, path: &str) -> Result<u64, Stop>
        ensures { Opens (free self.old.disk path.now) (λ names. put self.old.disk names (File []))
            self.old result self.new }
    {
        let names = place(&self.disk, path)?;
        match self.disk.nodes().node(&names) {
            Some(_) => Err(Stop::Fault(Fault::AlreadyExists)),
            None => self.make(names),
        }
    }

    /// Opens a file to write it, and makes a missing one.
    #[tactic(auto, using(crate::proofs::memory::Openings::opens_bad, crate::proofs::memory::Openings::opens_there, crate::proofs::memory::Openings::opens_missing))]
    pub(crate) fn open_written(&mut self, path: &str) -> Result<u64, Stop>
        ensures { Opens (writable self.old.disk path.now) (with_empty self.old.disk) self.old result
            self.new }
    {
        let names = self.disk.writable(path)?;
        match self.disk.nodes().node(&names) {
            Some(_) => self.open(names),
            None => self.make(names),
        }
    }

    /// Where a path leads, and the bytes of the file there.
    #[tactic(auto, using(crate::proofs::memory::Openings::file_bad, crate::proofs::memory::Openings::file_is))]
    fn source(&self, path: &str) -> Result<(Path, Contents), Stop>
        ensures ok { IfOk result (λ found. (leads self.now.disk path.now ≡ Ok found.0)
            × (file_at self.now.disk path.now InvalidInput ≡ Ok found.1)) }
        ensures err { IfErr result (λ stop.
            Stops stop (file_at self.now.disk path.now InvalidInput)) }
    {
        let (names, node) = self.disk.leads(path)?;
        match node {
            Some(Node::File(contents)) => Ok((names, contents.share()?)),
            Some(Node::Folder) => Err(Stop::Fault(Fault::InvalidInput)),
            Some(Node::Link(_)) => Err(Stop::Fault(Fault::TooDeep)),
            None => Err(Stop::Fault(Fault::NotFound)),
        }
    }

    /// Copies a file, and says how many bytes. A copy of a file onto itself empties it.
    pub(crate) fn copy(&mut self, from: &str, to: &str) -> Result<usize, Stop>
        ensures { Copied (brought self.old.disk from.now to.now) (writable self.old.disk to.now)
            self.old result self.new }
    {
        let (source, contents) = self.source(from)?;
        let target = self.disk.writable(to)?;
        let contents = copied(self.alloc, &source, &target, contents)?;
        let count = contents.len();
        self.disk = with_file(&self.disk, target, contents)?;
        Ok(count)
    }
}

/// The bytes that a copy brings: none if a file is copied onto itself.
#[tactic(auto, using(crate::proofs::memory::Displacing::same_names))]
fn copied(
    alloc: Global,
    source: &Path,
    target: &Path,
    contents: Contents,
) -> Result<Contents, AllocError>
    ensures { IfOk result (λ bytes. bytes
        ≡ (if same_path source.now target.now then [] else contents)) }
{
    if source == target {
        return longer(alloc, None, &[]);
    }
    Ok(contents)
}
