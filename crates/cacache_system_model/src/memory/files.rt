//! The open files of a system in memory, which keep what they hold if their names go.
ghost use Rattle.std.specs.Prelude.{◌≡◌, ◌<◌, ◌+◌, ◌++◌, ◌^◌, IfOk, IfErr, drop, length, option_copied};
ghost use Rattle.cacache_disk.specs.Tree.{bytes_of, look};
ghost use Rattle.cacache_core.specs.declared.errors.Fault.TheVariants.{IsADirectory};
ghost use Rattle.cacache_disk.specs.declared.stop.Stop.TheVariants as stops;
ghost use Rattle.cacache_system_model.specs.{memory.Files.{place_of, left, ArePlaced, IsNoFile, IsRest}, Machine.{is_under, gone, grown, node_of}};

use cacache_core::bytes::Bytes;
use cacache_core::errors::Fault;
use cacache_disk::{Contents, Disk, Node, Path, Stop};
use std::alloc::{AllocError, Global};

/// Where an open file is.
#[derive(Clone, Drop)]
pub(crate) enum Place {
    /// At these names.
    Under(Path),
    /// At none any more. The mark is that of each number of this file, and the node is what it holds.
    Nameless(u64, Option<Node>),
}

impl Place {
    /// Whether it is at these names.
    #[tactic(auto, using(crate::proofs::memory::Displacing::same_names))]
    fn is_under(&self, names: &Path) -> bool
        ensures { result ≡ is_under names.now (place_of self.now) }
    {
        match self {
            Place::Under(own) => own == names,
            Place::Nameless(..) => false,
        }
    }

    /// Where the file is once what was at these names has gone.
    fn gone(&self, names: &Path, mark: u64, was: &Option<Node>) -> Result<Place, AllocError>
        ensures { IfOk result (λ place. place_of place ≡ gone was.now names.now mark
            (place_of self.now)) }
    {
        if self.is_under(names) {
            return Ok(Place::Nameless(mark, was.clone()?));
        }
        self.clone()
    }

    /// Where it is once what was at `from`, if that is named, has come to `names`, and what was there has gone.
    fn left(
        &self,
        from: Option<&Path>,
        names: &Path,
        mark: u64,
        was: &Option<Node>,
    ) -> Result<Place, AllocError>
        ensures { IfOk result (λ place. place_of place ≡ left (option_copied from.entry) was.now
            names.now mark (place_of self.now)) }
    {
        if let Some(old) = from {
            if self.is_under(old) {
                return Ok(Place::Under(names.clone()?));
            }
        }
        self.gone(names, mark, was)
    }

    /// Where it is once the nameless file with this mark got more bytes.
    fn grown(&self, alloc: Global, mark: u64, more: &[u8]) -> Result<Place, AllocError>
        ensures { IfOk result (λ place. place_of place ≡ grown mark more.now (place_of self.now)) }
    {
        match self {
            Place::Nameless(own, node) if *own == mark => {
                let contents = longer(alloc, node.as_ref(), more)?;
                Ok(Place::Nameless(mark, Some(Node::File(contents))))
            }
            other => other.clone(),
        }
    }
}

/// The bytes of a file, if it is one, and then more of them.
pub(crate) fn longer(
    alloc: Global,
    node: Option<&Node>,
    more: &[u8],
) -> Result<Contents, AllocError>
    ensures { IfOk result (λ contents. contents ≡ bytes_of (option_copied node.entry) ++ more.now) }
{
    let old = match node {
        Some(Node::File(contents)) => contents.as_slice(),
        _ => &[],
    };
    let mut bytes = Vec::from_slice(alloc, old)?;
    bytes.extend_from_slice(more)?;
    Contents::of(Bytes::new(alloc, bytes)?)
}

/// An open file: where it is, and how many bytes were read from it.
#[derive(Clone, Drop)]
pub(crate) struct OpenFile {
    pub(crate) place: Place,
    pub(crate) read: usize,
}

impl OpenFile {
    /// What it is.
    pub(crate) fn node<'a>(&'a self, disk: &'a Disk) -> Option<&'a Node>
        ensures { option_copied result ≡ node_of disk.now (place_of self.now.place) }
    {
        match &self.place {
            Place::Under(names) => disk.nodes().node(names),
            Place::Nameless(_, node) => node.as_ref(),
        }
    }

    /// The bytes after those that were read from it.
    pub(crate) fn rest<'a>(&'a self, disk: &'a Disk) -> Result<&'a [u8], Stop>
        ensures ok { IfOk result (λ rest. IsRest self.now.read
            (node_of disk.now (place_of self.now.place)) rest.now) }
        ensures bound { IfOk result (λ rest. self.now.read + length rest.now < 2 ^ 64) }
        ensures err { IfErr result (λ stop. IsNoFile (node_of disk.now (place_of self.now.place))
            × (stop ≡ stops.Fault IsADirectory)) }
    {
        match self.node(disk) {
            Some(Node::File(contents)) => {
                let all = contents.as_slice();
                Ok(&all[self.read.min(all.len())..])
            }
            _ => Err(Stop::Fault(Fault::IsADirectory)),
        }
    }
}

/// The open files once what was at these names has gone, and what was at `from`, if that is named, has come there.
pub(crate) fn displaced(
    alloc: Global,
    files: &Vec<OpenFile>,
    disk: &Disk,
    from: Option<&Path>,
    names: &Path,
    mark: u64,
) -> Result<Vec<OpenFile>, AllocError>
    ensures { IfOk result (λ others. ArePlaced (left (option_copied from.entry)
        (look disk.now names.now) names.now mark) files.now.items others.items) }
{
    let was = match disk.nodes().node(names) {
        Some(node) => Some(node.clone()?),
        None => None,
    };
    let mut others = Vec::new(alloc);
    for file in files.iter() {
        let place = file.place.left(from, names, mark, &was)?;
        let read = file.read;
        others.push(OpenFile { place, read })?;
    }
    Ok(others)
}

/// The open files once the nameless one with this mark got more bytes.
pub(crate) fn grown(
    alloc: Global,
    files: &Vec<OpenFile>,
    mark: u64,
    more: &[u8],
) -> Result<Vec<OpenFile>, AllocError>
    ensures { IfOk result (λ others. ArePlaced (grown mark more.now) files.now.items others.items) }
{
    let mut others = Vec::new(alloc);
    for file in files.iter() {
        let place = file.place.grown(alloc, mark, more)?;
        let read = file.read;
        others.push(OpenFile { place, read })?;
    }
    Ok(others)
}
