//! What a path leads to, or why it leads nowhere.
ghost use Rattle.std.specs.Prelude.{◌≡◌, [], None, Ok, IfOk, IfErr, option_copied};
ghost use Rattle.cacache_disk.specs.{Tree.{look}, LedTo.{place, followed, leads, writable, at, end_at, misfit, suited, file_at, kept, linked, emptied, dirs_fault}, Deepest.{MakesFrom}, Plans.{Stops, Blocks}};

use crate::contents::Contents;
use crate::disk::Disk;
use crate::node::Node;
use crate::path::Path;
use crate::stop::Stop;
use crate::walk::{dirs_past, way_past};
use cacache_core::errors::Fault;

/// How many links may be followed, one after another.
const MOST_LINKS: u8 = 16;

/// What a step wants at a path.
#[derive(Clone, Copy)]
pub(crate) enum Wanted {
    Anything,
    Nothing,
    /// Nothing, a file or a link.
    NoFolder,
    File,
    FileOrLink,
    Folder,
}

/// Why what is at a path isn't what is wanted, if so.
fn misfit(wanted: Wanted, node: Option<&Node>) -> Option<Fault>
    ensures { result ≡ misfit wanted (option_copied node.entry) }
{
    match wanted {
        Wanted::Anything => match node {
            None => Some(Fault::NotFound),
            Some(_) => None,
        },
        Wanted::Nothing => match node {
            None => None,
            Some(_) => Some(Fault::AlreadyExists),
        },
        Wanted::NoFolder => match node {
            Some(Node::Folder) => Some(Fault::IsADirectory),
            None | Some(Node::File(_)) | Some(Node::Link(_)) => None,
        },
        Wanted::File => match node {
            Some(Node::File(_)) => None,
            None | Some(Node::Folder) | Some(Node::Link(_)) => Some(Fault::NotFound),
        },
        Wanted::FileOrLink => match node {
            None => Some(Fault::NotFound),
            Some(Node::Folder) => Some(Fault::IsADirectory),
            Some(Node::File(_)) | Some(Node::Link(_)) => None,
        },
        Wanted::Folder => match node {
            None => Some(Fault::NotFound),
            Some(Node::Folder) => None,
            Some(Node::File(_)) | Some(Node::Link(_)) => Some(Fault::NotADirectory),
        },
    }
}

/// The names, if what is at them is what is wanted.
pub(crate) fn suited(wanted: Wanted, node: Option<&Node>, names: Path) -> Result<Path, Stop>
    ensures ok { IfOk result (λ found. suited wanted (option_copied node.entry) names ≡ Ok found) }
    ensures err { IfErr result (λ stop.
        Stops stop (suited wanted (option_copied node.entry) names)) }
{
    match misfit(wanted, node) {
        None => Ok(names),
        Some(fault) => Err(Stop::Fault(fault)),
    }
}

impl Disk {
    /// The names of a path whose folder is there, and what is at the path.
    #[tactic(auto, unfolding(crate::specs::LedTo::place))]
    fn place(&self, path: &str) -> Result<(Path, Option<&Node>), Stop>
        ensures ok { IfOk result (λ r. place self.now path.now ≡ Ok r.0) }
        ensures node { IfOk result (λ r. option_copied r.1 ≡ look self.now r.0) }
        ensures err { IfErr result (λ stop. Stops stop (place self.now path.now)) }
    {
        let nodes = self.nodes();
        let names = Path::of(nodes.alloc(), path)?;
        let (count, node) = nodes.deepest(&names)?;
        let left = names.len() - count;
        match way_past(node, left) {
            Some(fault) => Err(Stop::Fault(fault)),
            None if left == 0 => Ok((names, Some(node))),
            None => Ok((names, None)),
        }
    }

    /// The names of a path at which something is wanted. No link is followed.
    pub(crate) fn at(&self, path: &str, wanted: Wanted) -> Result<Path, Stop>
        ensures ok { IfOk result (λ names. at self.now path.now wanted ≡ Ok names) }
        ensures err { IfErr result (λ stop. Stops stop (at self.now path.now wanted)) }
    {
        let (names, node) = self.place(path)?;
        suited(wanted, node, names)
    }

    /// Where names lead through at most so many links.
    #[tactic(auto, unfolding(crate::specs::LedTo::followed, crate::specs::LedTo::standing))]
    fn followed(&self, names: Path, most: u8) -> Result<Path, Stop>
        ensures ok { IfOk result (λ end. followed most self.now names ≡ Ok end) }
        ensures err { IfErr result (λ stop. Stops stop (followed most self.now names)) }
    {
        match self.nodes().node(&names) {
            None => Ok(names),
            Some(Node::Folder) => Ok(names),
            Some(Node::File(_)) => Ok(names),
            Some(Node::Link(target)) => {
                if most == 0 {
                    return Err(Stop::Fault(Fault::TooDeep));
                }
                let next = self.at(target.as_str(), Wanted::Anything)?;
                self.followed(next, most - 1)
            }
        }
    }

    /// Where a path leads, and what is there.
    #[tactic(auto, unfolding(crate::specs::LedTo::leads))]
    pub fn leads(&self, path: &str) -> Result<(Path, Option<&Node>), Stop>
        ensures ok { IfOk result (λ r. leads self.now path.now ≡ Ok r.0) }
        ensures node { IfOk result (λ r. option_copied r.1 ≡ look self.now r.0) }
        ensures err { IfErr result (λ stop. Stops stop (leads self.now path.now)) }
    {
        let (names, _) = self.place(path)?;
        let end = self.followed(names, MOST_LINKS)?;
        let node = self.nodes().node(&end);
        Ok((end, node))
    }

    /// The names that a path leads to, if what is wanted is there.
    pub(crate) fn end_at(&self, path: &str, wanted: Wanted) -> Result<Path, Stop>
        ensures ok { IfOk result (λ names. end_at self.now path.now wanted ≡ Ok names) }
        ensures err { IfErr result (λ stop. Stops stop (end_at self.now path.now wanted)) }
    {
        let (names, node) = self.leads(path)?;
        suited(wanted, node, names)
    }

    /// The names of the file that a path leads to, or where it could be made.
    #[tactic(auto, unfolding(crate::specs::LedTo::writable))]
    pub fn writable(&self, path: &str) -> Result<Path, Stop>
        ensures ok { IfOk result (λ names. writable self.now path.now ≡ Ok names) }
        ensures err { IfErr result (λ stop. Stops stop (writable self.now path.now)) }
    {
        self.end_at(path, Wanted::NoFolder)
    }

    /// The bytes of the file that a path leads to. A folder there is the given fault.
    #[tactic(auto, unfolding(crate::specs::LedTo::file_at))]
    pub(crate) fn file_at(&self, path: &str, folder: Fault) -> Result<&Contents, Stop>
        ensures ok { IfOk result (λ bytes. file_at self.now path.now folder ≡ Ok bytes.now) }
        ensures err { IfErr result (λ stop. Stops stop (file_at self.now path.now folder)) }
    {
        let (_, node) = self.leads(path)?;
        match node {
            None => Err(Stop::Fault(Fault::NotFound)),
            Some(Node::Folder) => Err(Stop::Fault(folder)),
            Some(Node::File(contents)) => Ok(contents),
            Some(Node::Link(_)) => Err(Stop::Fault(Fault::TooDeep)),
        }
    }

    /// The names of a temporary file's path, if the file is still there.
    #[tactic(auto, unfolding(crate::specs::LedTo::kept))]
    pub(crate) fn kept(&self, path: &str) -> Result<Path, Stop>
        ensures ok { IfOk result (λ names. kept self.now path.now ≡ Ok names) }
        ensures err { IfErr result (λ stop. Stops stop (kept self.now path.now)) }
    {
        let nodes = self.nodes();
        let names = Path::of(nodes.alloc(), path)?;
        let node = nodes.node(&names);
        suited(Wanted::File, node, names)
    }

    /// A copy of the file or link at a path, its bytes shared.
    #[tactic(auto, unfolding(crate::specs::LedTo::linked))]
    pub(crate) fn linked(&self, path: &str) -> Result<Node, Stop>
        ensures ok { IfOk result (λ node. linked self.now path.now ≡ Ok node) }
        ensures err { IfErr result (λ stop. Stops stop (linked self.now path.now)) }
    {
        let (_, node) = self.place(path)?;
        match node {
            None => Err(Stop::Fault(Fault::NotFound)),
            Some(Node::Folder) => Err(Stop::Fault(Fault::IsADirectory)),
            Some(node) => Ok(node.clone()?),
        }
    }

    /// The names of an empty folder other than the top.
    #[tactic(auto, unfolding(crate::specs::LedTo::emptied, crate::specs::LedTo::folder))]
    pub(crate) fn emptied(&self, path: &str) -> Result<Path, Stop>
        ensures ok { IfOk result (λ names. emptied self.now path.now ≡ Ok names) }
        ensures err { IfErr result (λ stop. Stops stop (emptied self.now path.now)) }
    {
        let names = self.at(path, Wanted::Folder)?;
        if names.is_top() || !self.nodes().is_empty_at(&names) {
            return Err(Stop::Fault(Fault::NotEmpty));
        }
        Ok(names)
    }

    /// How many of the names lead to the deepest folder, from which the missing ones can be made.
    pub(crate) fn made_from(&self, names: &Path) -> Result<usize, Stop>
        ensures ok { IfOk result (λ from. dirs_fault self.now [] names.now ≡ None) }
        ensures from { IfOk result (MakesFrom self.now names.now) }
        ensures err { IfErr result (λ stop. Blocks stop (dirs_fault self.now [] names.now)) }
    {
        let (count, node) = self.nodes().deepest(names)?;
        match dirs_past(node, names.len() - count) {
            None => Ok(count),
            Some(fault) => Err(Stop::Fault(fault)),
        }
    }
}
