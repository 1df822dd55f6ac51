//! How far files are fixed.
ghost use Rattle.std.specs.Prelude.{◌≡◌, Some, length, option_copied};
ghost use Rattle.cacache_disk.specs.{declared.node.Node.TheVariants.{File}, Tree.{bytes_of}};
ghost use Rattle.cacache_loss.specs.Fixing.{unsynced, synced, opened_if, refixed, same_node, same_thing};

use cacache_disk::{Contents, Node};
use std::alloc::AllocError;

/// How far a file is fixed.
#[derive(Clone, Copy, Debug)]
pub struct Fixing {
    /// How many of its first bytes are.
    pub kept: usize,
    /// Whether all are: nothing was written since it was synced.
    pub whole: bool,
}

/// What is at a path, and how far it is fixed.
#[derive(Debug, Drop)]
pub struct Place {
    /// The node, if there is one.
    pub node: Option<Node>,
    /// How far its file is fixed.
    pub fixing: Fixing,
}

impl Fixing {
    /// What is fixed of a file that was never synced.
    pub(crate) fn unsynced() -> Fixing
        ensures { result ≡ unsynced }
    {
        Fixing {
            kept: 0,
            whole: false,
        }
    }

    /// What is fixed of a file that is synced, if one is here.
    pub(crate) fn synced(node: Option<&Node>) -> Fixing
        ensures { result ≡ synced (bytes_of (option_copied node.entry)) }
    {
        Fixing {
            kept: count(node),
            whole: true,
        }
    }

    /// After a step that may have written to the file.
    pub(crate) fn opened_if(self, writes: bool) -> Fixing
        ensures { result ≡ opened_if writes self }
    {
        if writes {
            return Fixing {
                kept: self.kept,
                whole: false,
            };
        }
        self
    }

    /// After a step that wrote the file anew, kept its bytes, put more after them, or put another
    /// file in its place.
    pub(crate) fn refixed(self, rewrites: bool, same: bool, thing: bool) -> Fixing
        ensures { result ≡ refixed rewrites same thing self }
    {
        if rewrites {
            return Fixing::unsynced();
        }
        if same {
            return self;
        }
        if thing {
            return self.opened_if(true);
        }
        Fixing::unsynced()
    }
}

/// How many bytes a file has, none for anything else.
fn count(node: Option<&Node>) -> usize
    ensures { result ≡ length (bytes_of (option_copied node.entry)) }
{
    match node {
        Some(Node::File(bytes)) => bytes.len(),
        None | Some(Node::Folder) | Some(Node::Link(_)) => 0,
    }
}

/// Whether a node is a file with these bytes.
fn has_bytes(node: Option<&Node>, bytes: &Contents) -> bool
    ensures { result ≡ same_node (Some (File bytes.now)) (option_copied node.entry) }
{
    match node {
        Some(Node::File(here)) => bytes.as_slice() == here.as_slice(),
        None | Some(Node::Folder) | Some(Node::Link(_)) => false,
    }
}

/// Whether a node is the same, with the same bytes.
pub(crate) fn same_node(old: Option<&Node>, new: Option<&Node>) -> bool
    ensures { result ≡ same_node (option_copied old.entry) (option_copied new.entry) }
{
    match old {
        None => new.is_none(),
        Some(Node::File(bytes)) => has_bytes(new, bytes),
        Some(Node::Folder) => match new {
            Some(Node::Folder) => true,
            None | Some(Node::File(_)) | Some(Node::Link(_)) => false,
        },
        Some(Node::Link(target)) => match new {
            Some(Node::Link(here)) => target.as_str() == here.as_str(),
            None | Some(Node::Folder) | Some(Node::File(_)) => false,
        },
    }
}

/// Whether a name still stands for the same thing, whatever was written to it.
pub(crate) fn same_thing(old: Option<&Node>, new: Option<&Node>) -> bool
    ensures { result ≡ same_thing (option_copied old.entry) (option_copied new.entry) }
{
    match old {
        Some(Node::File(_)) => match new {
            Some(Node::File(_)) => true,
            None | Some(Node::Folder) | Some(Node::Link(_)) => false,
        },
        None | Some(Node::Folder) | Some(Node::Link(_)) => same_node(old, new),
    }
}

impl Clone for Place {
    ghost is_clone = { λ p q. q ≡ p };

    fn clone(&self) -> Result<Place, AllocError> {
        let node = match &self.node {
            Some(node) => Some(node.clone()?),
            None => None,
        };
        Ok(Place {
            node,
            fixing: self.fixing,
        })
    }
}
