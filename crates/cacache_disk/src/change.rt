//! What a step is about to do.
ghost use Rattle.std.specs.Prelude.{◌≡◌, OnOk, OnErr};
ghost use Rattle.cacache_disk.specs.{declared.node.Node.TheVariants.{File}, Tree.{put, cut}, Plans.{changed}};

use crate::contents::Contents;
use crate::node::Node;
use crate::nodes::Nodes;
use crate::path::Path;
use cacache_core::bytes::Bytes;
use cacache_store::store::{Answer, PlainFile, PlainTemp};
use std::alloc::AllocError;

/// What a step changes.
#[derive(Drop)]
pub(crate) enum Change {
    Nothing,
    /// Puts a node at the path, in place of what is there.
    Put(Path, Node),
    /// Puts bytes at the end of the file at the path, which is made if missing.
    Append(Path, Bytes),
    /// Moves the file at the first path to the second, with these bytes.
    Move(Path, Path, Contents),
    /// Makes, from the name at the first number on, at most so many of the path's missing folders,
    /// and then puts the file, if there is one.
    MakeFolders(Path, usize, usize, Option<(Path, Contents)>),
    /// Removes what is at the path.
    Remove(Path),
}

/// What a step answers if it succeeds, and what it changes then.
#[derive(Drop)]
pub(crate) struct Plan {
    pub(crate) answer: Answer<PlainFile, PlainTemp>,
    pub(crate) change: Change,
}

impl Plan {
    /// An answer, and what changes with it.
    pub(crate) fn of(answer: Answer<PlainFile, PlainTemp>, change: Change) -> Plan
        ensures { result ≡ record { answer = answer; change = change } }
    {
        Plan { answer, change }
    }
}

impl Nodes {
    /// A file with these bytes at the path `to`, and nothing at the path `from`.
    fn moved(&mut self, from: &Path, to: Path, bytes: Contents) -> Result<(), AllocError>
        ensures ok { OnOk result (self.new ≡ put (cut self.old from.now) to (File bytes)) }
        ensures err { OnErr result (self.new ≡ self.old) }
    {
        let stays = to == *from;
        self.put(to, Node::File(bytes))?;
        if !stays {
            self.cut(from);
        }
        Ok(())
    }

    /// Makes the change. If memory is refused, nothing changes.
    pub(crate) fn commit(&mut self, change: Change) -> Result<(), AllocError>
        ensures ok { OnOk result (self.new ≡ changed self.old change) }
        ensures err { OnErr result (self.new ≡ self.old) }
    {
        match change {
            Change::Nothing => Ok(()),
            Change::Put(path, node) => self.put(path, node),
            Change::Append(path, bytes) => self.lengthen(path, bytes),
            Change::Move(from, to, bytes) => self.moved(&from, to, bytes),
            Change::MakeFolders(path, from, most, file) => {
                self.make_from(&path, from, most, file)
            }
            Change::Remove(path) => {
                self.cut(&path);
                Ok(())
            }
        }
    }
}
