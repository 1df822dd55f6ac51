//! All that is on a disk.
ghost use Rattle.std.specs.Prelude.{◌≡◌, IfOk};
ghost use Rattle.cacache_disk.specs.{AllStanding.{path_text, told_node, all_standing}, Tree.{Rooted}};

use crate::disk::Disk;
use crate::node::Node;
use crate::nodes::Nodes;
use crate::path::Path;
use cacache_core::bytes::Bytes;
use cacache_core::paths::join;
use cacache_core::text::Text;
use std::alloc::{AllocError, Global};

/// What is at a path.
#[derive(Debug, Drop)]
pub enum TreeNode {
    /// A folder; what it holds are items of their own.
    Folder,
    /// The bytes of a file, which the disk shares.
    File(Bytes),
    /// The text of the path that a link leads to.
    Link(Text),
}

/// A path, and what is there.
#[derive(Debug, Drop)]
pub struct TreeItem {
    /// `/` before each name from the top folder down, and alone for the top folder.
    pub path: Text,
    /// What is there.
    pub node: TreeNode,
}

impl Node {
    /// What others see of it, its bytes shared.
    fn told(&self) -> Result<TreeNode, AllocError>
        ensures { IfOk result (λ node. node ≡ told_node self.now) }
    {
        match self {
            Node::Folder => Ok(TreeNode::Folder),
            Node::File(contents) => Ok(TreeNode::File(contents.bytes()?)),
            Node::Link(target) => Ok(TreeNode::Link(target.clone()?)),
        }
    }
}

impl Path {
    /// Its text.
    fn text(&self, alloc: Global) -> Result<Text, AllocError>
        ensures { IfOk result (λ text. text ≡ path_text self.now) }
    {
        let mut text = Text::from_str(alloc, "/")?;
        for i in 0..self.len() {
            let name = self.name(i)?.into_text();
            text = join(alloc, text.as_str(), name.as_str())?;
        }
        Ok(text)
    }
}

impl Nodes {
    /// All nodes, in the order of their paths.
    fn standing(&self) -> Result<Vec<TreeItem>, AllocError>
        ensures { IfOk result (λ all. all.items ≡ all_standing self.now) }
    {
        let mut all = Vec::new(self.alloc);
        for (path, node) in self.nodes.iter() {
            let path = path.text(self.alloc)?;
            let node = node.told()?;
            all.push(TreeItem { path, node })?;
        }
        Ok(all)
    }
}

impl Disk {
    /// All that is on the disk, the top folder too, in the order of paths: name by name, and each
    /// folder before what it holds. No byte of a file is copied.
    pub fn standing(&self) -> Result<Vec<TreeItem>, AllocError>
        ensures all { IfOk result (λ all. all.items ≡ all_standing self.now) }
        ensures rooted { Rooted self.now }
    {
        self.nodes().standing()
    }
}
