//! The nodes of a disk, by their paths.
ghost use Rattle.std.specs.Prelude.{◌≡◌, ◌==◌, IfOk, OnOk, OnErr, length, option_copied};
ghost use Rattle.std.specs.FinMap as map;
ghost use Rattle.cacache_disk.specs.{declared.node.Node.TheVariants.{File}, Tree.{look, put, cut, listing}, Apply.{lengthened}};
ghost use Rattle.cacache_store.specs.Plain.{AreProperNames};

pub(crate) mod standing;

use crate::contents::Contents;
use crate::name::ProperNames;
use crate::node::Node;
use crate::path::Path;
use cacache_core::bytes::Bytes;
use cacache_store::store::Listing;
use std::alloc::{AllocError, Global};
use std::collections::BTreeMap;
use std::marker::Model;

/// The nodes of a disk, by their paths. Contracts see the tree: the node at each path.
#[derive(Debug, Drop)]
pub struct Nodes {
    alloc: Global,
    nodes: BTreeMap<Path, Node>,
}

impl Model for Nodes {
    ghost use Rattle.std.specs.FinMap as map;
    ghost use Rattle.cacache_disk.specs.Tree.{Tree};

    ghost Value = { Tree };

    ghost use Rattle.std.specs.Coded.{coded_list, coded_ℕ};
    ghost use Rattle.cacache_disk.specs.contracts.node.Node as node;

    ghost coded = { map.code (coded_list (coded_list coded_ℕ)) node.the_row.coded };

    ghost view = { λ d. map.from_entries d.nodes.entries };
}

impl Nodes {
    /// No nodes.
    pub fn new(alloc: Global) -> Nodes
        ensures { result ≡ map.empty }
    {
        Nodes {
            alloc,
            nodes: BTreeMap::new(alloc),
        }
    }

    /// Where its memory comes from.
    pub fn alloc(&self) -> Global {
        self.alloc
    }

    /// What is at the path.
    pub fn node(&self, path: &Path) -> Option<&Node>
        ensures { option_copied result ≡ look self.now path.now }
    {
        self.nodes.get(path)
    }

    /// Puts the node at the path, in place of what is there.
    pub fn put(&mut self, path: Path, node: Node) -> Result<(), AllocError>
        ensures ok { OnOk result (self.new ≡ put self.old path node) }
        ensures err { OnErr result (self.new ≡ self.old) }
    {
        self.nodes.insert(path, node)?;
        Ok(())
    }

    /// Puts a file with these bytes at the path, in place of what is there.
    fn put_file(&mut self, path: Path, bytes: Bytes) -> Result<(), AllocError>
        ensures ok { OnOk result (self.new ≡ put self.old path (File bytes)) }
        ensures err { OnErr result (self.new ≡ self.old) }
    {
        let contents = Contents::of(bytes)?;
        self.put(path, Node::File(contents))
    }

    /// Adds more bytes at the end of the file at the path, in place if nobody shares its bytes.
    pub(crate) fn lengthen(&mut self, path: Path, more: Bytes) -> Result<(), AllocError>
        ensures ok { OnOk result (self.new ≡ lengthened self.old path more) }
        ensures err { OnErr result (self.new ≡ self.old) }
    {
        if let Some(node) = self.nodes.get_mut(&path) {
            return node.lengthen(&more);
        }
        self.put_file(path, more)
    }

    /// Takes away what is at the path.
    pub(crate) fn cut(&mut self, path: &Path)
        ensures { self.new ≡ cut self.old path.now }
    {
        self.nodes.remove(path);
    }

    /// The names in a folder and what is there, in the order of the names' bytes.
    pub(crate) fn listing(&self, folder: &Path) -> Result<Listing, AllocError>
        ensures same { IfOk result (λ names. names ≡ listing self.now folder.now) }
        ensures proper { IfOk result (λ names. AreProperNames names) }
    {
        let mut names = ProperNames::new(self.alloc);
        for (path, node) in self.nodes.range(folder..) {
            if !path.is_below(folder) {
                return Ok(names.into_listing());
            }
            if path.is_in(folder) {
                let name = path.name(folder.len())?;
                let kind = node.kind();
                names.push(name, kind)?;
            }
        }
        Ok(names.into_listing())
    }

    /// The paths at which something is, in their order.
    pub fn paths(&self) -> Result<Vec<Path>, AllocError>
        ensures { IfOk result (λ paths. paths.items ≡ map.keys self.now) }
    {
        let mut paths = Vec::new(self.alloc);
        for path in self.nodes.keys() {
            paths.push(path.clone()?)?;
        }
        Ok(paths)
    }

    /// Whether a folder has no names.
    pub(crate) fn is_empty_at(&self, folder: &Path) -> bool
        ensures { result ≡ (length (listing self.now folder.now) == 0) }
    {
        for (path, _) in self.nodes.range(folder..) {
            if !path.is_below(folder) {
                return true;
            }
            if path.is_in(folder) {
                return false;
            }
        }
        true
    }
}

impl Clone for Nodes {
    ghost is_clone = { λ t u. u ≡ t };

    fn clone(&self) -> Result<Nodes, AllocError> {
        Ok(Nodes {
            alloc: self.alloc,
            nodes: self.nodes.clone()?,
        })
    }
}
