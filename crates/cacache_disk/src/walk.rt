//! The folders on the way of a path.
ghost use Rattle.std.specs.Prelude.{◌≡◌, IfOk, OnOk, OnErr, take, drop};
ghost use Rattle.cacache_disk.specs.{Tree.{Rooted}, Deepest.{IsDeepest, way_past, dirs_past}, Apply.{make_some}, Plans.{with_file}};

use crate::contents::Contents;
use crate::node::Node;
use crate::nodes::Nodes;
use crate::path::Path;
use cacache_core::errors::Fault;
use std::alloc::AllocError;

/// Why the folders don't lead on from the deepest node of a path, if so many names are left.
pub(crate) fn way_past(node: &Node, left: usize) -> Option<Fault>
    ensures { result ≡ way_past node.now left }
{
    match node {
        _ if left == 0 => None,
        Node::Folder if left == 1 => None,
        Node::Folder => Some(Fault::NotFound),
        Node::File(_) | Node::Link(_) => Some(Fault::NotADirectory),
    }
}

/// Why no folders can be made from the deepest node of a path on, if so many names are left.
pub(crate) fn dirs_past(node: &Node, left: usize) -> Option<Fault>
    ensures { result ≡ dirs_past node.now left }
{
    match node {
        Node::Folder => None,
        Node::File(_) | Node::Link(_) if left == 0 => Some(Fault::AlreadyExists),
        Node::File(_) | Node::Link(_) => Some(Fault::NotADirectory),
    }
}

impl Nodes {
    /// The deepest node on a path, and how many of the path's names lead there. If there is a node
    /// at the path, one lookup finds it; from a missing one it climbs.
    pub(crate) fn deepest(&self, path: &Path) -> Result<(usize, &Node), AllocError>
        requires { Rooted self.now }
        ensures { IfOk result (λ r. IsDeepest self.now path.now r.0 r.1.now) }
    {
        if let Some(node) = self.node(path) {
            return Ok((path.len(), node));
        }
        let mut above = path.clone()?;
        for i in 0..path.len() {
            above.pop();
            if let Some(node) = self.node(&above) {
                return Ok((path.len() - i - 1, node));
            }
        }
        unreachable!()
    }

    /// Puts a file at its path, if one is given.
    fn put_last(&mut self, file: Option<(Path, Contents)>) -> Result<(), AllocError>
        ensures ok { OnOk result (self.new ≡ with_file file self.old) }
        ensures err { OnErr result (self.new ≡ self.old) }
    {
        match file {
            None => Ok(()),
            Some((path, bytes)) => self.put(path, Node::File(bytes)),
        }
    }

    /// Makes up to `most` of the missing folders, from the name at `from` on, and then puts a file,
    /// if one is given. If memory is refused, nothing changes.
    pub(crate) fn make_from(
        &mut self,
        path: &Path,
        from: usize,
        most: usize,
        file: Option<(Path, Contents)>,
    ) -> Result<(), AllocError>
        ensures ok { OnOk result (self.new
            ≡ with_file file (make_some self.old (take from path.now) (drop from path.now) most)) }
        ensures err { OnErr result (self.new ≡ self.old) }
    {
        if from >= path.len() {
            return self.put_last(file);
        }
        let alloc = self.alloc();
        let here = path.front(alloc, from + 1)?;
        if let Some(_) = self.node(&here) {
            return self.make_from(path, from + 1, most, file);
        }
        if most == 0 {
            return self.put_last(file);
        }
        self.put(path.front(alloc, from + 1)?, Node::Folder)?;
        match self.make_from(path, from + 1, most - 1, file) {
            Ok(()) => Ok(()),
            Err(error) => {
                self.cut(&here);
                Err(error)
            }
        }
    }
}
