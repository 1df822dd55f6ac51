//! What is at a path.
ghost use Rattle.std.specs.Prelude.{◌≡◌, ◌++◌, Some, OnOk, OnErr};
ghost use Rattle.cacache_disk.specs.{declared.node.Node.TheVariants.{File}, Tree.{bytes_of, kind_of}};

use crate::contents::Contents;
use cacache_core::bytes::Bytes;
use cacache_core::text::Text;
use cacache_store::store::Kind;
use std::alloc::AllocError;

/// What is at a path of a disk.
#[derive(Debug, Drop)]
pub enum Node {
    /// A folder; the names in it are paths of their own.
    Folder,
    /// A file with its bytes.
    File(Contents),
    /// A link: the text of the path that it leads to.
    Link(Text),
}

impl Node {
    /// What a listing says of it.
    pub(crate) fn kind(&self) -> Kind
        ensures { result ≡ kind_of self.now }
    {
        match self {
            Node::Folder => Kind::Folder,
            Node::File(_) => Kind::File,
            Node::Link(_) => Kind::Link,
        }
    }

    /// Adds more bytes at the end of a file's, in place if nobody shares those. Anything else
    /// becomes a file of them.
    pub(crate) fn lengthen(&mut self, more: &Bytes) -> Result<(), AllocError>
        ensures ok { OnOk result (self.new ≡ File (bytes_of (Some self.old) ++ more.now)) }
        ensures err { OnErr result (self.new ≡ self.old) }
    {
        if let Node::File(old) = self {
            return old.extend(more.as_slice());
        }
        *self = Node::File(Contents::of(more.share()?)?);
        Ok(())
    }
}

impl Clone for Node {
    ghost is_clone = { λ m n. n ≡ m };

    fn clone(&self) -> Result<Node, AllocError> {
        match self {
            Node::Folder => Ok(Node::Folder),
            Node::File(contents) => Ok(Node::File(contents.share()?)),
            Node::Link(target) => Ok(Node::Link(target.clone()?)),
        }
    }
}
