//! The bytes of a file.
ghost use Rattle.std.specs.{Prelude.{◌≡◌, ◌++◌, [], IfOk, OnOk, OnErr, length}, Arc.{arc_value}};

use cacache_core::bytes::Bytes;
use std::alloc::{AllocError, Global};
use std::marker::Model;
use std::sync::Arc;

/// All bytes of a file, which several owners may share. Contracts see the list of the bytes.
#[derive(Debug, Drop)]
pub struct Contents {
    shared: Arc<Vec<u8>, Global>,
}

impl Model for Contents {
    ghost use Rattle.std.specs.Prelude.{ℕ, List};
    ghost use Rattle.std.specs.Arc.{arc_value};

    ghost Value = { List ℕ };

    ghost view = { λ c. (arc_value c.shared).items };
}

impl Contents {
    /// No bytes.
    pub(crate) fn new(alloc: Global) -> Result<Contents, AllocError>
        ensures { IfOk result (λ contents. contents ≡ []) }
    {
        Ok(Contents {
            shared: Arc::new(alloc, Vec::new(alloc))?,
        })
    }

    /// These bytes. If they are all of a vector they are shared, otherwise copied.
    pub fn of(bytes: Bytes) -> Result<Contents, AllocError>
        ensures { IfOk result (λ contents. contents ≡ bytes) }
    {
        Ok(Contents {
            shared: bytes.into_shared()?,
        })
    }

    /// How many bytes there are.
    pub fn len(&self) -> usize
        ensures { result ≡ length self.now }
    {
        self.shared.len()
    }

    /// The bytes as a slice.
    pub fn as_slice(&self) -> &[u8]
        ensures { result.now ≡ self.now }
    {
        self.shared.as_slice()
    }

    /// The shared vector of the bytes.
    pub(crate) fn shared(&self) -> &Arc<Vec<u8>, Global>
        ensures { (arc_value result.now).items ≡ self.now }
    {
        &self.shared
    }

    /// The same bytes with one more owner.
    pub fn share(&self) -> Result<Contents, AllocError>
        ensures { IfOk result (λ contents. contents ≡ self.now) }
    {
        Ok(Contents {
            shared: Arc::try_clone(&self.shared)?,
        })
    }

    /// The same bytes with one more owner, as bytes to read.
    pub fn bytes(&self) -> Result<Bytes, AllocError>
        ensures { IfOk result (λ bytes. bytes ≡ self.now) }
    {
        let count = self.len();
        Ok(Bytes::front_of(Arc::try_clone(&self.shared)?, count))
    }

    /// Adds more bytes at the end. They grow in place if nobody else owns them, otherwise as a
    /// copy.
    pub(crate) fn extend(&mut self, more: &[u8]) -> Result<(), AllocError>
        ensures ok { OnOk result (self.new ≡ self.old ++ more.now) }
        ensures err { OnErr result (self.new ≡ self.old) }
    {
        if let Some(bytes) = Arc::get_mut(&mut self.shared) {
            bytes.extend_from_slice(more)?;
            return Ok(());
        }
        self.shared = self.copied_with(more)?;
        Ok(())
    }

    /// A copy with more bytes at its end.
    fn copied_with(&self, more: &[u8]) -> Result<Arc<Vec<u8>, Global>, AllocError>
        ensures { IfOk result (λ all. (arc_value all).items ≡ self.now ++ more.now) }
    {
        let alloc = *self.shared.allocator();
        let mut all = Vec::new(alloc);
        all.extend_from_slice(self.shared.as_slice())?;
        all.extend_from_slice(more)?;
        Ok(Arc::new(alloc, all)?)
    }
}

impl Clone for Contents {
    ghost is_clone = { λ c d. d ≡ c };

    fn clone(&self) -> Result<Contents, AllocError> {
        self.share()
    }
}
