//! Bytes that are shared instead of copied.
ghost use Rattle.std.specs.{Prelude.{◌≡◌, ◌≤◌, ◌==◌, ◌++◌, ℕ, List, IfOk, OnOk, OnErr, length, take, drop}, Arc.{arc_value}, Bool.{nat_eq}, Cmp.Lexicographic.{pointwise, nat_list_eq_equiv}};
ghost use Rattle.std.specs.Cmp;

use std::alloc::{AllocError, Global};
use std::marker::Model;
use std::sync::Arc;

/// A window into a shared vector of bytes. Contracts see the list of the bytes in the window.
#[derive(Debug, Drop)]
pub struct Bytes {
    shared: Arc<Vec<u8>, Global>,
    from: usize,
    to: usize,
}

impl Model for Bytes {
    ghost use Rattle.std.specs.Prelude.{ℕ, List, ◌≤◌, take, drop, length};
    ghost use Rattle.std.specs.Arc.{arc_value};

    ghost Value = { List ℕ };

    ghost view = { λ b. drop b.from (take b.to (arc_value b.shared).items) };

    ghost invariant = { λ b. (b.from ≤ b.to) × (b.to ≤ length (arc_value b.shared).items) };
}

impl Bytes {
    /// Moves the vector's bytes in. Allocates only the count of owners.
    pub fn new(alloc: Global, bytes: Vec<u8>) -> Result<Bytes, AllocError>
        ensures { IfOk result (λ b. b ≡ bytes.items) }
    {
        let to = bytes.len();
        Ok(Bytes::front_of(Arc::new(alloc, bytes)?, to))
    }

    /// The first `to` bytes of a shared vector.
    pub fn front_of(shared: Arc<Vec<u8>, Global>, to: usize) -> Bytes
        requires { to ≤ length (arc_value shared).items }
        ensures { result ≡ take to (arc_value shared).items }
    {
        Bytes {
            shared,
            from: 0,
            to,
        }
    }

    /// The same bytes with one more owner. Copies none of them.
    pub fn share(&self) -> Result<Bytes, AllocError>
        ensures { IfOk result (λ b. b ≡ self.now) }
    {
        Ok(Bytes {
            shared: Arc::try_clone(&self.shared)?,
            from: self.from,
            to: self.to,
        })
    }

    /// The bytes after the first `count`.
    pub fn rest(self, count: usize) -> Bytes
        requires { count ≤ length self }
        ensures { result ≡ drop count self }
    {
        let Bytes { shared, from, to } = self;
        Bytes {
            shared,
            from: from + count,
            to,
        }
    }

    /// The first `count` bytes.
    pub fn front(self, count: usize) -> Bytes
        requires { count ≤ length self }
        ensures { result ≡ take count self }
    {
        let Bytes {
            shared,
            from,
            to: _,
        } = self;
        Bytes {
            shared,
            from,
            to: from + count,
        }
    }

    /// How many bytes there are.
    pub fn len(&self) -> usize
        ensures { result ≡ length self.now }
    {
        self.to - self.from
    }

    /// Whether there are none.
    pub fn is_empty(&self) -> bool
        ensures { result ≡ (length self.now == 0) }
    {
        self.from == self.to
    }

    /// The bytes as a slice.
    pub fn as_slice(&self) -> &[u8]
        ensures { result.now ≡ self.now }
    {
        &self.shared[self.from..self.to]
    }

    /// Appends more bytes. They grow in place if nobody else owns the vector inside; otherwise they
    /// are copied.
    pub fn extend(&mut self, more: &[u8]) -> Result<(), AllocError>
        ensures ok { OnOk result (self.new ≡ self.old ++ more.now) }
        ensures err { OnErr result (self.new ≡ self.old) }
    {
        if let Some(bytes) = Arc::get_mut(&mut self.shared) {
            bytes.truncate(self.to);
            bytes.extend_from_slice(more)?;
            self.to = bytes.len();
            return Ok(());
        }
        *self = self.copied_with(more)?;
        Ok(())
    }

    /// A copy with more bytes appended.
    fn copied_with(&self, more: &[u8]) -> Result<Bytes, AllocError>
        ensures { IfOk result (λ all. all ≡ self.now ++ more.now) }
    {
        let alloc = *self.shared.allocator();
        let mut all = Vec::new(alloc);
        all.extend_from_slice(self.as_slice())?;
        all.extend_from_slice(more)?;
        Bytes::new(alloc, all)
    }

    /// The shared vector of these bytes: the one inside if the window covers all of it, otherwise a
    /// copy with one owner.
    pub fn into_shared(self) -> Result<Arc<Vec<u8>, Global>, AllocError>
        ensures { IfOk result (λ shared. (arc_value shared).items ≡ self) }
    {
        if self.from > 0 || self.to < self.shared.len() {
            let alloc = *self.shared.allocator();
            return Ok(Arc::new(alloc, Vec::from_slice(alloc, self.as_slice())?)?);
        }
        let Bytes {
            shared,
            from: _,
            to: _,
        } = self;
        Ok(shared)
    }

    /// The bytes as a vector. It is the one inside, moved, if nobody else owns it and the window
    /// covers all of it; otherwise it is a copy.
    pub fn into_vec(self, alloc: Global) -> Result<Vec<u8>, AllocError>
        ensures { IfOk result (λ v. v.items ≡ self) }
    {
        if self.from != 0 || self.to != self.shared.len() {
            return Vec::from_slice(alloc, self.as_slice());
        }
        let Bytes {
            shared,
            from: _,
            to: _,
        } = self;
        match Arc::try_unwrap(shared) {
            Ok(bytes) => Ok(bytes),
            Err(shared) => Vec::from_slice(alloc, shared.as_slice()),
        }
    }
}

impl PartialEq for Bytes {
    ghost eq = { pointwise nat_eq };

    ghost laws = { Cmp.partial_equiv_from_equiv nat_list_eq_equiv };

    fn eq(&self, other: &Bytes) -> bool {
        self.as_slice() == other.as_slice()
    }
}

impl Eq for Bytes {
    ghost laws = { nat_list_eq_equiv };
}
