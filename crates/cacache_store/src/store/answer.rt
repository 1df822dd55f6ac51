//! The answers of a store.
ghost use Rattle.std.specs.{Prelude.{◌≡◌, IfOk}, Cmp.Lexicographic.{pointwise, lists_per}};

use crate::store::step::Step;
use cacache_core::bytes::Bytes;
use cacache_core::errors::Fault;
use cacache_core::text::Text;
use std::alloc::{AllocError, Global};
use std::marker::Model;

/// The kind of thing that a name in a folder refers to.
#[derive(Clone, Copy, Debug, PartialEq, Eq)]
pub enum Kind {
    /// A file.
    File,
    /// A folder.
    Folder,
    /// A symbolic link, whatever its target is.
    Link,
}

/// A name in a folder, and the kind of thing that it refers to.
#[derive(Debug, Drop, PartialEq)]
pub struct Name {
    /// The name, without the folder's path.
    pub name: Text,
    /// The kind of thing that it refers to.
    pub kind: Kind,
}

/// The names in a folder. Contracts see the list.
#[derive(Debug, Drop)]
pub struct Listing {
    names: Vec<Name>,
}

impl Model for Listing {
    ghost use Rattle.std.specs.Prelude.{List};
    ghost use Rattle.cacache_store.specs.declared.store.answer.Name.{Name};

    ghost Value = { List Name };

    ghost view = { λ l. l.names.items };
}

impl Listing {
    /// Makes a listing of these names. Allocates nothing.
    pub fn new(names: Vec<Name>) -> Listing
        ensures { result ≡ names.items }
    {
        Listing { names }
    }

    /// A copy of the listing.
    pub fn copy(&self, alloc: Global) -> Result<Listing, AllocError>
        ensures { IfOk result (λ listing. listing ≡ self.now) }
    {
        let mut names: Vec<Name> = Vec::with_capacity(alloc, self.names.len())?;
        for name in &self.names {
            names.push(Name {
                name: name.name.clone()?,
                kind: name.kind,
            })?;
        }
        Ok(Listing { names })
    }

    /// The names as a slice.
    pub fn as_slice(&self) -> &[Name]
        ensures { result.now ≡ self.now }
    {
        self.names.as_slice()
    }

    /// Returns the names as a vector. Allocates nothing.
    pub fn into_vec(self) -> Vec<Name>
        ensures { result.items ≡ self }
    {
        let Listing { names } = self;
        names
    }
}

impl PartialEq for Listing {
    ghost use Rattle.cacache_store.specs.contracts.store.answer.NamePartialEq.TheImpl.Laws as same_name;

    ghost eq = { pointwise ⟦<Name as PartialEq>⟧.eq };

    ghost laws = { lists_per same_name.laws-law };

    fn eq(&self, other: &Listing) -> bool {
        self.as_slice() == other.as_slice()
    }
}

/// The answer to a step.
#[derive(Debug, Drop, PartialEq)]
pub enum Answer<F, T> {
    /// The step is done.
    Done,
    /// The temporary file that was made.
    Temp(T),
    /// The temporary file, and how many of the bytes were written.
    Wrote(T, usize),
    /// How many bytes were appended or copied.
    Took(usize),
    /// The bytes of a file.
    Bytes(Bytes),
    /// The file that was opened.
    File(F),
    /// The open file, and the bytes read. There are none only at the end of the file, or if none were requested.
    Got(F, Bytes),
    /// Whether there is a file or folder.
    There(bool),
    /// The length of a file in bytes.
    Length(u64),
    /// The names in a folder.
    Names(Listing),
    /// The temporary file. Its bytes would survive a loss of power.
    Synced(T),
    /// Why the step failed. A file that was passed to the step is dropped.
    Failed(Fault),
    /// The step, returned because an allocation failed. Nothing changed.
    NoMemory(Step<F, T>),
}
