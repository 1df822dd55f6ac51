//! Names of a path.
ghost use Rattle.std.specs.{Prelude.{◌≡◌, ◌++◌, ◌∷◌, [], Some, OnOk, OnErr}, Bool.{nat_eq}, Ordering.{nat_cmp}, Cmp.Lexicographic.{pointwise, slice_cmp, texts_ties, nat_list_eq_equiv, nat_list_cmp_total, texts_po}};
ghost use Rattle.std.proofs.Common.{refl};
ghost use Rattle.std.specs.Cmp;
ghost use Rattle.cacache_core.specs.Paths.{IsProperName};
ghost use Rattle.cacache_store.specs.Plain.{AreProperNames};

use cacache_core::text::Text;
use cacache_store::store::{Kind, Listing, Name};
use std::alloc::{AllocError, Global};
use std::cmp::Ordering;
use std::marker::Model;

/// A name that stands for one thing in its folder. Contracts see its bytes.
#[derive(Debug, Drop)]
pub(crate) struct ProperName {
    text: Text,
}

impl Model for ProperName {
    ghost use Rattle.std.specs.Prelude.{ℕ, List};
    ghost use Rattle.cacache_core.specs.Paths.{IsProperName};

    ghost Value = { List ℕ };

    ghost view = { λ n. n.text };

    ghost invariant = { λ n. IsProperName n.text };
}

impl ProperName {
    /// The name of a text.
    pub(crate) fn new(text: Text) -> ProperName
        requires { IsProperName text }
        ensures { result ≡ text }
    {
        ProperName { text }
    }

    /// Its text.
    pub(crate) fn into_text(self) -> Text
        ensures same { result ≡ self }
        ensures proper { IsProperName result }
    {
        let ProperName { text } = self;
        text
    }
}

impl Clone for ProperName {
    ghost is_clone = { λ m n. n ≡ m };

    fn clone(&self) -> Result<ProperName, AllocError> {
        Ok(ProperName::new(self.text.clone()?))
    }
}

impl PartialEq for ProperName {
    ghost eq = { pointwise nat_eq };

    ghost laws = { Cmp.partial_equiv_from_equiv nat_list_eq_equiv };

    fn eq(&self, other: &ProperName) -> bool {
        self.text == other.text
    }
}

impl Eq for ProperName {
    ghost laws = { nat_list_eq_equiv };
}

impl PartialOrd for ProperName {
    ghost partial_cmp = { λ xs ys. Some (slice_cmp nat_cmp xs ys) };

    ghost laws = { texts_po };

    fn partial_cmp(&self, other: &ProperName) -> Option<Ordering> {
        self.text.partial_cmp(&other.text)
    }
}

impl Ord for ProperName {
    ghost cmp = { slice_cmp nat_cmp };

    ghost total = { nat_list_cmp_total };

    ghost matches_partial_cmp = { λ xs ys. refl };

    ghost matches_eq = { texts_ties };

    fn cmp(&self, other: &ProperName) -> Ordering {
        self.text.cmp(&other.text)
    }
}

/// The proper names in a folder, and what is at them. Contracts see the list.
#[derive(Drop)]
pub(crate) struct ProperNames {
    names: Vec<Name>,
}

impl Model for ProperNames {
    ghost use Rattle.std.specs.Prelude.{List};
    ghost use Rattle.cacache_store.specs.Plain.{AreProperNames};
    ghost use Rattle.cacache_store.specs.declared.store.answer.Name.{Name};

    ghost Value = { List Name };

    ghost view = { λ n. n.names.items };

    ghost invariant = { λ n. AreProperNames n.names.items };
}

impl ProperNames {
    /// No names.
    pub(crate) fn new(alloc: Global) -> ProperNames
        ensures { result ≡ [] }
    {
        ProperNames {
            names: Vec::new(alloc),
        }
    }

    /// One more name at the end.
    pub(crate) fn push(&mut self, name: ProperName, kind: Kind) -> Result<(), AllocError>
        ensures ok { OnOk result (self.new ≡ self.old ++ record { name = name; kind = kind } ∷ []) }
        ensures err { OnErr result (self.new ≡ self.old) }
    {
        let name = Name {
            name: name.into_text(),
            kind,
        };
        self.names.push(name)?;
        Ok(())
    }

    /// The listing of these names.
    pub(crate) fn into_listing(self) -> Listing
        ensures same { result ≡ self }
        ensures proper { AreProperNames result }
    {
        let ProperNames { names } = self;
        Listing::new(names)
    }
}
