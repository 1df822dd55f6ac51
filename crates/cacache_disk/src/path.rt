//! Paths as names from the top folder down.
ghost use Rattle.std.specs.{Prelude.{◌≡◌, ◌+◌, ◌-◌, ◌++◌, ◌∷◌, ◌≤◌, ◌<◌, ◌==◌, [], List, Ok, IfOk, IfErr, OnOk, OnErr, length, take, Some, slice_index_or}, Bool.{OnTrue, nat_eq}, Ordering.{nat_cmp}, Cmp.Lexicographic.{pointwise, slice_cmp, slice_partial_cmp, lists_equiv, lists_agrees, lists_total, lists_ties, nat_list_eq_equiv, nat_list_cmp_total, texts_ties, lists_po, texts_po}};
ghost use Rattle.std.proofs.Common.{refl};
ghost use Rattle.cacache_disk.specs.{Tree.{is_below, is_child}, Plans.{Stops}};
ghost use Rattle.cacache_core.specs.Paths.{names_of};
ghost use Rattle.std.specs.Cmp;

use crate::name::ProperName;
use crate::stop::Stop;
use cacache_core::errors::Fault;
use cacache_core::paths::{is_above, is_name};
use cacache_core::text::Text;
use std::alloc::{AllocError, Global};
use std::cmp::Ordering;
use std::marker::Model;

/// The names of a path. Contracts see their list.
#[derive(Debug, Drop)]
pub struct Path {
    names: Vec<ProperName>,
}

impl Model for Path {
    ghost use Rattle.std.specs.Prelude.{ℕ, List};

    ghost Value = { List (List ℕ) };

    ghost view = { λ p. p.names.items };
}

impl Path {
    /// The top folder, which takes no memory.
    pub fn top(alloc: Global) -> Path
        ensures { result ≡ [] }
    {
        Path {
            names: Vec::new(alloc),
        }
    }

    /// The names of a path's text.
    pub fn of(alloc: Global, text: &str) -> Result<Path, Stop>
        ensures ok { IfOk result (λ names. names_of text.now ≡ Ok names) }
        ensures err { IfErr result (λ stop. Stops stop (names_of text.now)) }
    {
        if text.is_empty() {
            return Err(Stop::Fault(Fault::NotFound));
        }
        if text.as_bytes().contains(&0) {
            return Err(Stop::Fault(Fault::InvalidInput));
        }
        let mut names = Path::top(alloc);
        for piece in text.split('/') {
            if is_above(piece) {
                return Err(Stop::Fault(Fault::InvalidInput));
            }
            if is_name(piece) {
                names.push(ProperName::new(Text::from_str(alloc, piece)?))?;
            }
        }
        Ok(names)
    }

    /// How many names it has.
    pub fn len(&self) -> usize
        ensures { result ≡ length self.now }
    {
        self.names.len()
    }

    pub(crate) fn is_top(&self) -> bool
        ensures { result ≡ (length self.now == 0) }
    {
        self.names.is_empty()
    }

    /// Whether it is the folder's names and one more name.
    pub fn is_in(&self, folder: &Path) -> bool
        ensures same { result ≡ is_child folder.now self.now }
        ensures longer { OnTrue result (length self.now ≡ length folder.now + 1) }
    {
        let count = folder.names.len();
        self.names.len() == count + 1 && self.names[..count] == folder.names[..]
    }

    /// Whether it begins with the folder's names.
    pub(crate) fn is_below(&self, folder: &Path) -> bool
        ensures { result ≡ is_below folder.now self.now }
    {
        let count = self.names.len().min(folder.names.len());
        self.names[..count] == folder.names[..]
    }

    /// A copy of the name at an index.
    pub(crate) fn name(&self, index: usize) -> Result<ProperName, AllocError>
        requires { index < length self.now }
        ensures { IfOk result (λ name. name ≡ slice_index_or self.now index name) }
    {
        self.names[index].clone()
    }

    /// One more name at the end.
    pub(crate) fn push(&mut self, name: ProperName) -> Result<(), AllocError>
        ensures ok { OnOk result (self.new ≡ self.old ++ name ∷ []) }
        ensures err { OnErr result (self.new ≡ self.old) }
    {
        self.names.push(name)?;
        Ok(())
    }

    /// One name fewer at the end.
    pub(crate) fn pop(&mut self)
        ensures { self.new ≡ take (length self.old - 1) self.old }
    {
        self.names.pop();
    }

    /// The first `count` names.
    pub fn front(&self, alloc: Global, count: usize) -> Result<Path, AllocError>
        requires { count ≤ length self.now }
        ensures { IfOk result (λ p. p ≡ take count self.now) }
    {
        let mut names: Vec<ProperName> = Vec::new(alloc);
        for i in 0..count {
            names.push(self.names[i].clone()?)?;
        }
        Ok(Path { names })
    }
}

impl Clone for Path {
    ghost is_clone = { λ p q. q ≡ p };

    fn clone(&self) -> Result<Path, AllocError> {
        let alloc = *self.names.allocator();
        self.front(alloc, self.names.len())
    }
}

impl PartialEq for Path {
    ghost eq = { pointwise (pointwise nat_eq) };

    ghost laws = { Cmp.partial_equiv_from_equiv (lists_equiv nat_list_eq_equiv) };

    fn eq(&self, other: &Path) -> bool {
        self.names == other.names
    }
}

impl Eq for Path {
    ghost laws = { lists_equiv nat_list_eq_equiv };
}

impl PartialOrd for Path {
    ghost partial_cmp = { slice_partial_cmp (λ xs ys. Some (slice_cmp nat_cmp xs ys)) };

    ghost laws = { lists_po texts_po };

    fn partial_cmp(&self, other: &Path) -> Option<Ordering> {
        self.names.partial_cmp(&other.names)
    }
}

impl Ord for Path {
    ghost cmp = { slice_cmp (slice_cmp nat_cmp) };

    ghost total = { lists_total nat_list_cmp_total };

    ghost matches_partial_cmp = { λ xs ys. lists_agrees (λ x y. refl) xs ys };

    ghost matches_eq = { λ xs ys. lists_ties (slice_cmp nat_cmp) texts_ties xs ys };

    fn cmp(&self, other: &Path) -> Ordering {
        self.names.cmp(&other.names)
    }
}
