//! The order in which contents are listed.
ghost use Rattle.std.specs.{Prelude.{◌≡◌, ◌↔◌, ◌∷◌, [], ℕ, List, Contains}, Option.{option_cmp}};
ghost use Rattle.cacache_core.specs.{declared.integrity.digest.Hash.{Hash}, Integrity.{address as address_of}};
ghost use Rattle.cacache_walks.specs.Listing.{IsByBytes, IsByHash, hash_cmp};

use cacache_core::integrity::Integrity;
use cacache_core::text::Text;
use std::cmp::Ordering;

/// How the addresses of two integrities compare: the stronger algorithm comes first, then their
/// digests' bytes decide.
fn by_hash(a: &Integrity, b: &Integrity) -> Ordering
    ensures { result ≡ option_cmp hash_cmp (address_of a.now) (address_of b.now) }
{
    let (a, b) = (a.address(), b.address());
    let algorithms = a.algorithm.cmp(&b.algorithm);
    algorithms.then(a.digest.as_slice().cmp(b.digest.as_slice()))
}

/// Puts integrities of one hash in order, and keeps each once.
pub(crate) fn sort_addresses(addresses: &mut Vec<Integrity>)
    requires { (i : List Hash) → Contains addresses.old.items i → (h : Hash) × (i ≡ h ∷ []) }
    ensures same { (i : List Hash)
        → Contains addresses.new.items i ↔ Contains addresses.old.items i }
    ensures order { IsByHash addresses.new.items }
{
    addresses.sort_unstable_by(by_hash);
    addresses.dedup();
}

/// Puts paths in order, and keeps each once.
pub(crate) fn sort_paths(paths: &mut Vec<Text>)
    ensures same { (p : List ℕ) → Contains paths.new.items p ↔ Contains paths.old.items p }
    ensures order { IsByBytes paths.new.items }
{
    paths.sort_unstable();
    paths.dedup();
}
