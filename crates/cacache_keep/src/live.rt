//! Which contents entries have.
ghost use Rattle.std.specs.{Prelude.{◌≡◌, ◌↔◌, Some, All, IfOk, IsOk, Contains, map}, List.Sorted.{IsSorted}};
ghost use Rattle.cacache_core.specs.{declared.integrity.digest.Hash.{Hash}, Integrity.{IsIntegrity, address as address_of}, Matching.{lists}};
ghost use Rattle.cacache_walks.specs.Listing.{hash_cmp};
ghost use Rattle.cacache_keep.specs.Calls.{AreOthers, AreUnused};

use cacache_calls::Found;
use cacache_core::digest::Hash;
use cacache_core::integrity::Integrity;
use std::alloc::{AllocError, Global};
use std::cmp::Ordering;

/// How two hashes compare: the stronger algorithm comes first, then their digests' bytes decide.
fn by_hash(a: &Hash, b: &Hash) -> Ordering
    ensures { result ≡ hash_cmp a.now b.now }
{
    let algorithms = a.algorithm.cmp(&b.algorithm);
    algorithms.then(a.digest.as_slice().cmp(b.digest.as_slice()))
}

/// The hashes of these addresses.
pub(crate) fn hashes_of(alloc: Global, addresses: &[Integrity]) -> Result<Vec<Hash>, AllocError>
    ensures { IfOk result (λ hashes. map Some hashes.items ≡ map address_of addresses.now) }
{
    let mut hashes = Vec::new(alloc);
    for sri in addresses {
        hashes.push(sri.address().clone()?)?;
    }
    Ok(hashes)
}

/// The addresses of the entries.
fn addresses_of(alloc: Global, entries: &[Found]) -> Result<Vec<Hash>, AllocError>
    ensures each { IfOk result
        (λ live. map Some live.items ≡ map (λ f. address_of f.integrity) entries.now) }
    ensures formed { IsOk result → All (λ f. IsIntegrity f.integrity) entries.now }
{
    let mut live = Vec::new(alloc);
    for found in entries {
        live.push(found.as_metadata().integrity.address().clone()?)?;
    }
    Ok(live)
}

/// Puts addresses in order.
pub(crate) fn sort(live: &mut Vec<Hash>)
    ensures same { (h : Hash) → Contains live.new.items h ↔ Contains live.old.items h }
    ensures order { IsSorted hash_cmp live.new.items }
{
    live.sort_unstable_by(by_hash);
}

/// Whether the address is among these, by bisection.
pub(crate) fn is_live(live: &[Hash], address: &Hash) -> bool
    requires { IsSorted hash_cmp live.now }
    ensures { result ≡ lists live.now address.now }
{
    live.binary_search_by(|other| by_hash(other, address))
        .is_ok()
}

/// The addresses that aren't among the live ones.
pub(crate) fn others(
    alloc: Global,
    addresses: Vec<Integrity>,
    live: &[Hash],
) -> Result<Vec<Integrity>, AllocError>
    requires { IsSorted hash_cmp live.now }
    ensures { IfOk result (λ unused. AreOthers live.now addresses.items unused.items) }
{
    let mut unused = Vec::new(alloc);
    for sri in addresses {
        if !is_live(live, sri.address()) {
            unused.push(sri)?;
        }
    }
    Ok(unused)
}

/// The addresses that no entry has.
pub(crate) fn unused(
    alloc: Global,
    addresses: Vec<Integrity>,
    entries: &[Found],
) -> Result<Vec<Integrity>, AllocError>
    ensures { IfOk result (λ unused. AreUnused entries.now addresses.items unused.items) }
{
    let mut live = addresses_of(alloc, entries)?;
    sort(&mut live);
    others(alloc, addresses, live.as_slice())
}
