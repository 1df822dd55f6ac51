//! The order of integrities, and integrities as keys of maps.
use crate::values::integrities::read;
use crate::values::words::{Debugged, column, printed, two};
use cacache_core::integrity::Integrity;
use cacache_core::keeping::beside;
use rows::Flaw;
use rows::answers::given;
use std::alloc::Global;
use std::collections::{BTreeMap, HashMap};

/// Two integrities.
#[derive(Drop)]
struct Pair {
    one: Integrity,
    other: Integrity,
}

/// The integrities of two texts.
fn pair_of(alloc: Global, columns: &str) -> Result<Pair, Flaw> {
    let (one, other) = column(columns);
    let one = read(alloc, one)?;
    let (other, one) = beside(read(alloc, other), one)?;
    Ok(Pair { one, other })
}

/// Whether an integrity is less than another.
pub(crate) fn less(alloc: Global, columns: &str) -> Result<String, Flaw> {
    let pair = pair_of(alloc, columns)?;
    printed(alloc, pair.one < pair.other)
}

/// An ordered map that has this integrity as a key.
fn map_of(alloc: Global, key: &Integrity) -> Result<BTreeMap<Integrity, u8>, Flaw> {
    let key = key.clone()?;
    let mut map = BTreeMap::new(alloc);
    given(map.insert(key, 1))?;
    Ok(map)
}

/// What an ordered map finds under an integrity that it has, and under another one.
pub(crate) fn ordered(alloc: Global, columns: &str) -> Result<String, Flaw> {
    let pair = pair_of(alloc, columns)?;
    let map = map_of(alloc, &pair.one)?;
    two(
        alloc,
        Debugged(map.get(&pair.one)),
        Debugged(map.get(&pair.other)),
    )
}

/// A hash map that has this integrity as a key.
fn hashes_of(alloc: Global, key: &Integrity) -> Result<HashMap<Integrity, u8>, Flaw> {
    let key = key.clone()?;
    let mut map = HashMap::new(alloc);
    given(map.insert(key, 2))?;
    Ok(map)
}

/// What a hash map finds under an integrity that it has, and under another one.
pub(crate) fn hashed(alloc: Global, columns: &str) -> Result<String, Flaw> {
    let pair = pair_of(alloc, columns)?;
    let map = hashes_of(alloc, &pair.one)?;
    two(
        alloc,
        Debugged(map.get(&pair.one)),
        Debugged(map.get(&pair.other)),
    )
}
