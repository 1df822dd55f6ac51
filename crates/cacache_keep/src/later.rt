//! What later calls see of a collection, on any store in memory.
ghost use Rattle.cacache_keep.specs.Later.{CollectedKeysStay, CollectionsKeepLed, OptionsKeepLed, RootsStay, StoppedOptionsKeepLed};

/// A collection of a store in memory where everything stands where it may leaves it so, whatever its bytes are, if the
/// cache's path names a folder. Each key that led to bytes leads to the same entry and the same bytes (`led`).
///
/// So it does after any later calls that spare it, over or broken off (`stays`): looks, exports apart from the cache,
/// writes, insertions and tombstones of other keys, removals by hash of other contents, full removals of keys with
/// another bucket and another content, and writers of other keys that are opened, committed or given up. One of the
/// texts that were written since may be there instead, if it meets the integrity too. A read by the key gives what is
/// there, unless its error is excused.
///
/// A collection with options leaves each key where it led, whatever the options are (`options`), and so does one that an
/// error ended (`stopped`). The bytes under the integrity of a further root stay (`roots`).
pub fn later_laws()
    ensures led { CollectionsKeepLed }
    ensures stays { CollectedKeysStay }
    ensures options { OptionsKeepLed }
    ensures stopped { StoppedOptionsKeepLed }
    ensures roots { RootsStay }
{}
