//! The order of integrities, and the data that they feed to a map's hasher.
ghost use Rattle.std.{specs.Prelude.{Some}, proofs.Common.{refl}};
ghost use Rattle.std.specs.Hash as fed;
ghost use Rattle.cacache_core.specs.Comparing.{hashes_cmp, hashes_cmp-po, hashes_cmp-total, hashes_cmp-ties, hash_fed, same_hashes-Decides};

use crate::integrity::whole::Integrity;
use std::cmp::Ordering;
use std::hash::{Hash, Hasher};

impl PartialOrd for Integrity {
    ghost partial_cmp = { λ i j. Some (hashes_cmp i j) };

    ghost laws = { hashes_cmp-po };

    fn partial_cmp(&self, other: &Integrity) -> Option<Ordering> {
        Some(self.cmp(other))
    }
}

/// Compares hash by hash: the stronger algorithm first, and then by the digests' bytes. An
/// integrity that is a proper prefix of another comes before it. Allocates nothing.
impl Ord for Integrity {
    ghost cmp = { hashes_cmp };

    ghost total = { hashes_cmp-total };

    ghost matches_partial_cmp = { λ i j. refl };

    ghost matches_eq = { hashes_cmp-ties };

    fn cmp(&self, other: &Integrity) -> Ordering {
        self.hashes.cmp(&other.hashes)
    }
}

/// Equal integrities feed the same data to a map's hasher. Allocates nothing.
impl Hash for Integrity {
    ghost hash_input = { fed.slice hash_fed };

    ghost respects_eq = { (fed.same_Alike (fed.slice hash_fed) same_hashes-Decides).fed };

    fn hash<H: Hasher>(&self, state: &mut H) {
        self.hashes.hash(state);
    }
}
