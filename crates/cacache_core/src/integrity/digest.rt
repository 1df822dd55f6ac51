//! Digests, and hashes that name their algorithm.
ghost use Rattle.std.{specs.{Prelude.{◌≡◌, ◌↔◌, Some, IsTrue}, Bool.{nat_eq}, Fmt.{debug_list, decimal}, Cmp.Lexicographic.{pointwise, nat_list_eq_equiv}}, proofs.Common.{refl}};
ghost use Rattle.std.specs.Cmp;
ghost use Rattle.std.specs.Hash as fed;
ghost use Rattle.cacache_core.specs.{Comparing.{hash_cmp, hash_cmp-po, hash_cmp-total, hash_cmp-ties, hash_fed, same_hash, same_hash-Decides, same_hash-equiv}, Texts.{hash_text}};

use crate::integrity::algorithm::Algorithm;
use base64::display::Base64Display;
use base64::engine::general_purpose::STANDARD;
use std::alloc::AllocError;
use std::cmp::Ordering;
use std::fmt;
use std::hash::{Hash as StdHash, Hasher as StdHasher};
use std::marker::Model;

/// The bytes of a digest.
#[derive(Drop)]
pub struct Digest {
    bytes: Vec<u8>,
}

impl Model for Digest {
    ghost use Rattle.std.specs.Prelude.{ℕ, List};

    ghost Value = { List ℕ };

    ghost view = { λ d. d.bytes.items };
}

impl Digest {
    /// The digest with these bytes. Allocates nothing.
    pub fn new(bytes: Vec<u8>) -> Digest
        ensures { result ≡ bytes.items }
    {
        Digest { bytes }
    }

    /// The digest's bytes.
    pub fn as_slice(&self) -> &[u8]
        ensures { result.now ≡ self.now }
    {
        self.bytes.as_slice()
    }
}

impl Clone for Digest {
    ghost is_clone = { λ d e. e ≡ d };

    fn clone(&self) -> Result<Digest, AllocError> {
        Ok(Digest {
            bytes: self.bytes.clone()?,
        })
    }
}

impl PartialEq for Digest {
    ghost eq = { pointwise nat_eq };

    ghost laws = { Cmp.partial_equiv_from_equiv nat_list_eq_equiv };

    fn eq(&self, other: &Digest) -> bool {
        self.as_slice() == other.as_slice()
    }
}

impl Eq for Digest {
    ghost laws = { nat_list_eq_equiv };
}

impl fmt::Debug for Digest {
    ghost debug_output = { debug_list (λ byte. Some (decimal byte)) };

    fn fmt<W: fmt::Write>(&self, f: &mut fmt::Formatter<W>) -> fmt::Result {
        write!(f, "{:?}", self.as_slice())
    }
}

/// A digest and the algorithm that computed it.
#[derive(Debug, Drop)]
pub struct Hash {
    /// The algorithm that computed the digest.
    pub algorithm: Algorithm,
    /// The digest's bytes.
    pub digest: Digest,
}

impl Clone for Hash {
    ghost is_clone = { λ h g. g ≡ h };

    fn clone(&self) -> Result<Hash, AllocError> {
        Ok(Hash {
            algorithm: self.algorithm,
            digest: self.digest.clone()?,
        })
    }
}

impl PartialEq for Hash {
    ghost eq = { same_hash };

    ghost laws = { Cmp.partial_equiv_from_equiv same_hash-equiv };

    fn eq(&self, other: &Hash) -> bool
        ensures value { result ≡ same_hash self.now other.now }
        ensures same { IsTrue result ↔ (self.now ≡ other.now) }
    {
        self.algorithm == other.algorithm && self.digest == other.digest
    }
}

impl Eq for Hash {
    ghost laws = { same_hash-equiv };
}

impl PartialOrd for Hash {
    ghost partial_cmp = { λ h g. Some (hash_cmp h g) };

    ghost laws = { hash_cmp-po };

    fn partial_cmp(&self, other: &Hash) -> Option<Ordering> {
        Some(self.cmp(other))
    }
}

/// Orders by algorithm, the stronger first, and then by the digests' bytes.
impl Ord for Hash {
    ghost cmp = { hash_cmp };

    ghost total = { hash_cmp-total };

    ghost matches_partial_cmp = { λ h g. refl };

    ghost matches_eq = { hash_cmp-ties };

    fn cmp(&self, other: &Hash) -> Ordering {
        let algorithms = self.algorithm.cmp(&other.algorithm);
        algorithms.then(self.digest.as_slice().cmp(other.digest.as_slice()))
    }
}

/// Equal hashes feed the same data to a map's hasher.
impl StdHash for Hash {
    ghost hash_input = { hash_fed };

    ghost respects_eq = { (fed.same_Alike hash_fed same_hash-Decides).fed };

    fn hash<H: StdHasher>(&self, state: &mut H) {
        state.write_u8(self.algorithm as u8);
        self.digest.as_slice().hash(state);
    }
}

impl fmt::Display for Hash {
    ghost output = { λ h. Some (hash_text h) };

    fn fmt<W: fmt::Write>(&self, f: &mut fmt::Formatter<W>) -> fmt::Result {
        write!(
            f,
            "{}-{}",
            self.algorithm,
            Base64Display::new(self.digest.as_slice(), &STANDARD)
        )
    }
}
