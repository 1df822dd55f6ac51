//! Integrities.
ghost use Rattle.std.specs.Prelude.{◌≡◌, ◌≤◌, ◌∷◌, [], ◌↔◌, Some, Ok, IsTrue, ℕ, List, IsOk, IsSome, IfOk, IfErr, OnOk, IfSome, Contains, length, string_bytes};
ghost use Rattle.std.specs.Cmp;
ghost use Rattle.base64.specs.GeneralPurpose.{IsBytes};
ghost use Rattle.hex.specs.Hex.{encode_lower};
ghost use Rattle.cacache_core.specs.{Hashers.{finished_bytes, Holds, algorithm_of}, Integrity.{IsIntegrity, IsHash, HasDigest, IsHexOf, Meets, ShareDigest, hash_of, strongest, address as address_of, actual, integrity_under}, Errors.{IsCheckFailure, IsReadFailure}, Comparing.{same_hashes, same_hashes-equiv}, Texts.{integrity_text, long_hash, read_integrity}};

mod making;
mod order;

use crate::errors::{Error, IntegrityFault, Result};
use crate::integrity::algorithm::Algorithm;
use crate::integrity::digest::{Digest, Hash};
use crate::integrity::hasher::{Finished, Hasher};
use crate::integrity::reading::{in_order, read_hashes};
use std::alloc::{AllocError, Global};
use std::fmt;
use std::marker::Model;

/// An integrity identifies bytes: one or more hashes, strongest algorithm first.
#[derive(Drop)]
pub struct Integrity {
    hashes: Vec<Hash>,
}

impl Model for Integrity {
    ghost use Rattle.std.specs.Prelude.{List};
    ghost use Rattle.cacache_core.specs.declared.integrity.digest.Hash.{Hash};

    ghost Value = { List Hash };

    ghost view = { λ i. i.hashes.items };

    ghost use Rattle.cacache_core.specs.Integrity.{IsIntegrity};

    ghost invariant = { λ i. IsIntegrity i.hashes.items };
}

impl Integrity {
    /// Parses a text: one or more hashes between runs of space, TAB, LF, FF and CR. A hash is an
    /// algorithm's name, `-`, and its digest in canonical padded base64 (RFC 4648, section 4). A text without
    /// a hash is `BadText`. Otherwise the leftmost wrong hash decides: a malformed one is `BadText`, and a
    /// digest shorter than three bytes is `ShortDigest`.
    ///
    /// ```
    /// let sri = Integrity::parse(alloc, "sha1-qvTGHdzF6KLavt4PO0gs2a6pQ00=")?;
    /// let algorithm = sri.pick_algorithm(); // Algorithm::Sha1
    /// ```
    #[tactic(auto, using(crate::proofs::Reading::read_some, crate::proofs::Reading::read_none, crate::proofs::Reading::read_failed, crate::proofs::Order::ordered_is_integrity))]
    pub fn parse(alloc: Global, text: &str) -> Result<Integrity>
        ensures ok { IfOk result (λ i. read_integrity text.now ≡ Ok i) }
        ensures err { IfErr result (IsReadFailure (read_integrity text.now)) }
    {
        let hashes = read_hashes(alloc, text.as_bytes())?;
        if hashes.is_empty() {
            return Err(Error::IntegrityError(IntegrityFault::BadText));
        }
        let hashes = in_order(alloc, hashes)?;
        Ok(Integrity { hashes })
    }

    /// The integrity of these bytes under SHA-256.
    pub fn from(alloc: Global, data: &[u8]) -> Result<Integrity>
        ensures ok { IfOk result (λ i. i ≡ integrity_under Algorithm.Sha256 «data».now) }
        ensures err { IfErr result (λ e. e ≡ Error.OutOfMemory) }
    {
        Integrity::of(alloc, Algorithm::Sha256, data)
    }

    /// The integrity of these bytes under one algorithm.
    pub(crate) fn of(alloc: Global, algorithm: Algorithm, data: &[u8]) -> Result<Integrity>
        ensures ok { IfOk result (λ i. i ≡ integrity_under algorithm «data».now) }
        ensures err { IfErr result (λ e. e ≡ Error.OutOfMemory) }
    {
        let mut hasher = Hasher::new(algorithm);
        hasher.update(data);
        Integrity::of_hasher(alloc, hasher)
    }

    /// The integrity of a hasher's whole input, under its algorithm.
    pub(crate) fn of_hasher(alloc: Global, hasher: Hasher) -> Result<Integrity>
        ensures ok { (m : List ℕ) → Holds hasher m
            → IfOk result (λ i. i ≡ integrity_under (algorithm_of hasher) m) }
        ensures err { IfErr result (λ e. e ≡ Error.OutOfMemory) }
    {
        let algorithm = hasher.algorithm();
        Ok(Integrity::of_finished(alloc, algorithm, &hasher.finalize())?)
    }

    /// The integrity of a digest under an algorithm. The digest needn't have the length of the
    /// algorithm's digests.
    ///
    /// A digest shorter than three bytes is `ShortDigest`. `OutOfMemory` is the only other error.
    #[tactic(auto, using(crate::proofs::Order::one_in_order))]
    pub fn from_digest(alloc: Global, algorithm: Algorithm, digest: Vec<u8>) -> Result<Integrity>
        ensures is { IfOk result (λ i. i ≡ hash_of algorithm digest.items ∷ []) }
        ensures hash { OnOk result (IsHash (hash_of algorithm digest.items)) }
        ensures refused { IfErr result (IsReadFailure (long_hash algorithm digest.items)) }
    {
        if digest.len() < 3 {
            return Err(Error::IntegrityError(IntegrityFault::ShortDigest));
        }
        Ok(Integrity::of_digest(alloc, algorithm, Digest::new(digest))?)
    }

    /// The integrity of one digest under an algorithm.
    fn of_digest(
        alloc: Global,
        algorithm: Algorithm,
        digest: Digest,
    ) -> std::result::Result<Integrity, AllocError>
        requires bytes { IsBytes digest }
        requires long_enough { 3 ≤ length digest }
        ensures { IfOk result (λ i. i ≡ hash_of algorithm digest ∷ []) }
    {
        let hash = Hash { algorithm, digest };
        let hashes = vec![in alloc; hash]?;
        Ok(Integrity { hashes })
    }

    /// The integrity of a finished digest under its algorithm.
    fn of_finished(
        alloc: Global,
        algorithm: Algorithm,
        finished: &Finished,
    ) -> std::result::Result<Integrity, AllocError>
        requires bytes { IsBytes (finished_bytes finished.now) }
        requires long_enough { 3 ≤ length (finished_bytes finished.now) }
        ensures { IfOk result (λ i. i ≡ hash_of algorithm (finished_bytes finished.now) ∷ []) }
    {
        let digest = finished.to_digest(alloc)?;
        Integrity::of_digest(alloc, algorithm, digest)
    }

    /// The content address: the first hash, which is one of the strongest algorithm.
    pub fn address(&self) -> &Hash
        ensures address { address_of self.now ≡ Some result.now }
        ensures hash { IsHash result.now }
        ensures integrity { IsIntegrity self.now }
    {
        &self.hashes[0]
    }

    /// The strongest algorithm. Allocates nothing.
    pub fn pick_algorithm(&self) -> Algorithm
        ensures { strongest self.now ≡ Some result }
    {
        self.address().algorithm
    }

    /// Returns the strongest algorithm if the bytes meet this integrity: their digest is among its
    /// digests of that algorithm. Otherwise the error is `Check` with this integrity and that of
    /// the bytes. The bytes are hashed once, and only the error allocates.
    ///
    /// ```
    /// let sri = Integrity::from(alloc, b"hello")?;
    /// let algorithm = sri.check(alloc, b"hello")?; // Algorithm::Sha256
    /// ```
    pub fn check(&self, alloc: Global, data: &[u8]) -> Result<Algorithm>
        ensures ok { IfOk result (λ a. Meets self.now «data».now × (strongest self.now ≡ Some a)) }
        ensures met { Meets self.now «data».now → IsOk result }
        ensures err { IfErr result (IsCheckFailure self.now (actual self.now «data».now)) }
    {
        let algorithm = self.pick_algorithm();
        let mut hasher = Hasher::new(algorithm);
        hasher.update(data);
        self.settle(alloc, algorithm, &hasher.finalize())
    }

    /// Accepts a digest that is listed. Otherwise makes the error of a failed check.
    pub(crate) fn settle(
        &self,
        alloc: Global,
        algorithm: Algorithm,
        finished: &Finished,
    ) -> Result<Algorithm>
        requires bytes { IsBytes (finished_bytes finished.now) }
        requires long_enough { 3 ≤ length (finished_bytes finished.now) }
        ensures ok { IfOk result
            (λ a. (a ≡ algorithm) × HasDigest self.now algorithm (finished_bytes finished.now)) }
        ensures met { HasDigest self.now algorithm (finished_bytes finished.now) → IsOk result }
        ensures err { IfErr result
            (IsCheckFailure self.now (hash_of algorithm (finished_bytes finished.now) ∷ [])) }
    {
        if self.lists(algorithm, finished.as_slice()) {
            return Ok(algorithm);
        }
        let wanted = self.clone()?;
        let found = Integrity::of_finished(alloc, algorithm, finished)?;
        Err(Error::IntegrityError(IntegrityFault::Check(wanted, found)))
    }

    /// The strongest algorithm of the other, if both list an equal digest of it. Allocates nothing.
    pub fn matches(&self, other: &Integrity) -> Option<Algorithm>
        ensures shared { IfSome result
            (λ a. (strongest other.now ≡ Some a) × ShareDigest a self.now other.now) }
        ensures found { (a : Algorithm) → strongest other.now ≡ Some a
            → ShareDigest a self.now other.now → IsSome result }
    {
        let algorithm = other.pick_algorithm();
        for hash in &other.hashes {
            if hash.algorithm == algorithm && self.lists(algorithm, hash.digest.as_slice()) {
                return Some(algorithm);
            }
        }
        None
    }

    /// The algorithm of the content address, and its digest in lower-case hex digits.
    pub fn to_hex(&self, alloc: Global) -> Result<(Algorithm, String)>
        ensures ok { IfOk result
            (λ p. IfSome (address_of self.now) (λ h. IsHexOf h p.0 (string_bytes p.1))) }
        ensures err { IfErr result (λ e. e ≡ Error.OutOfMemory) }
    {
        let address = self.address();
        let digits = hex::encode(alloc, address.digest.as_slice())?;
        Ok((address.algorithm, digits))
    }

    /// Whether the hashes include this digest of the algorithm.
    fn lists(&self, algorithm: Algorithm, digest: &[u8]) -> bool
        ensures { IsTrue result ↔ HasDigest self.now algorithm digest.now }
    {
        self.hashes.iter().any(|hash| hash.algorithm == algorithm
            && hash.digest.as_slice() == digest)
    }
}

impl Clone for Integrity {
    ghost is_clone = { λ i j. j ≡ i };

    fn clone(&self) -> std::result::Result<Integrity, AllocError> {
        Ok(Integrity {
            hashes: self.hashes.clone()?,
        })
    }
}

impl fmt::Display for Integrity {
    ghost output = { λ i. Some (integrity_text i) };

    fn fmt<W: fmt::Write>(&self, f: &mut fmt::Formatter<W>) -> fmt::Result {
        write!(f, "{}", self.hashes[0])?;
        for hash in &self.hashes[1..] {
            write!(f, " {hash}")?;
        }
        Ok(())
    }
}

impl fmt::Debug for Integrity {
    ghost debug_output = { λ i. Some (integrity_text i) };

    fn fmt<W: fmt::Write>(&self, f: &mut fmt::Formatter<W>) -> fmt::Result {
        write!(f, "{self}")
    }
}

impl PartialEq for Integrity {
    ghost eq = { same_hashes };

    ghost laws = { Cmp.partial_equiv_from_equiv same_hashes-equiv };

    fn eq(&self, other: &Integrity) -> bool
        ensures value { result ≡ same_hashes self.now other.now }
        ensures same { IsTrue result ↔ (self.now ≡ other.now) }
    {
        self.hashes == other.hashes
    }
}

impl Eq for Integrity {
    ghost laws = { same_hashes-equiv };
}
