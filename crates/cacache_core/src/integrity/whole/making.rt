//! Makes integrities from hex digits, and from two other integrities.
ghost use Rattle.std.specs.{Prelude.{◌≡◌, Ok, IfOk, IfErr, OnOk}, List.{fold}};
ghost use Rattle.cacache_core.specs.{Matching.{with_hash, read_hex, joined_hashes}, Errors.{IsReadFailure}};

use crate::errors::{Error, IntegrityFault, Result};
use crate::integrity::algorithm::Algorithm;
use crate::integrity::digest::Hash;
use crate::integrity::reading::in_order;
use crate::integrity::whole::Integrity;
use hex::FromHexError;
use std::alloc::{AllocError, Global};

impl Integrity {
    /// The integrity of a digest under an algorithm. The digest is given in hex digits of either
    /// case. It needn't have the length of the algorithm's digests.
    ///
    /// A text that isn't pairs of hex digits is `BadText`. A digest shorter than three bytes is
    /// `ShortDigest`. `OutOfMemory` is the only other error.
    #[tactic(auto, using(crate::proofs::HexDigits::read_ok, crate::proofs::HexDigits::read_refused))]
    pub fn from_hex(alloc: Global, digits: &str, algorithm: Algorithm) -> Result<Integrity>
        ensures ok { IfOk result (λ i. read_hex algorithm digits.now ≡ Ok i) }
        ensures err { IfErr result (IsReadFailure (read_hex algorithm digits.now)) }
    {
        match hex::decode(alloc, digits) {
            Ok(digest) => Integrity::from_digest(alloc, algorithm, digest),
            Err(FromHexError::OutOfMemory) => Err(Error::OutOfMemory),
            Err(_) => Err(Error::IntegrityError(IntegrityFault::BadText)),
        }
    }

    /// The hashes of both, each once, strongest algorithm first. Those of one algorithm are ordered
    /// by first occurrence: this integrity's, then those that only the other has. So the content
    /// address is this integrity's if the other's algorithm isn't stronger. `OutOfMemory` is the
    /// only error.
    #[tactic(auto, using(crate::proofs::Order::joined_is_integrity, crate::proofs::Order::joined_once))]
    pub fn concat(&self, alloc: Global, other: &Integrity) -> Result<Integrity>
        ensures ok { IfOk result (λ i. i ≡ joined_hashes self.now other.now) }
        ensures err { IfErr result (λ e. e ≡ Error.OutOfMemory) }
    {
        let mut hashes = Vec::new(alloc);
        push_new(&mut hashes, self.hashes.as_slice())?;
        push_new(&mut hashes, other.hashes.as_slice())?;
        let hashes = in_order(alloc, hashes)?;
        Ok(Integrity { hashes })
    }
}

/// Appends copies of these hashes to `kept`, except those that it already has.
fn push_new(kept: &mut Vec<Hash>, hashes: &[Hash]) -> std::result::Result<(), AllocError>
    ensures { OnOk result (kept.new.items ≡ fold with_hash kept.old.items hashes.now) }
{
    for hash in hashes {
        if !kept.contains(hash) {
            kept.push(hash.clone()?)?;
        }
    }
    Ok(())
}
