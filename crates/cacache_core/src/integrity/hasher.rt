//! Hashers that take their input in pieces.
ghost use Rattle.std.specs.Prelude.{◌≡◌, ◌≤◌, ◌++◌, ℕ, List, [], IfOk, IfErr, length};
ghost use Rattle.base64.specs.GeneralPurpose.{IsBytes};
ghost use Rattle.cacache_core.specs.{Integrity.{digest, integrity_under}, Hashers.{Holds, algorithm_of, finished_bytes}};

use crate::errors::{self, Error};
use crate::integrity::algorithm::Algorithm;
use crate::integrity::digest::Digest;
use crate::integrity::whole::Integrity;
use sha2::Digest as Sha2Digest;
use std::alloc::{AllocError, Global};

/// A hasher of one algorithm.
#[derive(Drop)]
pub enum Hasher {
    Sha512(sha2::Sha512),
    Sha384(sha2::Sha384),
    Sha256(sha2::Sha256),
    Sha1(sha1::Sha1),
}

/// A digest in an array, which needs no allocation.
#[derive(Drop)]
pub enum Finished {
    Sha512([u8; 64]),
    Sha384([u8; 48]),
    Sha256([u8; 32]),
    Sha1([u8; 20]),
}

impl Hasher {
    /// A hasher of the algorithm without input so far.
    pub fn new(algorithm: Algorithm) -> Hasher
        ensures fed { Holds result [] }
        ensures algorithm { algorithm_of result ≡ algorithm }
    {
        match algorithm {
            Algorithm::Sha512 => Hasher::Sha512(sha2::Sha512::new()),
            Algorithm::Sha384 => Hasher::Sha384(sha2::Sha384::new()),
            Algorithm::Sha256 => Hasher::Sha256(sha2::Sha256::new()),
            Algorithm::Sha1 => Hasher::Sha1(sha1::Sha1::new()),
        }
    }

    /// The algorithm that the hasher computes.
    pub fn algorithm(&self) -> Algorithm
        ensures { result ≡ algorithm_of self.now }
    {
        match self {
            Hasher::Sha512(_) => Algorithm::Sha512,
            Hasher::Sha384(_) => Algorithm::Sha384,
            Hasher::Sha256(_) => Algorithm::Sha256,
            Hasher::Sha1(_) => Algorithm::Sha1,
        }
    }

    /// Adds these bytes to the hasher's input.
    pub fn update(&mut self, data: &[u8])
        ensures fed { (m : List ℕ) → Holds self.old m → Holds self.new (m ++ «data».now) }
        ensures algorithm { algorithm_of self.new ≡ algorithm_of self.old }
    {
        match self {
            Hasher::Sha512(hasher) => hasher.update(data),
            Hasher::Sha384(hasher) => hasher.update(data),
            Hasher::Sha256(hasher) => hasher.update(data),
            Hasher::Sha1(hasher) => hasher.update(data),
        }
    }

    /// The digest of the hasher's whole input.
    pub fn finalize(self) -> Finished
        ensures digest { (m : List ℕ) → Holds self m
            → finished_bytes result ≡ digest (algorithm_of self) m }
        ensures bytes { IsBytes (finished_bytes result) }
        ensures long_enough { 20 ≤ length (finished_bytes result) }
    {
        match self {
            Hasher::Sha512(hasher) => Finished::Sha512(hasher.finalize()),
            Hasher::Sha384(hasher) => Finished::Sha384(hasher.finalize()),
            Hasher::Sha256(hasher) => Finished::Sha256(hasher.finalize()),
            Hasher::Sha1(hasher) => Finished::Sha1(hasher.finalize()),
        }
    }

    /// The integrity of the hasher's whole input, under its algorithm.
    pub fn result(self, alloc: Global) -> errors::Result<Integrity>
        ensures ok { (m : List ℕ) → Holds self m
            → IfOk result (λ i. i ≡ integrity_under (algorithm_of self) m) }
        ensures err { IfErr result (λ e. e ≡ Error.OutOfMemory) }
    {
        Integrity::of_hasher(alloc, self)
    }
}

impl Finished {
    /// The bytes of the digest.
    pub fn as_slice(&self) -> &[u8]
        ensures { result.now ≡ finished_bytes self.now }
    {
        match self {
            Finished::Sha512(bytes) => bytes,
            Finished::Sha384(bytes) => bytes,
            Finished::Sha256(bytes) => bytes,
            Finished::Sha1(bytes) => bytes,
        }
    }

    /// The same digest in its own memory.
    pub fn to_digest(&self, alloc: Global) -> Result<Digest, AllocError>
        ensures { IfOk result (λ d. d ≡ finished_bytes self.now) }
    {
        Ok(Digest::new(self.as_slice().to_vec(alloc)?))
    }
}
