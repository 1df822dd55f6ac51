//! Computes the integrity of bytes that come in pieces.
ghost use Rattle.std.specs.Prelude.{◌≡◌, ◌++◌, ℕ, List, [], IfOk, IfErr};
ghost use Rattle.cacache_core.specs.{declared.integrity.algorithm.Algorithm.TheVariants.{Sha256}, Hashers.{algorithm_of, Holds, WasFed, last_algorithm}, Integrity.{integrity_under}};

use crate::errors::{Error, Result};
use crate::integrity::algorithm::Algorithm;
use crate::integrity::hasher::Hasher;
use crate::integrity::whole::Integrity;
use sha2::Digest;
use std::alloc::Global;

/// Computes the integrity of bytes that come in pieces. The algorithm that was set last applies to
/// all pieces, including those before it was set. If none was set, it is SHA-256.
#[derive(Drop)]
pub struct IntegrityOpts {
    chosen: Algorithm,
    sha512: sha2::Sha512,
    sha384: sha2::Sha384,
    sha256: sha2::Sha256,
    sha1: sha1::Sha1,
}

impl Default for IntegrityOpts {
    ghost is_default = { λ builder. WasFed builder [] × (last_algorithm builder ≡ Sha256) };

    fn default() -> IntegrityOpts {
        IntegrityOpts::new()
    }
}

impl IntegrityOpts {
    /// A builder for SHA-256 without input so far. Allocates nothing.
    pub fn new() -> IntegrityOpts
        ensures fed { WasFed result [] }
        ensures algorithm { last_algorithm result ≡ Algorithm.Sha256 }
    {
        IntegrityOpts {
            chosen: Algorithm::Sha256,
            sha512: sha2::Sha512::new(),
            sha384: sha2::Sha384::new(),
            sha256: sha2::Sha256::new(),
            sha1: sha1::Sha1::new(),
        }
    }

    /// The builder with this algorithm set. Allocates nothing.
    pub fn algorithm(mut self, algorithm: Algorithm) -> IntegrityOpts
        ensures fed { (m : List ℕ) → WasFed self m → WasFed result m }
        ensures algorithm { last_algorithm result ≡ algorithm }
    {
        self.chosen = algorithm;
        self
    }

    /// Adds these bytes to the builder's input. Allocates nothing.
    pub fn input(&mut self, data: &[u8])
        ensures fed { (m : List ℕ) → WasFed self.old m → WasFed self.new (m ++ «data».now) }
        ensures algorithm { last_algorithm self.new ≡ last_algorithm self.old }
    {
        self.sha512.update(data);
        self.sha384.update(data);
        self.sha256.update(data);
        self.sha1.update(data);
    }

    /// The integrity of the builder's whole input.
    pub fn result(self, alloc: Global) -> Result<Integrity>
        ensures ok { (m : List ℕ) → WasFed self m
            → IfOk result (λ i. i ≡ integrity_under (last_algorithm self) m) }
        ensures err { IfErr result (λ e. e ≡ Error.OutOfMemory) }
    {
        Integrity::of_hasher(alloc, self.into_hasher())
    }

    /// The hasher of the algorithm that was set last.
    fn into_hasher(self) -> Hasher
        ensures fed { (m : List ℕ) → WasFed self m → Holds result m }
        ensures algorithm { algorithm_of result ≡ last_algorithm self }
    {
        match self.chosen {
            Algorithm::Sha512 => Hasher::Sha512(self.sha512),
            Algorithm::Sha384 => Hasher::Sha384(self.sha384),
            Algorithm::Sha256 => Hasher::Sha256(self.sha256),
            Algorithm::Sha1 => Hasher::Sha1(self.sha1),
        }
    }
}
