//! The algorithms that compute digests.
ghost use Rattle.std.specs.{Prelude.{◌≡◌, ◌≢◌, ◌↔◌, Some, IfOk, IfErr}, Cmp.{IsTotalOrder, partial_order_from_own_ties, Rules.{comparing}}, Ordering.{nat_cmp, on, as_partial_cmp}};
ghost use Rattle.std.proofs.Common.{rules};
ghost use Rattle.cacache_core.specs.{Integrity.{rank}, Texts.{name_of}};

use crate::errors::{Error, IntegrityFault, Result};
use std::cmp::Ordering;
use std::fmt;

/// An algorithm of FIPS 180-4. In the order of algorithms, the strongest is the least.
#[derive(Clone, Copy, Debug, PartialEq, Eq, Hash)]
pub enum Algorithm {
    /// SHA-512, with digests of 64 bytes.
    Sha512,
    /// SHA-384, with digests of 48 bytes.
    Sha384,
    /// SHA-256, with digests of 32 bytes. It is the default of calls that name no algorithm.
    Sha256,
    /// SHA-1, with digests of 20 bytes. Two files with the same digest can be made, so use it only if others
    /// supply the integrity.
    Sha1,
}

impl Algorithm {
    /// The name used in integrity texts and in paths, such as `sha256`.
    pub fn name(self) -> &'static str
        ensures { result.now ≡ name_of self }
    {
        match self {
            Algorithm::Sha512 => "sha512",
            Algorithm::Sha384 => "sha384",
            Algorithm::Sha256 => "sha256",
            Algorithm::Sha1 => "sha1",
        }
    }

    /// The algorithm with this name. Any other text is `BadText`. Allocates nothing.
    pub fn parse(text: &str) -> Result<Algorithm>
        ensures ok { IfOk result (λ a. text.now ≡ name_of a) }
        ensures no_name { IfErr result (λ _. (a : Algorithm) → text.now ≢ name_of a) }
        ensures bad_text { IfErr result (λ e. e ≡ Error.IntegrityError IntegrityFault.BadText) }
    {
        match text {
            "sha512" => Ok(Algorithm::Sha512),
            "sha384" => Ok(Algorithm::Sha384),
            "sha256" => Ok(Algorithm::Sha256),
            "sha1" => Ok(Algorithm::Sha1),
            _ => Err(Error::IntegrityError(IntegrityFault::BadText)),
        }
    }
}

impl PartialOrd for Algorithm {
    ghost partial_cmp = { as_partial_cmp (on rank nat_cmp) };

    ghost laws = { partial_order_from_own_ties
        (Prim.search (comparing, rules))
        (Prim.search (comparing, rules)) };

    fn partial_cmp(&self, other: &Algorithm) -> Option<Ordering> {
        Some(self.cmp(other))
    }
}

impl Ord for Algorithm {
    ghost cmp = { on rank nat_cmp };

    ghost total = { Prim.search (comparing, rules) };

    ghost matches_partial_cmp = { Prim.search (comparing, rules) };

    ghost matches_eq = { Prim.search (comparing, rules) };

    fn cmp(&self, other: &Algorithm) -> Ordering
        ensures ranks { result ≡ nat_cmp (rank self.now) (rank other.now) }
        ensures equal { (result ≡ Ordering.Equal) ↔ (self.now ≡ other.now) }
        ensures total { IsTotalOrder (on rank nat_cmp) }
    {
        (*self as u8).cmp(&(*other as u8))
    }
}

impl fmt::Display for Algorithm {
    ghost output = { λ a. Some (name_of a) };

    fn fmt<W: fmt::Write>(&self, f: &mut fmt::Formatter<W>) -> fmt::Result {
        f.write_str(self.name())
    }
}
