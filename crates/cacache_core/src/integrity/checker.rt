//! Checks bytes that come in pieces.
ghost use Rattle.std.specs.Prelude.{◌≡◌, ◌++◌, ℕ, List, [], Some, IsOk, IfOk, IfErr};
ghost use Rattle.cacache_core.specs.{declared.integrity.digest.Hash.{Hash}, Integrity.{Meets, strongest, actual}, Hashers.{Compares}, Errors.{IsCheckFailure}};

use crate::errors::Result;
use crate::integrity::algorithm::Algorithm;
use crate::integrity::hasher::Hasher;
use crate::integrity::whole::Integrity;
use std::alloc::Global;

/// Checks bytes that come in pieces against an integrity.
#[derive(Drop)]
pub struct IntegrityChecker {
    wanted: Integrity,
    hasher: Hasher,
}

impl IntegrityChecker {
    /// A checker against this integrity without input so far. Allocates nothing.
    pub fn new(sri: Integrity) -> IntegrityChecker
        ensures { Compares result sri [] }
    {
        let hasher = Hasher::new(sri.pick_algorithm());
        IntegrityChecker {
            wanted: sri,
            hasher,
        }
    }

    /// Adds these bytes to the checker's input. Allocates nothing.
    pub fn input(&mut self, data: &[u8])
        ensures { (i : List Hash) (m : List ℕ) → Compares self.old i m
            → Compares self.new i (m ++ «data».now) }
    {
        self.hasher.update(data);
    }

    /// What `Integrity::check` returns for the checker's whole input. Only the error allocates.
    pub fn result(self, alloc: Global) -> Result<Algorithm>
        ensures ok { (i : List Hash) (m : List ℕ) → Compares self i m
            → IfOk result (λ a. Meets i m × (strongest i ≡ Some a)) }
        ensures met { (i : List Hash) (m : List ℕ) → Compares self i m → Meets i m → IsOk result }
        ensures err { (i : List Hash) (m : List ℕ) → Compares self i m
            → IfErr result (IsCheckFailure i (actual i m)) }
    {
        let IntegrityChecker { wanted, hasher } = self;
        let algorithm = hasher.algorithm();
        wanted.settle(alloc, algorithm, &hasher.finalize())
    }
}
