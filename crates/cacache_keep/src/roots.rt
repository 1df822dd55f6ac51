//! Contents that stay although no entry names them.
ghost use Rattle.std.specs.Prelude.{IfOk};
ghost use Rattle.cacache_keep.specs.Collecting.{SparesRoots};

use crate::live::{hashes_of, others, sort};
use cacache_core::integrity::Integrity;
use std::alloc::{AllocError, Global};

/// The addresses that aren't among those of the roots.
pub(crate) fn spare_roots(
    alloc: Global,
    unused: Vec<Integrity>,
    roots: &[Integrity],
) -> Result<Vec<Integrity>, AllocError>
    ensures { IfOk result (λ rest. SparesRoots roots.now unused.items rest.items) }
{
    let mut hashes = hashes_of(alloc, roots)?;
    sort(&mut hashes);
    others(alloc, unused, hashes.as_slice())
}
