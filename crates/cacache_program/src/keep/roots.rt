//! Further roots, as the lines of a file name them.
ghost use Rattle.std.specs.Prelude.{◌≡◌, IfErr, IfOk};
ghost use Rattle.cacache_program.specs.Roots.{IsMisnamed, IsUnnamed, NamesRoots};

use cacache_core::errors::{Error, IntegrityFault, Result};
use cacache_core::integrity::Integrity;
use std::alloc::Global;

/// The integrities that the lines name, one each.
fn named_in(alloc: Global, text: &str) -> Result<Vec<Integrity>>
    ensures named { IfOk result (λ roots. NamesRoots text.now roots.items) }
    ensures misnamed { IfErr result (IsUnnamed text.now) }
{
    let mut roots = Vec::new(alloc);
    for line in text.lines() {
        roots.push(Integrity::parse(alloc, line)?)?;
    }
    Ok(roots)
}

/// The integrities that the lines of the bytes name, one each. Bytes that aren't UTF-8 are `BadText`.
pub(crate) fn roots_in(alloc: Global, bytes: &[u8]) -> Result<Vec<Integrity>>
    ensures named { IfOk result (λ roots. NamesRoots bytes.now roots.items) }
    ensures misnamed { IfErr result (IsMisnamed bytes.now) }
{
    match std::str::from_utf8(bytes) {
        Ok(text) => named_in(alloc, text),
        Err(_) => Err(Error::IntegrityError(IntegrityFault::BadText)),
    }
}
