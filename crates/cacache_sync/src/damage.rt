//! Which errors say that a content is damaged.
ghost use Rattle.std.specs.Prelude.{◌≡◌};
ghost use Rattle.cacache_sync.specs.Reads.{lack_in, tells_damage};

use cacache_core::errors::{Error, Fault, IntegrityFault, Result};

/// Whether the error says that bytes don't meet their integrity. The other errors about integrities are of texts that
/// can't be read as one. Allocates nothing.
pub fn is_damage(error: &Error) -> bool
    ensures says { result ≡ tells_damage error.now }
{
    match error {
        Error::IntegrityError(IntegrityFault::Check(_, _)) => true,
        _ => false,
    }
}

/// Whether a failed read of a key shows that the cache lacks its bytes: there is no entry, no content, or a damaged
/// one. Any other error is handed on.
pub(crate) fn lack_of(error: Error) -> Result<()>
    ensures { result ≡ lack_in error }
{
    match error {
        Error::EntryNotFound(_, _)
        | Error::IoError(Fault::NotFound, _)
        | Error::IntegrityError(IntegrityFault::Check(_, _)) => Ok(()),
        other => Err(other),
    }
}
