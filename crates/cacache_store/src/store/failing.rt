//! The error that a call returns after a failed step.
ghost use Rattle.std.specs.Prelude.{◌≡◌, MatchResult};
ghost use Rattle.cacache_core.specs.declared.errors.Error.TheVariants.{IoError, OutOfMemory};

use cacache_core::errors::{Error, Fault};
use cacache_core::text::Text;
use std::alloc::AllocError;

/// The error of a call after one of its steps failed: `IoError` with its message, or `OutOfMemory` if there was no
/// memory for the message.
pub fn failed(fault: Fault, message: Result<Text, AllocError>) -> Error
    ensures { MatchResult message (λ text. result ≡ IoError fault text)
        (λ _. result ≡ OutOfMemory) }
{
    match message {
        Ok(message) => Error::IoError(fault, message),
        Err(_) => Error::OutOfMemory,
    }
}
