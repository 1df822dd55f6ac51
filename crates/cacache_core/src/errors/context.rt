//! Adds to a failure a text that says what failed.
ghost use Rattle.std.specs.{Prelude.{◌≡◌, ℕ, List, Ok, IsErr, IsErrAnd, MatchResult, string_bytes}, IoError.{error_kind}};
ghost use Rattle.cacache_core.specs.{declared.errors.Error.{Error, TheVariants.{IoError, SerdeError}}, Errors.{fault_of, IsContextError, IsTextError}};

use crate::errors::{Error, Fault, Result, SerdeCause};
use crate::text::Text;
use std::alloc::Global;
use std::io::{self, ErrorKind};

/// Turns a failure of a step or of an entry into an `Error` whose text says what failed.
pub trait IoErrorExt<T> {
    /// The result is a success with this value.
    ghost holds: { Self → T → Type 0 };

    /// The result is a failure.
    ghost fails: { Self → Type 0 };

    /// The error that the failure becomes with a text.
    ghost becomes: { Self → List ℕ → Error → Type 0 };

    /// Returns the value, or the failure as an `Error` with the text that `f` returns. If `f`
    /// itself fails, its error is returned instead. `f` is called only for a failure.
    fn with_context<F: FnOnce() -> Result<String>>(self, f: F) -> Result<T>
        requires { fails self → F.pre f }
        ensures { MatchResult result (holds self)
            (λ e. fails self × IsContextError (F.post f)
            (λ text. becomes self (string_bytes text)) e) };

    /// Returns the value, or the failure as an `Error` with this text. The text is copied only for
    /// a failure. If there is no memory for the copy, the error is `OutOfMemory`.
    fn context(self, alloc: Global, text: &str) -> Result<T>
        ensures { MatchResult result (holds self)
            (λ e. fails self × IsTextError (becomes self text.now) e) };
}

/// `IoError` with the fault of the error's kind.
impl<T> IoErrorExt<T> for std::result::Result<T, io::Error> {
    ghost holds = { λ s x. s ≡ Ok x };

    ghost fails = { IsErr };

    ghost becomes = { λ s text e. IsErrAnd s (λ x. e ≡ IoError (fault_of (error_kind x)) text) };

    fn with_context<F: FnOnce() -> Result<String>>(self, f: F) -> Result<T> {
        match self {
            Ok(value) => Ok(value),
            Err(error) => {
                let fault = Fault::from(error.kind());
                let text = f()?;
                Err(Error::IoError(fault, Text::new(text)))
            }
        }
    }

    fn context(self, alloc: Global, text: &str) -> Result<T> {
        match self {
            Ok(value) => Ok(value),
            Err(error) => {
                let text = Text::from_str(alloc, text)?;
                Err(Error::IoError(Fault::from(error.kind()), text))
            }
        }
    }
}

/// `SerdeError` with the same cause.
impl<T> IoErrorExt<T> for std::result::Result<T, SerdeCause> {
    ghost holds = { λ s x. s ≡ Ok x };

    ghost fails = { IsErr };

    ghost becomes = { λ s text e. IsErrAnd s (λ cause. e ≡ SerdeError cause text) };

    fn with_context<F: FnOnce() -> Result<String>>(self, f: F) -> Result<T> {
        match self {
            Ok(value) => Ok(value),
            Err(cause) => {
                let text = f()?;
                Err(Error::SerdeError(cause, Text::new(text)))
            }
        }
    }

    fn context(self, alloc: Global, text: &str) -> Result<T> {
        match self {
            Ok(value) => Ok(value),
            Err(cause) => Err(Error::SerdeError(cause, Text::from_str(alloc, text)?)),
        }
    }
}

/// An I/O error of kind `Other` with this text, truncated if longer than 80 bytes. Allocates nothing.
pub fn io_error(text: &str) -> io::Error
    ensures { error_kind result ≡ ErrorKind.Other }
{
    io::Error::other(text)
}
