//! Answers of calls, in the words of rows.
use crate::flaw::Flaw;
use crate::words::written_out;
use cacache_core::errors::{Error, Result as Answered};
use cacache_core::integrity::{Algorithm, Integrity};
use cacache_core::keeping::let_go;
use std::alloc::{AllocError, Global};

/// The value of a call, if it succeeded.
pub fn given<T, E: Drop>(came: Result<T, E>) -> Result<T, Flaw> {
    match came {
        Ok(value) => Ok(value),
        Err(error) => {
            let_go(error);
            Err(Flaw::Refused)
        }
    }
}

/// Writes an error: its fault or its cause, if it has one, and its whole text.
pub fn shown_error(alloc: Global, error: &Error) -> Result<String, AllocError> {
    match error {
        Error::IoError(fault, text) => format!(in alloc; "Refused {fault:?}: {text}"),
        Error::SerdeError(cause, text) => format!(in alloc; "Refused {cause:?}: {text}"),
        error => format!(in alloc; "Refused: {error}"),
    }
}

/// The line for an error.
pub fn refused(alloc: Global, error: Error) -> Result<String, AllocError> {
    let text = shown_error(alloc, &error);
    let_go(error);
    let text = text?;
    written_out(alloc, text.as_str())
}

/// The line for the result of storing.
pub fn stored(alloc: Global, answer: Answered<Integrity>) -> Result<String, AllocError> {
    match answer {
        Ok(integrity) => format!(in alloc; "Stored {integrity}"),
        Err(error) => refused(alloc, error),
    }
}

/// The line for the result of a check.
pub fn checked(alloc: Global, answer: Answered<Algorithm>) -> Result<String, AllocError> {
    match answer {
        Ok(algorithm) => format!(in alloc; "checked {algorithm}"),
        Err(error) => refused(alloc, error),
    }
}
