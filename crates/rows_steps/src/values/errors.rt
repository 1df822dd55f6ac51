//! The messages of errors, and errors with a context.
use crate::calls::words::fault_of;
use crate::values::words::{Debugged, column, printed, text_of, two};
use cacache_core::errors::{Error, Fault, IntegrityFault, IoErrorExt, SerdeCause, io_error};
use cacache_core::integrity::Integrity;
use cacache_core::keeping::let_go;
use cacache_core::text::Text;
use rows::Flaw;
use rows::answers::given;
use rows::words::number_of;
use std::alloc::{AllocError, Global};
use std::io::{self, ErrorKind};

/// The error about two sizes that differ.
fn sizes(columns: &str) -> Result<Error, Flaw> {
    let (wanted, found) = column(columns);
    Ok(Error::SizeMismatch(number_of(wanted)?, number_of(found)?))
}

/// The error about an entry that isn't found.
fn missing(alloc: Global, columns: &str) -> Result<Error, Flaw> {
    let (cache, key) = column(columns);
    let cache = Text::from_str(alloc, cache)?;
    let key = Text::from_str(alloc, key)?;
    Ok(Error::EntryNotFound(cache, key))
}

/// The error about a check that failed.
fn unmet(alloc: Global, columns: &str) -> Result<Error, Flaw> {
    let (wanted, found) = column(columns);
    let wanted = given(Integrity::parse(alloc, wanted))?;
    let found = given(Integrity::parse(alloc, found))?;
    Ok(Error::from(IntegrityFault::Check(wanted, found)))
}

/// The error that the first column names, with what the others say. The name of a fault is an `IoError`.
fn made(alloc: Global, columns: &str) -> Result<Error, Flaw> {
    let (name, more) = column(columns);
    match name {
        "EntryNotFound" => missing(alloc, more),
        "SizeMismatch" => sizes(more),
        "Check" => unmet(alloc, more),
        "BadText" => Ok(Error::from(IntegrityFault::BadText)),
        "NotWhole" => Ok(Error::SerdeError(SerdeCause::NotWhole, Text::from_str(alloc, more)?)),
        "AllocError" => Ok(Error::from(AllocError)),
        _ => Ok(Error::IoError(fault_of(name)?, Text::from_str(alloc, more)?)),
    }
}

/// The message of an error.
pub(crate) fn error(alloc: Global, columns: &str) -> Result<String, Flaw> {
    printed(alloc, made(alloc, columns)?)
}

/// The kind of an error, and its short message.
pub(crate) fn short(alloc: Global, columns: &str) -> Result<String, Flaw> {
    let error = made(alloc, columns)?;
    let kind = error.kind();
    given(format!(in alloc; "{kind:?} {error:#}"))
}

/// An io error of the kind that the word names; if it names none, one with the word as its text.
fn failure(word: &str) -> io::Error {
    match word {
        "NotFound" => io::Error::from(ErrorKind::NotFound),
        "DirectoryNotEmpty" => io::Error::from(ErrorKind::DirectoryNotEmpty),
        "FilesystemLoop" => io::Error::from(ErrorKind::FilesystemLoop),
        "PermissionDenied" => io::Error::from(ErrorKind::PermissionDenied),
        _ => io_error(word),
    }
}

/// The kind of an io error.
pub(crate) fn kind(alloc: Global, word: &str) -> Result<String, Flaw> {
    printed(alloc, Debugged(failure(word).kind()))
}

/// The fault of an io error, and the fault's message.
pub(crate) fn fault(alloc: Global, word: &str) -> Result<String, Flaw> {
    let fault = Fault::from(failure(word).kind());
    two(alloc, Debugged(fault), fault)
}

/// A result after a context is added. The word `fine` stands for 7, `TooDeep` for an entry that is too deep, and any other word
/// for an io error.
pub(crate) fn context(alloc: Global, columns: &str) -> Result<String, Flaw> {
    let (word, text) = column(columns);
    let came = match word {
        "fine" => Ok::<u8, io::Error>(7).with_context(|| Err(Error::OutOfMemory)),
        "TooDeep" => Err::<u8, SerdeCause>(SerdeCause::TooDeep).with_context(|| Ok(String::from_str(
            alloc, text,
        )?)),
        _ => Err::<u8, io::Error>(failure(word)).with_context(|| Ok(String::from_str(
            alloc, text,
        )?)),
    };
    printed(alloc, Debugged(came))
}

/// The fault of an io error after a plain text is added as its context, and the new error.
pub(crate) fn plain_context(alloc: Global, columns: &str) -> Result<String, Flaw> {
    let (word, text) = column(columns);
    match Err::<u8, io::Error>(failure(word)).context(alloc, text) {
        Ok(_) => Err(Flaw::NotRead),
        Err(error) => {
            let fault = error.fault();
            two(alloc, Debugged(fault), error)
        }
    }
}

/// The message of an error, with the text that it is about.
fn quoting(alloc: Global, error: &Error, text: &str) -> Result<String, Flaw> {
    given(error.quoting(text).to_string(alloc))
}

/// The message about a text that is no integrity, with the text.
pub(crate) fn quoted(alloc: Global, word: &str) -> Result<String, Flaw> {
    let text = text_of(alloc, word)?;
    match Integrity::parse(alloc, text.as_str()) {
        Ok(sri) => {
            let_go(sri);
            Err(Flaw::NotRead)
        }
        Err(error) => quoting(alloc, &error, text.as_str()),
    }
}
