//! The texts of errors, written out since a derive gives them no clause and no form `{:#}`.
ghost use Rattle.std.specs.{Prelude.{Some}, Fmt.{Cut.{IsTextOrCut}, InlineText.{inline_text}}};
ghost use Rattle.cacache_core.specs.{Errors.{error_text, refusal_text, cause_text}, Texts.{integrity_text}};

use crate::errors::{Error, IntegrityFault, SerdeCause};
use crate::integrity::Integrity;
use std::error;
use std::fmt::{self, InlineText};

/// How many bytes of an integrity a text `{:#}` shows.
const SHOWN: usize = 34;

/// The text of an integrity, or its beginning and three dots.
fn shortened(sri: &Integrity) -> InlineText<{ SHOWN }>
    ensures { IsTextOrCut SHOWN (integrity_text sri.now) (inline_text result) }
{
    InlineText::of(sri)
}

/// A few plain words in lower case, without a full stop, such as `nested too deeply`. Allocates nothing.
impl fmt::Display for SerdeCause {
    ghost output = { λ cause. Some (cause_text cause) };

    fn fmt<W: fmt::Write>(&self, f: &mut fmt::Formatter<W>) -> fmt::Result {
        match self {
            SerdeCause::TimeTooLarge => f.write_str("time too large"),
            SerdeCause::NotWhole => f.write_str("number not an integer of 64 bits"),
            SerdeCause::TooDeep => f.write_str("nested too deeply"),
        }
    }
}

impl fmt::Display for IntegrityFault {
    ghost output = { λ fault. Some (refusal_text fault) };

    fn fmt<W: fmt::Write>(&self, f: &mut fmt::Formatter<W>) -> fmt::Result {
        match self {
            IntegrityFault::BadText => f.write_str("integrity text not readable"),
            IntegrityFault::ShortDigest => f.write_str("integrity digest shorter than three bytes"),
            IntegrityFault::Check(wanted, actual) => {
                write!(
                    f,
                    "Integrity check failed.\n\tWanted: {wanted}\n\tActual: {actual}"
                )
            }
        }
    }
}

impl Error {
    /// Writes the text `{:#}`.
    fn write_short<W: fmt::Write>(&self, f: &mut fmt::Formatter<W>) -> fmt::Result {
        match self {
            Error::EntryNotFound(cache, key) => {
                write!(f, "no entry for key {key:?} in cache {cache:?}")
            }
            Error::SizeMismatch(wanted, actual) => {
                write!(f, "size mismatch: wanted {wanted}, actual {actual}")
            }
            Error::IoError(fault, text) => write!(f, "{fault}: {text}"),
            Error::SerdeError(cause, text) => write!(f, "{cause}: {text}"),
            Error::IntegrityError(IntegrityFault::Check(wanted, actual)) => {
                let (wanted, actual) = (shortened(wanted), shortened(actual));
                let (wanted, actual) = (wanted.as_str(), actual.as_str());
                write!(f, "integrity mismatch: wanted {wanted}, actual {actual}")
            }
            Error::IntegrityError(fault) => write!(f, "{fault}"),
            Error::OutOfMemory => f.write_str("out of memory"),
        }
    }
}

/// `{:#}` is one line that begins with the reason, and names the key or the path.
impl fmt::Display for Error {
    ghost output = { error_text };

    fn fmt<W: fmt::Write>(&self, f: &mut fmt::Formatter<W>) -> fmt::Result {
        if f.alternate() {
            return self.write_short(f);
        }
        match self {
            Error::EntryNotFound(cache, key) => {
                write!(f, "Entry not found for key {key:?} in cache {cache:?}")
            }
            Error::SizeMismatch(wanted, actual) => {
                write!(
                    f,
                    "Size check failed.\n\tWanted: {wanted}\n\tActual: {actual}"
                )
            }
            Error::IoError(_, text) | Error::SerdeError(_, text) => write!(f, "{text}"),
            Error::IntegrityError(fault) => write!(f, "{fault}"),
            Error::OutOfMemory => f.write_str("out of memory"),
        }
    }
}

impl error::Error for IntegrityFault {}

impl error::Error for Error {}
