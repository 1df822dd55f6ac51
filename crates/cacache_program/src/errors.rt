//! What goes to the errors.
ghost use Rattle.std.specs.Prelude.{◌≡◌, false};

use crate::why::why_of;
use cacache::content::path::content_path;
use cacache::errors::{Error, IntegrityFault};
use std::alloc::Global;
use std::io::{ErrorKind, Write};

/// Where errors are printed.
#[derive(Drop)]
pub struct Errors<E> {
    /// What takes the lines.
    pub output: E,
    /// Whether a failed call's line ends with why it failed, in brackets.
    pub says_why: bool,
}

impl<E: Drop> Errors<E> {
    /// Errors that go to this output, and don't say why.
    pub fn new(output: E) -> Errors<E>
        ensures output { result.output ≡ output }
        ensures plain { result.says_why ≡ false }
    {
        Errors {
            output,
            says_why: false,
        }
    }
}

/// Prints this usage, and returns the status of wrong words. If the errors say why, a line follows that says what is
/// wrong with them.
pub fn tell_misuse<E: Write>(usage: &str, wrong: &str, errors: &mut Errors<E>) -> u8
    ensures { result ≡ 2 }
{
    let _ = errors.output.write_all(usage.as_bytes());
    if errors.says_why {
        let _ = writeln!(errors.output, "{wrong}; see --help");
    }
    2
}

/// Prints a call's error on a line of its own, and returns the status of a failed call. If the errors say why, that
/// comes after the text in brackets: it is `why_of` the error and this reason, and nothing if that is none.
pub fn tell_failed_call<E: Write>(
    errors: &mut Errors<E>,
    error: &Error,
    reason: Option<ErrorKind>,
) -> u8
    ensures { result ≡ 1 }
{
    let why = if errors.says_why {
        why_of(error, reason)
    } else {
        None
    };
    let _ = match why {
        Some(why) => writeln!(errors.output, "{error} ({why})"),
        None => writeln!(errors.output, "{error}"),
    };
    1
}

/// Prints what failed on a line of its own, and returns the status of a failed call. If the errors say why, this kind
/// of error comes after the text in brackets.
pub(crate) fn tell_failure<E: Write>(
    errors: &mut Errors<E>,
    failure: &str,
    kind: Option<ErrorKind>,
) -> u8
    ensures { result ≡ 1 }
{
    let _ = match kind {
        Some(kind) if errors.says_why => writeln!(errors.output, "{failure} ({kind})"),
        _ => writeln!(errors.output, "{failure}"),
    };
    1
}

/// Prints an error about a text or a path, and returns the status of a failed call. If the errors say why, that comes
/// after the error's text in brackets.
fn tell_about<E: Write>(errors: &mut Errors<E>, error: &Error, about: &str) -> u8
    ensures { result ≡ 1 }
{
    let _ = if errors.says_why {
        writeln!(errors.output, "{error} ({about})")
    } else {
        writeln!(errors.output, "{error}")
    };
    1
}

/// Prints why a text gave no integrity, and returns the status of a failed call. If the errors say why, the text
/// comes after it in brackets, or why its file couldn't be read.
pub(crate) fn tell_unread<E: Write>(
    errors: &mut Errors<E>,
    error: &Error,
    text: &str,
    reason: Option<ErrorKind>,
) -> u8
    ensures { result ≡ 1 }
{
    match error {
        Error::IntegrityError(_) => tell_about(errors, error, text),
        _ => tell_failed_call(errors, error, reason),
    }
}

/// Prints the error of a read from this cache, and returns the status of a failed call. If the errors say why and a
/// content is damaged, its path comes after the text in brackets; otherwise it is as `tell_failed_call`.
pub(crate) fn tell_failed_read<E: Write>(
    alloc: Global,
    errors: &mut Errors<E>,
    cache: &str,
    error: &Error,
    reason: Option<ErrorKind>,
) -> u8
    ensures { result ≡ 1 }
{
    let Error::IntegrityError(IntegrityFault::Check(wanted, _)) = error else {
        return tell_failed_call(errors, error, reason);
    };
    match content_path(alloc, cache, wanted) {
        Ok(path) => tell_about(errors, error, path.as_str()),
        Err(_) => tell_failed_call(errors, error, reason),
    }
}
