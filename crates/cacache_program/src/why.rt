//! Why a call failed, if the words ask for it.
ghost use Rattle.std.specs.{Prelude.{◌≡◌, ◌≢◌, Option, Some, None, IfSome, true, false, drop}, declared.io.ErrorKind.{ErrorKind}};
ghost use Rattle.cacache_core.specs.Errors.{fault_in, fault_of};
ghost use Rattle.cacache_program.specs.{declared.why.Why.TheVariants.{System, Plain}, Words.{AsksWhy}};

use cacache::errors::{Error, Fault};
use std::fmt;
use std::io::ErrorKind;

/// Why a step failed.
#[derive(Clone, Copy, Debug, PartialEq, Eq)]
pub enum Why {
    /// The system's kind of error.
    System(ErrorKind),
    /// The fault alone, if the system's kind isn't known.
    Plain(Fault),
}

/// A few words in lower case, with no full stop, such as `permission denied` or `not found`.
impl fmt::Display for Why {
    fn fmt<W: fmt::Write>(&self, f: &mut fmt::Formatter<W>) -> fmt::Result {
        match self {
            Why::System(kind) => kind.fmt(f),
            Why::Plain(fault) => fault.fmt(f),
        }
    }
}

/// Why a call failed: this reason, if its fault is the error's, and otherwise that fault. None for an error that has
/// no fault.
pub fn why_of(error: &Error, reason: Option<ErrorKind>) -> Option<Why>
    ensures none { fault_in error.now ≡ None → result ≡ None }
    ensures kind { IfSome reason (λ kind. fault_in error.now ≡ Some (fault_of kind)
        → result ≡ Some (System kind)) }
    ensures fault { IfSome (fault_in error.now) (λ fault. IfSome reason (λ kind.
        fault_of kind ≢ fault) → result ≡ Some (Plain fault)) }
{
    let fault = error.fault()?;
    match reason {
        Some(kind) if Fault::from(kind) == fault => Some(Why::System(kind)),
        _ => Some(Why::Plain(fault)),
    }
}

/// Whether the first word is `--why`, and the words that say what to do: those after it, or otherwise all.
pub fn asks_why(words: &[String]) -> (bool, &[String])
    ensures yes { AsksWhy words.now → (result.0 ≡ true) × (result.1.now ≡ drop 1 words.now) }
    ensures no { (AsksWhy words.now → ⊥) → (result.0 ≡ false) × (result.1.now ≡ words.now) }
{
    let Some((first, others)) = words.split_first() else {
        return (false, words);
    };
    match first.as_str() {
        "--why" => (true, others),
        _ => (false, words),
    }
}
