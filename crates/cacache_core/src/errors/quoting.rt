//! The text that an error is about.
ghost use Rattle.std.specs.Prelude.{◌≡◌, ◌≤◌, length, take};

use crate::errors::Error;
use std::fmt;

/// The maximum number of bytes of a text that are shown.
const SHOWN: usize = 100;

/// An error, and the beginning of the text that it is about. It is displayed as, for example,
/// `integrity text not readable ("sha256")`. The text follows the error's own text in brackets, quoted
/// and escaped as by Rust's `{:?}`.
#[derive(Clone, Copy, Debug)]
pub struct Quoting<'a> {
    /// The error.
    pub error: &'a Error,
    /// The text that it is about, or its beginning: at most 100 bytes.
    pub text: &'a str,
}

impl fmt::Display for Quoting<'_> {
    fn fmt<W: fmt::Write>(&self, f: &mut fmt::Formatter<W>) -> fmt::Result {
        write!(f, "{} ({:?})", self.error, self.text)
    }
}

impl Error {
    /// This error with the text that it is about, such as one that `Integrity::parse` refused. The
    /// text is truncated to 100 bytes, or up to three fewer so that no character is split.
    /// Allocates nothing.
    pub fn quoting<'a>(&'a self, text: &'a str) -> Quoting<'a>
        ensures error { result.error.now ≡ self.now }
        ensures short { length result.text.now ≤ 100 }
        ensures beginning { result.text.now ≡ take (length result.text.now) text.now }
        ensures whole { length text.now ≤ 100 → result.text.now ≡ text.now }
    {
        Quoting {
            error: self,
            text: &text[..text.floor_char_boundary(SHOWN)],
        }
    }
}
