//! Words as bytes and texts, and values as texts.
use cacache_core::errors::Error;
use rows::Flaw;
use rows::answers::given;
use rows::words::{bytes_of, is_nothing};
use std::alloc::Global;
use std::fmt::{self, Debug, Display, Formatter, Write};

/// The first column of an act's input, and the columns after it. A missing column is empty.
pub(crate) fn column(columns: &str) -> (&str, &str) {
    columns.split_once(" | ").unwrap_or((columns, ""))
}

/// A word as it is written, except that `-` is the empty word.
pub(crate) fn plain(word: &str) -> &str {
    if is_nothing(word) { "" } else { word }
}

/// The text of a word.
pub(crate) fn text_of(alloc: Global, word: &str) -> Result<String, Flaw> {
    given(String::from_utf8(bytes_of(alloc, word)?))
}

/// What a value prints as.
pub(crate) fn printed<T: Display + Drop>(alloc: Global, value: T) -> Result<String, Flaw> {
    given(value.to_string(alloc))
}

/// What the value or the error prints as.
pub(crate) fn told<T: Display + Drop>(
    alloc: Global,
    came: Result<T, Error>,
) -> Result<String, Flaw> {
    match came {
        Ok(value) => printed(alloc, value),
        Err(error) => printed(alloc, error),
    }
}

/// What two values print as.
pub(crate) fn two<A: Display + Drop, B: Display + Drop>(
    alloc: Global,
    one: A,
    other: B,
) -> Result<String, Flaw> {
    given(format!(in alloc; "{one} {other}"))
}

/// What three values print as.
pub(crate) fn three<A: Display + Drop, B: Display + Drop, C: Display + Drop>(
    alloc: Global,
    one: A,
    other: B,
    third: C,
) -> Result<String, Flaw> {
    given(format!(in alloc; "{one} {other} {third}"))
}

/// A value that prints in its `Debug` form.
#[derive(Drop)]
pub(crate) struct Debugged<T>(pub(crate) T);

impl<T: Debug> Display for Debugged<T> {
    fn fmt<W: Write>(&self, f: &mut Formatter<W>) -> fmt::Result {
        write!(f, "{:?}", self.0)
    }
}
