//! Bytes that are shared, cut and grown.
ghost use Rattle.std.specs.Prelude.{◌≤◌, IfOk};

use crate::values::words::{column, three, two};
use cacache_core::bytes::Bytes;
use cacache_core::keeping::beside;
use rows::Flaw;
use rows::answers::given;
use rows::words::number_of;
use std::alloc::Global;

/// The bytes of a text.
fn bytes(alloc: Global, text: &str) -> Result<Bytes, Flaw> {
    Ok(Bytes::new(alloc, Vec::from_slice(alloc, text.as_bytes())?)?)
}

/// The text of bytes, which are turned into a vector.
fn text(alloc: Global, bytes: Bytes) -> Result<String, Flaw> {
    given(String::from_utf8(bytes.into_vec(alloc)?))
}

/// The number that a word spells, if it is at most this limit.
fn at_most(word: &str, limit: usize) -> Result<usize, Flaw>
    ensures { IfOk result (λ number. number ≤ limit) }
{
    match number_of(word)? {
        number if number <= limit => Ok(number),
        _ => Err(Flaw::NotRead),
    }
}

/// This many bytes of a text, from this one on. Nobody else owns them.
fn part(alloc: Global, text: &str, from: &str, count: &str) -> Result<Bytes, Flaw> {
    let whole = bytes(alloc, text)?;
    let from = at_most(from, whole.len())?;
    let rest = whole.rest(from);
    let count = at_most(count, rest.len())?;
    Ok(rest.front(count))
}

/// The length of a part of a text in bytes, and the part itself.
pub(crate) fn window(alloc: Global, columns: &str) -> Result<String, Flaw> {
    let (data, columns) = column(columns);
    let (from, count) = column(columns);
    let part = part(alloc, data, from, count)?;
    let length = part.len();
    two(alloc, length, text(alloc, part)?)
}

/// Whether a copy of shared bytes is equal, whether nothing follows its last byte, and the original bytes.
pub(crate) fn shared(alloc: Global, data: &str) -> Result<String, Flaw> {
    let whole = bytes(alloc, data)?;
    let copy = whole.share()?;
    let is_equal = whole == copy;
    let count = copy.len();
    let end = copy.rest(count);
    let whole = text(alloc, whole)?;
    three(alloc, is_equal, end.is_empty(), whole)
}

/// The bytes with more appended.
fn with(bytes: Bytes, more: &str) -> Result<Bytes, Flaw> {
    let mut bytes = bytes;
    bytes.extend(more.as_bytes())?;
    Ok(bytes)
}

/// This many of the first bytes of a copy, with more appended.
fn front_with(alloc: Global, whole: &Bytes, count: &str, more: &str) -> Result<String, Flaw> {
    let count = at_most(count, whole.len())?;
    let front = whole.share()?.front(count);
    text(alloc, with(front, more)?)
}

/// The first bytes of a copy, with more appended, and the original bytes.
pub(crate) fn grown(alloc: Global, columns: &str) -> Result<String, Flaw> {
    let (data, columns) = column(columns);
    let (count, more) = column(columns);
    let whole = bytes(alloc, data)?;
    let (front, whole) = beside(front_with(alloc, &whole, count, more), whole)?;
    let (whole, front) = beside(text(alloc, whole), front)?;
    two(alloc, front, whole)
}

/// A part of a text, with the same bytes appended twice.
pub(crate) fn grown_alone(alloc: Global, columns: &str) -> Result<String, Flaw> {
    let (data, columns) = column(columns);
    let (from, columns) = column(columns);
    let (count, more) = column(columns);
    let part = part(alloc, data, from, count)?;
    let part = with(part, more)?;
    text(alloc, with(part, more)?)
}
