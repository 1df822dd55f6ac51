//! Texts, numbers and environments.
use crate::values::words::{Debugged, column, printed, three, two};
use cacache_core::text::Text;
use cacache_store::env::{CountNames, Env, Names};
use rows::Flaw;
use rows::words::number_of;
use std::alloc::Global;

/// The text in quotes, whether a copy is equal, and the string inside the copy.
pub(crate) fn text(alloc: Global, word: &str) -> Result<String, Flaw> {
    let text = Text::new(String::from_str(alloc, word)?);
    let copy = text.clone()?;
    let is_copied = text == copy;
    three(alloc, Debugged(text), is_copied, copy.into_string())
}

/// Whether two texts differ, whether the first is less, and their order.
pub(crate) fn compare(alloc: Global, columns: &str) -> Result<String, Flaw> {
    let (one, other) = column(columns);
    let one = Text::from_str(alloc, one)?;
    let other = Text::from_str(alloc, other)?;
    three(alloc, one != other, one < other, Debugged(one.cmp(&other)))
}

/// The number that follows after this many, counted from the first one.
pub(crate) fn number(alloc: Global, columns: &str) -> Result<String, Flaw> {
    let (first, count) = column(columns);
    let mut names = CountNames::from(number_of(first)? as u64);
    for _number in 0..number_of(count)? {
        names.fresh();
    }
    printed(alloc, names.fresh())
}

/// The parts of an environment with this base folder: a number, its store, its clock and its base folder.
pub(crate) fn environment(alloc: Global, base: &str) -> Result<String, Flaw> {
    let mut env = Env::new(alloc, 3u8, "clock", CountNames::from(7), base)?;
    let number = env.names.fresh();
    let others = three(alloc, env.store, env.clock, env.base)?;
    two(alloc, number, others)
}
