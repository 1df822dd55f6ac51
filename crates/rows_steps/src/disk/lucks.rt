//! Lucks as words: `Plain`, `Take 2`, `Fail Device`, or `Fail Device 2` if a part is left done.
use crate::calls::words::fault_of;
use cacache_disk::Luck;
use rows::Flaw;
use rows::words::{cut, number_of};

/// The fault that a text says, and how much is left done.
fn failing(text: &str) -> Result<Luck, Flaw> {
    let (name, part) = cut(text);
    let fault = fault_of(name)?;
    if part.is_empty() {
        return Ok(Luck::Fail(fault, None));
    }
    Ok(Luck::Fail(fault, Some(number_of(part)?)))
}

/// The luck that a text says.
pub(crate) fn luck_of(text: &str) -> Result<Luck, Flaw> {
    match cut(text) {
        ("Plain", "") => Ok(Luck::Plain),
        ("Take", most) => Ok(Luck::Take(number_of(most)?)),
        ("Fail", rest) => failing(rest),
        _ => Err(Flaw::NotRead),
    }
}
