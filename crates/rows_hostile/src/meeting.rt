//! Two puts of one key, with moves that meet: so many of the first one's, all of the second one's, and then the rest.
use crate::facts::{CONTENTS, Content};
use crate::model::Call;
use crate::side::{Came, Sides};
use crate::texts::found;
use cacache_core::keeping::{beside, let_go};
use cacache_disk::Luck;
use std::alloc::{AllocError, Global};

/// How many moves a put makes.
pub(crate) const MOVES: usize = 7;

/// Makes so many moves of a caller's call: how the sides differ, if they do.
fn moves(sides: &mut Sides, caller: usize, count: usize) -> Result<Option<String>, AllocError> {
    for _ in 0..count {
        match sides.go(caller, Luck::Plain)? {
            Came::Differs(text) => return Ok(Some(text)),
            came => let_go(came),
        }
    }
    Ok(None)
}

/// Makes these events: how the sides differ, if they do.
fn meet(
    sides: &mut Sides,
    first: Content,
    second: Content,
    before: usize,
) -> Result<Option<String>, AllocError> {
    sides.begin(0, Call::Put(first))?;
    sides.begin(1, Call::Put(second))?;
    let rest = MOVES.saturating_sub(before);
    for (caller, count) in [(0, before), (1, MOVES), (0, rest)] {
        if let Some(text) = moves(sides, caller, count)? {
            return Ok(Some(text));
        }
    }
    Ok(None)
}

/// Whether both contents are there, and both entries: the first put's last.
fn holds_both(sides: &Sides, first: Content, second: Content) -> Result<bool, AllocError> {
    let value = &sides.model.value;
    let entries = value.entries()?;
    Ok(value.has(first) && value.has(second) && entries.as_slice() == [second, first].as_slice())
}

/// What a lookup should answer: that of the put with the later append.
fn finds(alloc: Global, sides: &mut Sides, first: Content) -> Result<bool, AllocError> {
    sides.begin(1, Call::Find)?;
    let wanted = found(alloc, first)?;
    let (came, wanted) = beside(sides.go(1, Luck::Plain), wanted)?;
    Ok(matches!(&came, Came::Over(reply) if *reply == wanted))
}

/// How two puts that met differ from what should come, if they do.
fn unlike(
    alloc: Global,
    sides: &mut Sides,
    first: Content,
    second: Content,
) -> Result<Option<String>, AllocError> {
    if let Some(text) = sides.differing()? {
        return Ok(Some(text));
    }
    if holds_both(sides, first, second)? && finds(alloc, sides, first)? {
        return Ok(None);
    }
    Ok(Some(String::from_str(alloc, "not both, or the earlier one found")?))
}

/// How two puts that meet so on these sides differ from what should come.
fn met_on(
    alloc: Global,
    sides: &mut Sides,
    first: Content,
    second: Content,
    before: usize,
) -> Result<Option<String>, AllocError> {
    match meet(sides, first, second, before)? {
        Some(text) => Ok(Some(text)),
        None => unlike(alloc, sides, first, second),
    }
}

/// How two puts that meet so on sides of their own differ from what should come.
fn met(
    alloc: Global,
    first: Content,
    second: Content,
    before: usize,
) -> Result<Option<String>, AllocError> {
    let mut sides = Sides::new(alloc, 2, false)?;
    met_on(alloc, &mut sides, first, second, before)
}

/// Both puts as first, and each number of moves before the second one's: how many runs went as they should, or what
/// differed.
pub(crate) fn all_met(alloc: Global) -> Result<String, AllocError> {
    let mut runs: usize = 0;
    for number in 0..MOVES.saturating_mul(CONTENTS.len()) {
        let before = number % MOVES;
        let (first, second) = if number < MOVES {
            (Content::One, Content::Two)
        } else {
            (Content::Two, Content::One)
        };
        if let Some(text) = met(alloc, first, second, before)? {
            return format!(in alloc; "{first:?} after {before} moves: {text}");
        }
        runs = runs.saturating_add(1);
    }
    format!(in alloc; "{runs} runs")
}
