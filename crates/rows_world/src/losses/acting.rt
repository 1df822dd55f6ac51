//! The calls that a row writes out, of one caller.
use crate::losses::history::put_of;
use cacache_calls::{Command, Reply};
use cacache_core::errors::{Error, Fault};
use cacache_core::keeping::let_go;
use cacache_disk::Luck;
use cacache_world::{Move, World};
use rows::Flaw;
use rows::words::{cut, number_of};
use std::alloc::Global;

/// More moves than any call makes.
const MOST: usize = 99;

/// The caller makes a move with this luck: whether its call is over.
fn is_over(world: &mut World, luck: Luck) -> Result<bool, Flaw> {
    match world.move_one(0, luck) {
        Ok(moved) => {
            let over = matches!(&moved, Move::Done(_));
            let_go(moved);
            Ok(over)
        }
        Err(_) => Err(Flaw::Refused),
    }
}

/// The caller makes so many moves at most: how many it made if its call is over then.
fn moves(world: &mut World, most: usize) -> Result<Option<usize>, Flaw> {
    for number in 0..most {
        if is_over(world, Luck::Plain)? {
            return Ok(Some(number.saturating_add(1)));
        }
    }
    Ok(None)
}

/// The caller makes so many moves, fails at the next one, and goes on until its call is over.
fn fail_at(world: &mut World, before: usize) -> Result<(), Flaw> {
    moves(world, before)?;
    if !is_over(world, Luck::Fail(Fault::Device, None))? {
        moves(world, MOST)?;
    }
    Ok(())
}

/// The caller makes so many moves, and stops if its call isn't over then.
fn stop_at(world: &mut World, most: usize) -> Result<(), Flaw> {
    if moves(world, most)?.is_some() {
        return Ok(());
    }
    match world.stop(0) {
        Ok(()) => Ok(()),
        Err(_) => Err(Flaw::Refused),
    }
}

/// The caller begins a call: `ls`, `clear`, or a put. What follows it.
fn begin<'a>(
    alloc: Global,
    world: &mut World,
    act: &'a str,
    moment: u128,
) -> Result<&'a str, Flaw> {
    let (kind, rest) = cut(act);
    let (key, rest) = cut(rest);
    let (text, moves) = cut(rest);
    let command = match kind {
        "ls" => Command::Ls,
        "clear" => Command::Clear,
        _ => put_of(alloc, key, text, moment, kind == "durable")?,
    };
    match world.begin(0, command) {
        Ok(()) => Ok(moves),
        Err(_) => Err(Flaw::Refused),
    }
}

/// The caller makes a call, or so many of its moves; if a `!` follows them the next one fails.
pub(crate) fn make(alloc: Global, world: &mut World, act: &str, moment: u128) -> Result<(), Flaw> {
    let words = begin(alloc, world, act, moment)?;
    match words.strip_suffix("!") {
        Some(before) => fail_at(world, number_of(before)?),
        None if words.is_empty() => stop_at(world, MOST),
        None => stop_at(world, number_of(words)?),
    }
}

/// The number of a call's last move; if this is to fail, the fault that the call replies.
fn ended(alloc: Global, world: &mut World, words: &str) -> Result<String, Flaw> {
    let Some(before) = words.strip_suffix("!") else {
        let count = moves(world, MOST)?.unwrap_or(0);
        return Ok(format!(in alloc; "{count}")?);
    };
    let before = number_of(before)?;
    moves(world, before)?;
    match world.move_one(0, Luck::Fail(Fault::Device, None)) {
        Ok(Move::Done(Reply::Refused(Error::IoError(fault, _)))) => {
            Ok(format!(in alloc; "{} {fault:?}", before.saturating_add(1))?)
        }
        _ => Err(Flaw::Unfit),
    }
}

/// How many moves each call takes; a call with a move that fails is followed by its fault.
pub(crate) fn counted(alloc: Global, world: &mut World, acts: &str) -> Result<String, Flaw> {
    let mut line = String::new(alloc);
    for (number, act) in acts.split("; ").enumerate() {
        let words = begin(alloc, world, act, number as u128)?;
        let ended = ended(alloc, world, words)?;
        let comma = if line.is_empty() { "" } else { ", " };
        line.push_str(comma)?;
        line.push_str(ended.as_str())?;
    }
    Ok(line)
}
