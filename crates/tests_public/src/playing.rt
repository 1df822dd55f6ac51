//! What callers do, as rows, and what comes of it in words.
use crate::making::{durable_put, integrity, link, put};
use cacache_calls::{Command, Found, Reply};
use cacache_core::errors::Error;
use cacache_core::keeping::let_go;
use cacache_core::text::Text;
use cacache_disk::Luck;
use cacache_world::{Move, World, WorldFault};
use std::alloc::{AllocError, Global};

/// What a caller does.
#[derive(Clone, Copy)]
pub(crate) enum Act {
    /// It begins to put a text under a key.
    Put(&'static str, &'static str),
    /// It does so durably.
    PutDurably(&'static str, &'static str),
    /// It begins to link to the outside file under a key.
    Link(&'static str),
    /// It begins to look a key up.
    Find(&'static str),
    /// It begins to read the content of an integrity.
    GetHash(&'static str),
    /// It begins to remove a key and its content.
    RemoveFully(&'static str),
    /// It goes on with its call.
    Go,
    /// It gives its call up.
    Stop,
}

/// A caller, what it does, how many moves it makes, the luck of the last of them, and what came of
/// that one.
pub(crate) type Row = (usize, Act, usize, Luck, &'static str);

/// The command that an act begins, if it begins one.
fn command_of(alloc: Global, act: Act) -> Result<Option<Command>, AllocError> {
    Ok(Some(match act {
        Act::Put(key, data) => put(alloc, key, data)?,
        Act::PutDurably(key, data) => durable_put(alloc, key, data)?,
        Act::Link(key) => link(alloc, key)?,
        Act::Find(key) => Command::Find(Text::from_str(alloc, key)?),
        Act::GetHash(text) => Command::GetHash(integrity(alloc, text)?),
        Act::RemoveFully(key) => Command::RemoveFully(Text::from_str(alloc, key)?),
        Act::Go | Act::Stop => return Ok(None),
    }))
}

/// What a lookup found, in words.
fn shown_found(alloc: Global, found: &Found) -> Result<String, AllocError> {
    let found = found.as_metadata();
    format!(in alloc; "found {} {} {}", found.key, found.integrity, found.size)
}

/// A reply in words; a failed step is its fault.
fn shown(alloc: Global, reply: &Reply) -> Result<String, AllocError> {
    match reply {
        Reply::Stored(integrity) => format!(in alloc; "stored {integrity}"),
        Reply::Read(bytes) => {
            let text = str::from_utf8(bytes.as_slice()).unwrap_or("?");
            format!(in alloc; "read {text}")
        }
        Reply::LookedUp(None) => String::from_str(alloc, "nothing"),
        Reply::LookedUp(Some(found)) => shown_found(alloc, found),
        Reply::Done => String::from_str(alloc, "done"),
        Reply::Refused(Error::IoError(fault, _)) => format!(in alloc; "{fault:?}"),
        _ => String::from_str(alloc, "another reply"),
    }
}

/// What came of a move that so many are to follow, in words: none if the call goes on.
fn ended(
    alloc: Global,
    came: &Result<Move, WorldFault>,
    after: usize,
) -> Result<Option<String>, AllocError> {
    Ok(Some(match came {
        Ok(Move::More) => return Ok(None),
        Ok(Move::Done(reply)) if after == 0 => shown(alloc, reply)?,
        Ok(Move::Done(_)) => format!(in alloc; "over {after} moves before")?,
        Err(fault) => format!(in alloc; "{fault:?}")?,
    }))
}

/// What came of the last of so many moves, in words: `more` if the call goes on.
fn moved(
    alloc: Global,
    world: &mut World,
    caller: usize,
    moves: usize,
    last: Luck,
) -> Result<String, AllocError> {
    for count in 0..moves {
        let after = moves - count - 1;
        let luck = if after == 0 { last } else { Luck::Plain };
        let came = world.move_one(caller, luck);
        let ended = ended(alloc, &came, after);
        let_go(came);
        if let Some(words) = ended? {
            return Ok(words);
        }
    }
    String::from_str(alloc, "more")
}

/// Begins the call of an act, or gives one up.
fn acted(
    alloc: Global,
    world: &mut World,
    caller: usize,
    act: Act,
) -> Result<Result<(), WorldFault>, AllocError> {
    Ok(match command_of(alloc, act)? {
        Some(command) => world.begin(caller, command),
        None if matches!(act, Act::Stop) => world.stop(caller),
        None => Ok(()),
    })
}

/// What came of a row, in words.
fn came(alloc: Global, world: &mut World, row: &Row) -> Result<String, AllocError> {
    let (caller, act, moves, luck, _) = *row;
    match acted(alloc, world, caller, act)? {
        Ok(()) => moved(alloc, world, caller, moves, luck),
        Err(fault) => format!(in alloc; "{fault:?}"),
    }
}

/// The row's number and what came of it, if that is something other than it says.
fn other(
    alloc: Global,
    world: &mut World,
    row: &Row,
    number: usize,
) -> Result<Option<String>, AllocError> {
    let came = came(alloc, world, row)?;
    if came.as_str() == row.4 {
        return Ok(None);
    }
    Ok(Some(format!(in alloc; "row {number}: {came}")?))
}

/// Plays rows in a world, up to the first one at which something else came: its number, from 1, and
/// what came; empty if there is no such row.
pub(crate) fn played(alloc: Global, world: &mut World, rows: &[Row]) -> Result<String, AllocError> {
    for i in 0..rows.len() {
        if let Some(line) = other(alloc, world, &rows[i], i + 1)? {
            return Ok(line);
        }
    }
    Ok(String::new(alloc))
}
