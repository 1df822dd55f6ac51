//! What the records of a world say about a caller.
ghost use Rattle.std.specs.Prelude.{◌≡◌, drop, option_copied};
ghost use Rattle.cacache_shared.specs.Lines.{is_record_of, records_of, is_move_of, moves_of, command_in, reply_given};

use cacache_calls::{Command, Reply};
use cacache_history::Record;
use cacache_world::World;

/// Whether a record is the caller's.
fn is_record_of(line: &Record, caller: usize) -> bool
    ensures { result ≡ is_record_of caller line.now }
{
    match line {
        Record::Began(c, _) => *c == caller,
        Record::Moved(c, _, _, _) => *c == caller,
        Record::Stopped(c) => *c == caller,
    }
}

/// How many of these records are the caller's.
fn records_of(lines: &[Record], caller: usize) -> usize
    ensures { result ≡ records_of caller lines.now }
{
    lines
        .iter()
        .filter(|line| is_record_of(line, caller))
        .count()
}

/// How many records of a world are the caller's.
pub(crate) fn records_in(world: &World, caller: usize) -> u64
    ensures { result ≡ records_of caller world.now.records }
{
    records_of(world.history(), caller) as u64
}

/// Whether a record is a move of the caller.
fn is_move_of(line: &Record, caller: usize) -> bool
    ensures { result ≡ is_move_of caller line.now }
{
    match line {
        Record::Moved(c, _, _, _) => *c == caller,
        _ => false,
    }
}

/// How many moves the caller made in these records.
fn moves_of(lines: &[Record], caller: usize) -> usize
    ensures { result ≡ moves_of caller lines.now }
{
    lines.iter().filter(|line| is_move_of(line, caller)).count()
}

/// How many moves a caller made.
pub(crate) fn moves_in(world: &World, caller: usize) -> u64
    ensures { result ≡ moves_of caller world.now.records }
{
    moves_of(world.history(), caller) as u64
}

/// The records from a place on.
pub(crate) fn later_in(world: &World, from: usize) -> &[Record]
    ensures { result.now ≡ drop from world.now.records }
{
    let records = world.history();
    if from <= records.len() {
        &records[from..]
    } else {
        &[]
    }
}

/// The command that the caller began here.
pub(crate) fn command_in(line: &Record, caller: usize) -> Option<&Command>
    ensures { option_copied result ≡ command_in caller line.now }
{
    match line {
        Record::Began(c, command) if *c == caller => Some(command),
        _ => None,
    }
}

/// The reply that the caller was given here.
pub(crate) fn reply_in(line: &Record, caller: usize) -> Option<&Reply>
    ensures { option_copied result ≡ reply_given caller line.now }
{
    match line {
        Record::Moved(c, _, _, Some(reply)) if *c == caller => Some(reply),
        _ => None,
    }
}
