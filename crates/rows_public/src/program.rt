//! Runs of the program, and its start without words.
use crate::acts::made;
use crate::row::{Row, bytes_of, words_of};
use crate::streams::{End, Input, Output};
use cacache::Error;
use cacache::env::Reasons;
use cacache::world::{StormFault, WorldFault};
use cacache_program::{Errors, USAGE, asks_why, run, said, tell, tell_failed_storm, without_words};
use row_places::On;
use rows::Flaw;
use rows::words::{cut, number_of, printed};
use std::alloc::{AllocError, Global};
use std::io::{self, ErrorKind};
use std::sync::Wait;
use std::thread::Threads;
use std::time::Clock;

/// Room for more than any row prints.
const AMPLE: usize = 1_000_000;

/// A run of the program.
#[derive(Clone, Copy)]
struct Run<'a> {
    words: &'a str,
    end: End,
    room: usize,
}

/// The run that an act asks for: `torn ..` for an input that fails at its end, `vast ..` for one for which memory is
/// refused, `full N ..` for an output with room for N bytes.
fn run_of(act: &str) -> Result<Run<'_>, Flaw> {
    let (words, end, room) = match cut(act) {
        ("torn", words) => (words, End::Torn, AMPLE),
        ("vast", words) => (words, End::Vast, AMPLE),
        ("full", rest) => {
            let (room, words) = cut(rest);
            (words, End::Plain, number_of(room)?)
        }
        _ => (act, End::Plain, AMPLE),
    };
    Ok(Run { words, end, room })
}

/// What a run of the program with these words and this input gives.
fn ran_with<T: Threads + Wait + Clock + AllocGlobal + Sync, S: Reasons>(
    rt: &T,
    env: &mut On<S>,
    words: &[String],
    mut input: Input<'_>,
    room: usize,
) -> Result<String, AllocError> {
    let alloc = env.alloc;
    let mut output = Output::new(alloc, room);
    let (says_why, words) = asks_why(words);
    let mut errors = Errors {
        output: Vec::new(alloc),
        says_why,
    };
    let status = match tell(words, said(), &mut output, &mut errors) {
        Some(status) => status,
        None => run(rt, env, words, &mut input, &mut output, &mut errors),
    };
    printed(alloc, status, &output.taken, &errors.output)
}

/// What a run of the program gives.
fn ran<T: Threads + Wait + Clock + AllocGlobal + Sync, S: Reasons>(
    rt: &T,
    env: &mut On<S>,
    row: Row<'_>,
) -> Result<String, Flaw> {
    let alloc = env.alloc;
    let Run { words, end, room } = run_of(row.act)?;
    let words = words_of(alloc, words)?;
    let given = bytes_of(alloc, row.input)?;
    let bytes = given.as_slice();
    Ok(ran_with(rt, env, &words, Input { bytes, end }, room)?)
}

/// What the row's act gives, as a run of the program if it is one, and otherwise as a call.
pub(crate) fn ran_or_made<T: Threads + Wait + Clock + AllocGlobal + Sync, S: Reasons>(
    rt: &T,
    env: &mut On<S>,
    row: Row<'_>,
) -> Result<String, Flaw> {
    match cut(row.act) {
        ("cacache", act) => ran(rt, env, Row { act, ..row }),
        _ => made(env, row),
    }
}

/// What is reported of a storm that ends early.
pub(crate) fn ended(alloc: Global, why: &str) -> Result<String, Flaw> {
    let fault = match why {
        "count" => StormFault::Count,
        "mismatch" => StormFault::Mismatch,
        "quit" => StormFault::Quit,
        "failed" => StormFault::Failed(Error::OutOfMemory),
        "world" => StormFault::World(WorldFault::Idle),
        _ => return Err(Flaw::NotRead),
    };
    let mut errors = Errors::new(Vec::new(alloc));
    let status = tell_failed_storm(&mut errors, fault);
    Ok(printed(alloc, status, b"", &errors.output)?)
}

/// What is reported if the words can't be had, since memory ran out or a word isn't UTF-8.
pub(crate) fn without(alloc: Global, why: &str) -> Result<String, Flaw> {
    let kind = match why {
        "memory" => ErrorKind::OutOfMemory,
        "UTF-8" => ErrorKind::InvalidData,
        _ => return Err(Flaw::NotRead),
    };
    let mut errors = Errors::new(Vec::new(alloc));
    let status = without_words(&io::Error::from(kind), USAGE, &mut errors);
    Ok(printed(alloc, status, b"", &errors.output)?)
}
