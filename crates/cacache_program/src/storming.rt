//! The word `storm`.
ghost use Rattle.std.specs.{Prelude.{◌≡◌, ◌≢◌, IfOk, IfSome, Some, true}, Str.{all_ascii_digits, Parse.{digits_value}}};
ghost use Rattle.cacache.specs.Shared.{Count};
ghost use Rattle.cacache_program.specs.{Output.{PutsOutOrFails}, WordStorm.{Storms, storm_text}};

use crate::about::USAGE;
use crate::counts::counts_text;
use crate::errors::{Errors, tell_failed_call, tell_failure, tell_misuse};
use crate::output::put_made;
use cacache::Result;
use cacache::jobs::Open;
use cacache::world::{Storm, StormFault};
use std::alloc::Global;
use std::io::Write;
use std::sync::Wait;
use std::thread::Threads;
use std::time::Clock;

/// Whether these bytes are decimal digits alone.
pub(crate) fn are_digits(bytes: &[u8]) -> bool
    ensures { result ≡ all_ascii_digits bytes.now }
{
    for byte in bytes {
        if !byte.is_ascii_digit() {
            return false;
        }
    }
    true
}

/// The number that decimal digits alone give, if it has 64 bits.
pub(crate) fn number_of(word: &str) -> Option<u64>
    ensures digits { IfSome result (λ n. all_ascii_digits word.now ≡ true) }
    ensures value { IfSome result (λ n. n ≡ digits_value 10 word.now) }
{
    if !are_digits(word.as_bytes()) {
        return None;
    }
    word.parse::<u64>().ok()
}

/// Prints why a storm failed, and returns the status: that of wrong words for numbers out of range.
pub fn tell_failed_storm<E: Write>(errors: &mut Errors<E>, fault: StormFault) -> u8
    ensures count { fault ≡ Count → result ≡ 2 }
    ensures other { fault ≢ Count → result ≡ 1 }
{
    match fault {
        StormFault::Count => tell_misuse(USAGE, "too few or too many", errors),
        StormFault::Mismatch => tell_failure(errors, "storm: mismatch", None),
        StormFault::Quit => tell_failure(errors, "storm: quit", None),
        StormFault::Failed(error) => tell_failed_call(errors, &error, None),
        StormFault::World(_) => tell_failure(errors, "storm: world", None),
    }
}

/// How many moves a storm made, and how many entries there are, a line each.
fn storm_text(alloc: Global, storm: &Storm) -> Result<Vec<u8>>
    ensures { IfOk result (λ text. text.items ≡ storm_text storm.now.moves storm.now.live) }
{
    counts_text(alloc, &[("moves", storm.moves), ("live", storm.live)])
}

/// Prints what a storm came to, and returns the status.
#[tactic(auto, using(crate::proofs::Made::made_puts))]
fn tell<W: Write, E: Write>(
    alloc: Global,
    storm: Storm,
    output: &mut W,
    errors: &mut Errors<E>,
) -> u8
    ensures tells { PutsOutOrFails (Some (storm_text storm.moves storm.live))
        (W.contents output.old) (W.contents output.new) result }
    ensures quiet { result ≡ 0 → errors.new ≡ errors.old }
{
    put_made(storm_text(alloc, &storm), 0, output, errors)
}

/// Runs a storm of so many threads with so many keys each, waits for them, and prints what it came to.
pub(crate) fn storm<T: Threads + Wait + Clock + AllocGlobal + Sync, W: Write, E: Write>(
    rt: &T,
    threads: &str,
    keys: &str,
    output: &mut W,
    errors: &mut Errors<E>,
) -> u8
    ensures does { Storms threads.now keys.now
        (W.contents output.old) (W.contents output.new) result }
    ensures same { result ≡ 2 → output.new ≡ output.old }
    ensures quiet { result ≡ 0 → errors.new ≡ errors.old }
{
    let (Some(threads), Some(keys)) = (number_of(threads), number_of(keys)) else {
        return tell_misuse(USAGE, "not a number", errors);
    };
    match cacache::world::storm(rt, threads, keys, &Open) {
        Ok(storm) => tell(rt.alloc(), storm, output, errors),
        Err(fault) => tell_failed_storm(errors, fault),
    }
}
