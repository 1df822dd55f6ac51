//! Fresh files, which take the place of others once they are filled.
ghost use Rattle.std.specs.Prelude.{◌≡◌, ◌++◌, ℕ, List, IfOk, OnOk, string_bytes};
ghost use Rattle.cacache_system.specs.declared.call.SystemCall.TheVariants as asks;
ghost use Rattle.cacache_system.specs.{declared.call.CallResult.{CallResult}, Seen.{said, MakesCall}, CallsOf.{RunLogged}};
ghost use Rattle.cacache_system.specs.declared.call.CallResult.TheVariants as says;
ghost use Rattle.cacache_system.specs.CallsOf as calls;
ghost use Rattle.cacache_folder.specs.Goings.{GoesOrEnds};

use crate::folder::files::PRIVATE;
use crate::folder::paths::above;
use cacache_core::keeping::let_go;
use cacache_core::text::Text;
use cacache_system::System;
use std::alloc::{AllocError, Global};
use std::io;
use std::io::ErrorKind;

/// How many names are tried for a fresh file after the first.
const MORE_NAMES: u64 = 255;

/// A count of bytes. A number of bytes in memory has as many bits as one on the system.
pub(crate) fn count_of(count: u64) -> usize
    ensures { result ≡ count }
{
    usize::try_from(count).unwrap_or(usize::MAX)
}

/// Puts the name of a fresh file after a text.
fn push_name(text: &mut String, alloc: Global, number: u64) -> Result<(), AllocError>
    ensures { OnOk result (string_bytes text.new
        ≡ string_bytes text.old ++ calls.fresh_name number) }
{
    let digits = hex::encode(alloc, number.to_be_bytes().as_slice())?;
    text.push_str(".tmp")?;
    text.push_str(digits.as_str())
}

/// The path of a fresh file in the folder of another.
fn fresh_beside(alloc: Global, path: &str, number: u64) -> Result<Text, AllocError>
    ensures { IfOk result (λ text. text ≡ calls.fresh_beside path.now number) }
{
    let mut text = String::new(alloc);
    if let Some(folder) = above(path) {
        text.push_str(folder)?;
        text.push_str("/")?;
    }
    push_name(&mut text, alloc, number)?;
    Ok(Text::new(text))
}

/// Whether something is there.
fn already_exists(kind: ErrorKind) -> bool
    ensures { result ≡ calls.already_exists kind }
{
    matches!(kind, ErrorKind::AlreadyExists)
}

/// Makes an empty file next to the path, under the first of its names that is free, and returns its path.
fn make_fresh<Y: System>(
    system: &mut Y,
    alloc: Global,
    left: u64,
    number: u64,
    path: &str,
) -> io::Result<Text>
    ensures { (from : List ℕ) → GoesOrEnds
        (calls.taking_memory (calls.making_fresh left number from path.now))
        (λ fresh. calls.filling from fresh path.now) result
        (Y.calls system.old) (Y.calls system.new) }
{
    let Ok(fresh) = fresh_beside(alloc, path, number.wrapping_add(left)) else {
        return Err(io::Error::from(ErrorKind::OutOfMemory));
    };
    match system.create_new(fresh.as_str(), PRIVATE) {
        Ok(_) => Ok(fresh),
        Err(error) => if left > 0 && already_exists(error.kind()) {
            make_fresh(system, alloc, left - 1, number, path)
        } else {
            Err(error)
        },
    }
}

/// Removes a fresh file that isn't wanted after all. A failure to do so isn't reported.
fn scrap<Y: System>(system: &mut Y, fresh: &str)
    ensures { (answer : CallResult) × MakesCall (Y.calls system.old) (Y.calls system.new)
        (asks.RemoveFile fresh.now) answer }
{
    let_go(system.remove_file(fresh));
}

/// Moves the filled file to the path, over what is there.
fn put<Y: System>(system: &mut Y, count: u64, fresh: &str, path: &str) -> io::Result<usize>
    ensures { RunLogged (calls.replacing count fresh.now path.now) (said says.Count result)
        (Y.calls system.old) (Y.calls system.new) }
{
    match system.rename(fresh, path) {
        Ok(()) => Ok(count_of(count)),
        Err(error) => {
            scrap(system, fresh);
            Err(error)
        }
    }
}

/// Fills the fresh file with what is at the first path, and moves it to the second.
fn fill<Y: System>(system: &mut Y, from: &str, fresh: &str, path: &str) -> io::Result<usize>
    ensures { RunLogged (calls.filling from.now fresh.now path.now) (said says.Count result)
        (Y.calls system.old) (Y.calls system.new) }
{
    match system.copy_file(from, fresh) {
        Ok(count) => put(system, count, fresh, path),
        Err(error) => {
            scrap(system, fresh);
            Err(error)
        }
    }
}

/// Copies the file at the first path to a fresh one, which takes the place of what is at the second. What fails
/// leaves nothing, unless the system then removes no file either.
pub(crate) fn replace<Y: System + AllocGlobal>(
    system: &mut Y,
    number: u64,
    from: &str,
    path: &str,
) -> io::Result<usize>
    ensures { RunLogged (calls.place_fresh number from.now path.now) (said says.Count result)
        (Y.calls system.old) (Y.calls system.new) }
{
    let alloc = system.alloc();
    let fresh = make_fresh(system, alloc, MORE_NAMES, number, path)?;
    fill(system, from, fresh.as_str(), path)
}
