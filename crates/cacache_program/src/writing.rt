//! The word `write`.
ghost use Rattle.std.specs.Prelude.{◌≡◌, ◌++◌, ◌∷◌, []};
ghost use Rattle.cacache.specs.Integrities.{integrity_text};
ghost use Rattle.cacache_program.specs.{Output.{PutsOut}, WordWrite.{Writes}};

use crate::errors::{Errors, tell_failed_call, tell_failure};
use crate::output::put_out;
use cacache::Integrity;
use cacache::env::{Clock, Env, Names, Reasons};
use cacache::errors::Error;
use std::alloc::Global;
use std::io::{ErrorKind, Read, Write};

/// Prints the integrity's text and a line feed, and returns the status.
pub(crate) fn print<W: Write, E: Write>(
    alloc: Global,
    integrity: &Integrity,
    output: &mut W,
    errors: &mut Errors<E>,
) -> u8
    ensures put { PutsOut (integrity_text integrity.now ++ 10 ∷ [])
        (W.contents output.old) (W.contents output.new) result }
    ensures quiet { result ≡ 0 → errors.new ≡ errors.old }
{
    match format!(in alloc; "{integrity}\n") {
        Ok(line) => put_out(output, line.as_bytes(), errors),
        Err(_) => tell_failure(errors, "out of memory", None),
    }
}

/// Prints why the input couldn't be read, and returns the status.
pub(crate) fn tell_failed_input<E: Write>(errors: &mut Errors<E>, kind: ErrorKind) -> u8
    ensures { result ≡ 1 }
{
    if kind == ErrorKind::OutOfMemory {
        return tell_failed_call(errors, &Error::OutOfMemory, None);
    }
    tell_failure(errors, "input failed", Some(kind))
}

/// Stores all that the input gives under the key, and prints the integrity and a line feed.
pub(crate) fn write<S: Reasons, C: Clock, N: Names, R: Read, W: Write, E: Write>(
    env: &mut Env<S, C, N>,
    cache: &str,
    key: &str,
    input: &mut R,
    output: &mut W,
    errors: &mut Errors<E>,
) -> u8
    ensures does { Writes S.log C.given N.given cache.now key.now (R.remaining input.old)
        env.old env.new (W.contents output.old) (W.contents output.new) result }
    ensures quiet { result ≡ 0 → errors.new ≡ errors.old }
{
    let mut data = Vec::new(env.alloc);
    if let Err(error) = input.read_to_end(&mut data) {
        return tell_failed_input(errors, error.kind());
    }
    match cacache::write_vec_sync(env, cache, key, data) {
        Ok(integrity) => print(env.alloc, &integrity, output, errors),
        Err(error) => tell_failed_call(errors, &error, env.store.reason()),
    }
}
