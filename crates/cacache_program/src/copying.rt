//! The word `copy`.
ghost use Rattle.std.specs.{Fmt.{decimal}, Prelude.{◌≡◌, ◌≤◌, ◌++◌, ◌∷◌, []}};
ghost use Rattle.cacache_program.specs.{Output.{PutsOut}, WordCopy.{Copies}};

use crate::errors::{Errors, tell_failed_call, tell_failed_read};
use crate::output::put_out;
use cacache::env::{Clock, Env, Names, Reasons};
use cacache::errors::Error;
use std::alloc::Global;
use std::io::Write;

/// Prints the count and a line feed, and returns the status.
fn print_count<W: Write, E: Write>(
    alloc: Global,
    count: u64,
    output: &mut W,
    errors: &mut Errors<E>,
) -> u8
    ensures put { PutsOut (decimal count ++ 10 ∷ [])
        (W.contents output.old) (W.contents output.new) result }
    ensures quiet { result ≡ 0 → errors.new ≡ errors.old }
{
    match format!(in alloc; "{count}\n") {
        Ok(line) => put_out(output, line.as_bytes(), errors),
        Err(_) => tell_failed_call(errors, &Error::OutOfMemory, None),
    }
}

/// Copies the key's content to the file, once it is verified, and prints how many bytes that are.
pub(crate) fn copy<S: Reasons, C: Clock, N: Names, W: Write, E: Write>(
    env: &mut Env<S, C, N>,
    cache: &str,
    key: &str,
    file: &str,
    output: &mut W,
    errors: &mut Errors<E>,
) -> u8
    ensures does { Copies S.log cache.now key.now file.now env.old env.new
        (W.contents output.old) (W.contents output.new) result }
    ensures status { result ≤ 1 }
    ensures quiet { result ≡ 0 → errors.new ≡ errors.old }
{
    match cacache::copy_sync(env, cache, key, file) {
        Ok(count) => print_count(env.alloc, count, output, errors),
        Err(error) => tell_failed_read(env.alloc, errors, cache, &error, env.store.reason()),
    }
}
