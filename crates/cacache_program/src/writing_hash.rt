//! The word `write-hash`.
ghost use Rattle.std.specs.Prelude.{◌≡◌, ◌≤◌};
ghost use Rattle.cacache_program.specs.WordWriteHash.{WritesHash, WritesUnder};

use crate::about::USAGE;
use crate::errors::{Errors, tell_failed_call, tell_misuse};
use crate::writing::{print, tell_failed_input};
use cacache::Algorithm;
use cacache::env::{Clock, Env, Names, Reasons};
use cacache_core::keeping::let_go;
use std::io::{Read, Write};

/// Stores all that the input gives under this algorithm, and prints the integrity and a line feed.
fn write_under<S: Reasons, C: Clock, N: Names, R: Read, W: Write, E: Write>(
    env: &mut Env<S, C, N>,
    cache: &str,
    algorithm: Algorithm,
    input: &mut R,
    output: &mut W,
    errors: &mut Errors<E>,
) -> u8
    ensures does { WritesUnder S.log N.given algorithm cache.now (R.remaining input.old)
        env.old env.new (W.contents output.old) (W.contents output.new) result }
    ensures status { result ≤ 1 }
    ensures quiet { result ≡ 0 → errors.new ≡ errors.old }
{
    let mut data = Vec::new(env.alloc);
    if let Err(error) = input.read_to_end(&mut data) {
        return tell_failed_input(errors, error.kind());
    }
    match cacache::write_hash_vec_sync_with_algo(env, algorithm, cache, data) {
        Ok(integrity) => print(env.alloc, &integrity, output, errors),
        Err(error) => tell_failed_call(errors, &error, env.store.reason()),
    }
}

/// Stores all that the input gives without a key, and prints the integrity, under the algorithm of this name, and a line
/// feed. Any other name is a wrong word.
pub(crate) fn write_hash<S: Reasons, C: Clock, N: Names, R: Read, W: Write, E: Write>(
    env: &mut Env<S, C, N>,
    cache: &str,
    name: &str,
    input: &mut R,
    output: &mut W,
    errors: &mut Errors<E>,
) -> u8
    ensures does { WritesHash S.log N.given (R.remaining input.old) cache.now name.now
        env.old env.new (W.contents output.old) (W.contents output.new) result }
    ensures status { result ≤ 2 }
    ensures nothing_done { result ≡ 2 → (env.new ≡ env.old) × (output.new ≡ output.old) }
    ensures quiet { result ≡ 0 → errors.new ≡ errors.old }
{
    match Algorithm::parse(name) {
        Ok(algorithm) => write_under(env, cache, algorithm, input, output, errors),
        Err(error) => {
            let_go(error);
            tell_misuse(USAGE, "unknown algorithm", errors)
        }
    }
}
