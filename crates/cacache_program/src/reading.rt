//! The word `read`.
ghost use Rattle.std.specs.Prelude.{◌≡◌};
ghost use Rattle.cacache_program.specs.WordRead.{Reads};

use crate::errors::{Errors, tell_failed_read};
use crate::output::put_out;
use cacache::env::{Clock, Env, Names, Reasons};
use std::io::Write;

/// Prints the bytes of the key, and nothing else.
pub(crate) fn read<S: Reasons, C: Clock, N: Names, W: Write, E: Write>(
    env: &mut Env<S, C, N>,
    cache: &str,
    key: &str,
    output: &mut W,
    errors: &mut Errors<E>,
) -> u8
    ensures does { Reads S.log cache.now key.now env.old env.new
        (W.contents output.old) (W.contents output.new) result }
    ensures quiet { result ≡ 0 → errors.new ≡ errors.old }
{
    match cacache::read_sync(env, cache, key) {
        Ok(bytes) => put_out(output, &bytes, errors),
        Err(error) => tell_failed_read(env.alloc, errors, cache, &error, env.store.reason()),
    }
}
