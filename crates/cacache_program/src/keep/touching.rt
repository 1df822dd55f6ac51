//! The word `touch`.
ghost use Rattle.std.specs.Prelude.{◌≡◌, ◌≤◌};
ghost use Rattle.cacache_program.specs.WordTouch.{TouchesEntry};

use crate::errors::{Errors, tell_failed_call};
use crate::output::put_out;
use cacache::env::{Clock, Env, Names, Reasons};
use cacache_keep::touch;
use std::io::Write;

/// Marks the key as used now, and prints how many keys that was: 1, or 0 if it has no entry.
pub(crate) fn touch_and_print<S: Reasons, C: Clock, N: Names, W: Write, E: Write>(
    env: &mut Env<S, C, N>,
    cache: &str,
    key: &str,
    output: &mut W,
    errors: &mut Errors<E>,
) -> u8
    ensures does { TouchesEntry S.log C.given cache.now key.now env.old env.new
        (W.contents output.old) (W.contents output.new) result }
    ensures status { result ≤ 1 }
    ensures quiet { result ≡ 0 → errors.new ≡ errors.old }
{
    match touch(env, cache, key) {
        Ok(true) => put_out(output, b"touched 1\n", errors),
        Ok(false) => put_out(output, b"touched 0\n", errors),
        Err(error) => tell_failed_call(errors, &error, env.store.reason()),
    }
}
