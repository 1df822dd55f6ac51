//! The word `clear`.
ghost use Rattle.std.specs.Prelude.{◌≡◌};
ghost use Rattle.cacache_program.specs.WordClear.{Clears};

use crate::errors::{Errors, tell_failed_call};
use cacache::env::{Clock, Env, Names, Reasons};
use std::io::Write;

/// Removes all that lies in the cache folder, and prints nothing.
pub(crate) fn clear<S: Reasons, C: Clock, N: Names, E: Write>(
    env: &mut Env<S, C, N>,
    cache: &str,
    errors: &mut Errors<E>,
) -> u8
    ensures does { Clears S.log cache.now env.old env.new result }
    ensures quiet { result ≡ 0 → errors.new ≡ errors.old }
{
    match cacache::clear_sync(env, cache) {
        Ok(()) => 0,
        Err(error) => tell_failed_call(errors, &error, env.store.reason()),
    }
}
