//! The word `remove`.
ghost use Rattle.std.specs.Prelude.{◌≡◌};
ghost use Rattle.cacache_program.specs.WordRemove.{PrintsRemoval};

use crate::errors::{Errors, tell_failed_call};
use cacache::env::{Clock, Env, Names, Reasons};
use std::io::Write;

/// Removes the key, and prints nothing.
pub(crate) fn remove<S: Reasons, C: Clock, N: Names, E: Write>(
    env: &mut Env<S, C, N>,
    cache: &str,
    key: &str,
    errors: &mut Errors<E>,
) -> u8
    ensures does { PrintsRemoval S.log C.given cache.now key.now env.old env.new result }
    ensures quiet { result ≡ 0 → errors.new ≡ errors.old }
{
    match cacache::remove_sync(env, cache, key) {
        Ok(()) => 0,
        Err(error) => tell_failed_call(errors, &error, env.store.reason()),
    }
}
