//! The word `exists`.
ghost use Rattle.std.specs.Prelude.{◌≡◌, ◌≤◌};
ghost use Rattle.cacache_program.specs.WordExists.{AsksContent, AsksHash};

use crate::errors::{Errors, tell_failed_call, tell_unread};
use crate::output::put_out;
use cacache::Integrity;
use cacache::env::{Clock, Env, Names};
use cacache::store::Store;
use std::io::Write;

/// Prints whether the integrity's content is there.
fn print_answer<S: Store, C: Clock, N: Names, W: Write, E: Write>(
    env: &mut Env<S, C, N>,
    cache: &str,
    sri: &Integrity,
    output: &mut W,
    errors: &mut Errors<E>,
) -> u8
    ensures does { AsksContent S.log cache.now env.old env.new
        (W.contents output.old) (W.contents output.new) result sri.now }
    ensures status { result ≤ 1 }
    ensures quiet { result ≡ 0 → errors.new ≡ errors.old }
{
    match cacache::exists_sync(env, cache, sri) {
        Ok(true) => put_out(output, b"yes\n", errors),
        Ok(false) => put_out(output, b"no\n", errors),
        Err(error) => tell_failed_call(errors, &error, None),
    }
}

/// Prints `yes` if the integrity that the text is read as has its content there, and otherwise
/// `no`.
pub(crate) fn exists<S: Store, C: Clock, N: Names, W: Write, E: Write>(
    env: &mut Env<S, C, N>,
    cache: &str,
    text: &str,
    output: &mut W,
    errors: &mut Errors<E>,
) -> u8
    ensures does { AsksHash S.log cache.now text.now env.old env.new
        (W.contents output.old) (W.contents output.new) result }
    ensures status { result ≤ 1 }
    ensures quiet { result ≡ 0 → errors.new ≡ errors.old }
{
    match Integrity::parse(env.alloc, text) {
        Ok(sri) => print_answer(env, cache, &sri, output, errors),
        Err(error) => tell_unread(errors, &error, text, None),
    }
}
