//! The word `read-hash`.
ghost use Rattle.std.specs.Prelude.{◌≡◌, ◌≤◌};
ghost use Rattle.cacache_program.specs.WordReadHash.{ReadsContent, ReadsHash};

use crate::errors::{Errors, tell_failed_read, tell_unread};
use crate::output::put_out;
use cacache::Integrity;
use cacache::env::{Clock, Env, Names, Reasons};
use std::io::Write;

/// Prints the bytes of the integrity's content, and nothing else.
fn print_content<S: Reasons, C: Clock, N: Names, W: Write, E: Write>(
    env: &mut Env<S, C, N>,
    cache: &str,
    sri: &Integrity,
    output: &mut W,
    errors: &mut Errors<E>,
) -> u8
    ensures does { ReadsContent S.log cache.now env.old env.new
        (W.contents output.old) (W.contents output.new) result sri.now }
    ensures status { result ≤ 1 }
    ensures quiet { result ≡ 0 → errors.new ≡ errors.old }
{
    match cacache::read_hash_sync(env, cache, sri) {
        Ok(bytes) => put_out(output, &bytes, errors),
        Err(error) => tell_failed_read(env.alloc, errors, cache, &error, env.store.reason()),
    }
}

/// Prints the bytes of the content of the integrity that the text is read as, and nothing else.
pub(crate) fn read_hash<S: Reasons, C: Clock, N: Names, W: Write, E: Write>(
    env: &mut Env<S, C, N>,
    cache: &str,
    text: &str,
    output: &mut W,
    errors: &mut Errors<E>,
) -> u8
    ensures does { ReadsHash S.log cache.now text.now env.old env.new
        (W.contents output.old) (W.contents output.new) result }
    ensures status { result ≤ 1 }
    ensures quiet { result ≡ 0 → errors.new ≡ errors.old }
{
    match Integrity::parse(env.alloc, text) {
        Ok(sri) => print_content(env, cache, &sri, output, errors),
        Err(error) => tell_unread(errors, &error, text, None),
    }
}
