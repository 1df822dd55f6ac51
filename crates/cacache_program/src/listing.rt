//! The word `ls`.
ghost use Rattle.std.specs.Prelude.{◌≡◌, is_some};
ghost use Rattle.cacache.specs.Calls.{Calls, reply_of};
ghost use Rattle.cacache_program.specs.WordLs.{PrintsListing, PutsListing, listing_reply};

use crate::errors::{Errors, tell_failed_call};
use crate::lines::{Listing, listing_of};
use crate::output::{put_out, write_whole};
use cacache::Result;
use cacache::env::{Clock, Env, Names, Reasons};
use cacache::errors::Error;
use cacache::jobs::{Command, Found, Reply, call};
use cacache::store::Store;
use std::io::{ErrorKind, Write};

/// What the cache lists. If memory for more is refused, that may count as a refusal of the call.
fn items<S: Store, C, N>(
    env: &mut Env<S, C, N>,
    cache: &str,
) -> Result<Vec<std::result::Result<Found, Error>>>
    ensures ran { Calls S.log env.old env.new cache.now Command.Ls
        (reply_of (λ items. listing_reply items.items) result) }
    ensures lost { Calls S.log env.old env.new cache.now Command.Ls
        (Reply.Refused Error.OutOfMemory) }
{
    match call(env, cache, Command::Ls, 0) {
        Reply::Listed(items) => Ok(items.into_vec()),
        Reply::Refused(error) => Err(error),
        _ => unreachable!(),
    }
}

/// Prints the lines and then the first error, if there is one, and returns the status. With an error, a failed output
/// isn't reported. The reason of the last failed step is the first error's if there is no other.
#[tactic(auto, using(crate::proofs::Appending::written_so_far))]
fn print<W: Write, E: Write>(
    listing: &Listing,
    reason: Option<ErrorKind>,
    output: &mut W,
    errors: &mut Errors<E>,
) -> u8
    ensures put { PutsListing (is_some listing.now.first_error) listing.now.text.items
        (W.contents output.old) (W.contents output.new) result }
    ensures quiet { result ≡ 0 → errors.new ≡ errors.old }
{
    match &listing.first_error {
        Some(error) => {
            let _written = write_whole(output, &listing.text);
            let reason = if listing.has_more_errors {
                None
            } else {
                reason
            };
            tell_failed_call(errors, error, reason)
        }
        None => put_out(output, &listing.text, errors),
    }
}

/// Prints the text of each entry on a line of its own, by key and then by text, byte by byte. The first error among the
/// items comes after them.
pub(crate) fn ls<S: Reasons, C: Clock, N: Names, W: Write, E: Write>(
    env: &mut Env<S, C, N>,
    cache: &str,
    output: &mut W,
    errors: &mut Errors<E>,
) -> u8
    ensures does { PrintsListing S.log cache.now env.old env.new
        (W.contents output.old) (W.contents output.new) result }
    ensures quiet { result ≡ 0 → errors.new ≡ errors.old }
{
    let items = match items(env, cache) {
        Ok(items) => items,
        Err(error) => return tell_failed_call(errors, &error, env.store.reason()),
    };
    match listing_of(env.alloc, items) {
        Ok(listing) => print(&listing, env.store.reason(), output, errors),
        Err(error) => tell_failed_call(errors, &error, None),
    }
}
