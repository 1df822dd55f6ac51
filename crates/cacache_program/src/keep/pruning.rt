//! The words that drop the oldest entries, or say which these are.
ghost use Rattle.std.specs.Prelude.{◌≡◌, ◌≤◌, ℕ};
ghost use Rattle.cacache_jobs.specs.Environment.{AsksMoment};
ghost use Rattle.cacache_program.specs.{Orders.{order_of as view_of}, WordPrune.{PlansPruning, Prunes, PrunesRooted, limits_at, since_at}};

use crate::errors::{Errors, tell_failed_call, tell_unread};
use crate::keep::collecting::{opts_of, roots_of};
use crate::keep::orders::Order;
use crate::keep::output::{prune_plan_text, pruned_text, status_of_pruned};
use crate::output::put_made;
use cacache::Integrity;
use cacache::env::{Clock, Env, Names, Reasons};
use cacache_keep::{Limits, plan_prune};
use cacache_store::store::Stamps;
use std::io::Write;

/// The moment so many seconds ago, in milliseconds since 1970.
fn since<C: Clock>(clock: &mut C, seconds: Option<u64>) -> Option<u128>
    ensures { (moment : ℕ) × AsksMoment C.given clock.old clock.new moment
        × (result ≡ since_at seconds moment) }
{
    let moment = clock.now() as u128;
    match seconds {
        Some(count) => Some(moment.saturating_sub(count as u128 * 1000)),
        None => None,
    }
}

/// The limits of so many bytes, and so many seconds from this moment.
fn limits_of<C: Clock>(clock: &mut C, bytes: Option<u64>, seconds: Option<u64>) -> Limits
    ensures { (moment : ℕ) × AsksMoment C.given clock.old clock.new moment
        × (result ≡ limits_at bytes seconds moment) }
{
    let since = since(clock, seconds);
    Limits { bytes, since }
}

/// Prunes the cache with these further roots, and prints the bytes of its entries before and after, how many are dropped, a
/// line for each, and one for each that is left, also if an error ends the collection after that.
fn prune_with_roots<S: Reasons + Stamps, C: Clock, N: Names, W: Write, E: Write>(
    env: &mut Env<S, C, N>,
    order: Order<'_>,
    roots: &[Integrity],
    output: &mut W,
    errors: &mut Errors<E>,
) -> u8
    ensures does { PrunesRooted S.log C.given (view_of order.entry) roots.now env.old env.new
        (W.contents output.old) (W.contents output.new) result }
    ensures status { result ≤ 1 }
    ensures quiet { result ≡ 0 → errors.new ≡ errors.old }
{
    let limits = limits_of(&mut env.clock, order.size, order.age);
    match opts_of(order, roots).prune(env, order.cache, limits) {
        Ok(pruned) => {
            let status = status_of_pruned(&pruned, errors, env.store.reason());
            put_made(pruned_text(env.alloc, pruned), status, output, errors)
        }
        Err(error) => tell_failed_call(errors, &error, env.store.reason()),
    }
}

/// Prunes the cache with what its options say, and prints that.
pub(crate) fn prune_and_print<S: Reasons + Stamps, C: Clock, N: Names, W: Write, E: Write>(
    env: &mut Env<S, C, N>,
    order: Order<'_>,
    output: &mut W,
    errors: &mut Errors<E>,
) -> u8
    ensures does { Prunes S.log C.given (view_of order.entry) env.old env.new
        (W.contents output.old) (W.contents output.new) result }
    ensures status { result ≤ 1 }
    ensures quiet { result ≡ 0 → errors.new ≡ errors.old }
{
    match roots_of(env, order.keep) {
        Ok(roots) => prune_with_roots(env, order, roots.as_slice(), output, errors),
        Err(error) => tell_unread(errors, &error, order.keep.unwrap_or(""), env.store.reason()),
    }
}

/// Plans a pruning of the cache, and prints what it would print, and a line for each bucket with an odd line.
pub(crate) fn plan_prune_and_print<S: Reasons, C: Clock, N: Names, W: Write, E: Write>(
    env: &mut Env<S, C, N>,
    order: Order<'_>,
    output: &mut W,
    errors: &mut Errors<E>,
) -> u8
    ensures does { PlansPruning S.log C.given order.entry.size order.entry.age order.entry.cache.now
        env.old env.new (W.contents output.old) (W.contents output.new) result }
    ensures status { result ≤ 1 }
    ensures quiet { result ≡ 0 → errors.new ≡ errors.old }
{
    let limits = limits_of(&mut env.clock, order.size, order.age);
    match plan_prune(env, order.cache, limits) {
        Ok(plan) => put_made(prune_plan_text(env.alloc, plan), 0, output, errors),
        Err(error) => tell_failed_call(errors, &error, env.store.reason()),
    }
}
