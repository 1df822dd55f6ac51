//! The word `collect`.
ghost use Rattle.std.specs.Prelude.{◌≡◌, ◌≢◌, ◌≤◌, ◌*◌, ◌-◌, ◌^◌, IfErr, IfOk, min, option_map};
ghost use Rattle.cacache_store.specs.declared.store.answer.Answer.TheVariants as answers;
ghost use Rattle.cacache_store.specs.declared.store.step.Step.TheVariants as steps;
ghost use Rattle.cacache_calls.specs.SingleSteps.{Does, FailsAt};
ghost use Rattle.cacache.specs.Calls.{KeepsRest};
ghost use Rattle.cacache_program.specs.{Orders.{order_of as view_of}, Roots.{ReadsRoots, StopsRoots}, WordCollect.{CollectsAs, CollectsBy, CollectsRooted, CollectsUnused, is_plain as is_plain_order, millis_in, odd_by}};

use crate::errors::{Errors, tell_failed_call, tell_unread};
use crate::keep::orders::Order;
use crate::keep::output::{collected_text, collection_text};
use crate::keep::roots::roots_in;
use crate::output::put_made;
use crate::storing::reading;
use cacache::env::{Clock, Env, Names, Reasons};
use cacache::store::{Step, Store};
use cacache::text::Text;
use cacache::{Integrity, Result};
use cacache_calls::answers::bytes_of;
use cacache_core::bytes::Bytes;
use cacache_jobs::refused;
use cacache_keep::{CollectOpts, OddLines, collect};
use cacache_store::store::Stamps;
use std::io::Write;

/// What is done about odd lines.
pub(crate) fn odd_of(anyway: bool) -> OddLines
    ensures { result ≡ odd_by anyway }
{
    if anyway {
        return OddLines::Ignore;
    }
    OddLines::Refuse
}

/// The bytes of the file at the path.
fn read<S: Store, C, N>(env: &mut Env<S, C, N>, path: &str) -> Result<Bytes>
    ensures reads { IfOk result (λ bytes. Does (steps.ReadAll path.now) (answers.Bytes bytes)
        (S.log env.old.store) (S.log env.new.store)) }
    ensures stops { IfErr result
        (λ e. FailsAt (steps.ReadAll path.now) e (S.log env.old.store) (S.log env.new.store)) }
    ensures rest { KeepsRest env.old env.new }
{
    let path = Text::from_str(env.alloc, path)?;
    let place = path.clone()?;
    match bytes_of(env.store.step(Step::ReadAll(place))) {
        Ok(bytes) => Ok(bytes),
        Err(refusal) => Err(refused(refusal, reading(env.alloc, &path))),
    }
}

/// The further roots that the lines of this file name, if there is one.
pub(crate) fn roots_of<S: Store, C, N>(
    env: &mut Env<S, C, N>,
    file: Option<&str>,
) -> Result<Vec<Integrity>>
    ensures reads { IfOk result (λ roots. ReadsRoots (option_map (λ w. w.now) file.entry) roots.items
        (S.log env.old.store) (S.log env.new.store)) }
    ensures stops { IfErr result (λ e. StopsRoots (option_map (λ w. w.now) file.entry) e
        (S.log env.old.store) (S.log env.new.store)) }
    ensures rest { KeepsRest env.old env.new }
{
    match file {
        Some(path) => match read(env, path) {
            Ok(bytes) => roots_in(env.alloc, bytes.as_slice()),
            Err(error) => Err(error),
        },
        None => Ok(Vec::new(env.alloc)),
    }
}

/// The milliseconds of so many seconds; 2^64 - 1 if there are more.
fn millis_of(seconds: Option<u64>) -> Option<u64>
    ensures { result ≡ millis_in seconds }
{
    match seconds {
        Some(count) => Some(count.saturating_mul(1000)),
        None => None,
    }
}

/// The options of a collection, with these further roots.
pub(crate) fn opts_of<'a>(order: Order<'_>, roots: &'a [Integrity]) -> CollectOpts<'a>
    ensures odd { result.odd ≡ odd_by order.entry.anyway }
    ensures grace { result.grace ≡ millis_in order.entry.grace }
    ensures keep { result.keep.now ≡ roots.now }
    ensures durable { result.durable ≡ order.entry.durable }
{
    let opts = CollectOpts::new()
        .odd(odd_of(order.anyway))
        .keep(roots)
        .durable(order.durable);
    match millis_of(order.grace) {
        Some(millis) => opts.grace(millis),
        None => opts,
    }
}

/// Collects the cache, and prints how many contents were kept and dropped.
fn collect_and_print<S: Reasons, C: Clock, N: Names, W: Write, E: Write>(
    env: &mut Env<S, C, N>,
    cache: &str,
    output: &mut W,
    errors: &mut Errors<E>,
) -> u8
    ensures does { CollectsUnused S.log cache.now env.old env.new
        (W.contents output.old) (W.contents output.new) result }
    ensures status { result ≤ 1 }
    ensures quiet { result ≡ 0 → errors.new ≡ errors.old }
{
    match collect(env, cache) {
        Ok(collected) => put_made(collected_text(env.alloc, &collected), 0, output, errors),
        Err(error) => tell_failed_call(errors, &error, env.store.reason()),
    }
}

/// Collects the cache with options and these further roots, and prints how many contents had which fate.
fn collect_with_roots<S: Reasons + Stamps, C: Clock, N: Names, W: Write, E: Write>(
    env: &mut Env<S, C, N>,
    order: Order<'_>,
    roots: &[Integrity],
    output: &mut W,
    errors: &mut Errors<E>,
) -> u8
    ensures does { CollectsRooted S.log C.given (view_of order.entry) roots.now env.old env.new
        (W.contents output.old) (W.contents output.new) result }
    ensures status { result ≤ 1 }
    ensures quiet { result ≡ 0 → errors.new ≡ errors.old }
{
    match opts_of(order, roots).collect(env, order.cache) {
        Ok(collection) => put_made(collection_text(env.alloc, collection), 0, output, errors),
        Err(error) => tell_failed_call(errors, &error, env.store.reason()),
    }
}

/// Collects the cache with options, and prints how many contents had which fate.
pub(crate) fn collect_by<S: Reasons + Stamps, C: Clock, N: Names, W: Write, E: Write>(
    env: &mut Env<S, C, N>,
    order: Order<'_>,
    output: &mut W,
    errors: &mut Errors<E>,
) -> u8
    ensures does { CollectsBy S.log C.given (view_of order.entry) env.old env.new
        (W.contents output.old) (W.contents output.new) result }
    ensures status { result ≤ 1 }
    ensures quiet { result ≡ 0 → errors.new ≡ errors.old }
{
    match roots_of(env, order.keep) {
        Ok(roots) => collect_with_roots(env, order, roots.as_slice(), output, errors),
        Err(error) => tell_unread(errors, &error, order.keep.unwrap_or(""), env.store.reason()),
    }
}

/// Whether no option says how to collect.
pub(crate) fn is_plain(order: Order<'_>) -> bool
    ensures { result ≡ is_plain_order (view_of order.entry) }
{
    order.grace.is_none() && order.keep.is_none() && !order.durable && !order.anyway
}

/// Collects the cache, with options if there are any.
pub(crate) fn collect_as<S: Reasons + Stamps, C: Clock, N: Names, W: Write, E: Write>(
    env: &mut Env<S, C, N>,
    order: Order<'_>,
    output: &mut W,
    errors: &mut Errors<E>,
) -> u8
    ensures does { CollectsAs S.log C.given (is_plain_order (view_of order.entry)) (view_of order.entry)
        env.old env.new (W.contents output.old) (W.contents output.new) result }
    ensures status { result ≤ 1 }
    ensures quiet { result ≡ 0 → errors.new ≡ errors.old }
{
    if is_plain(order) {
        return collect_and_print(env, order.cache, output, errors);
    }
    collect_by(env, order, output, errors)
}
