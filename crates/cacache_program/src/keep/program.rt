//! What the program does with its words.
ghost use Rattle.std.specs.Prelude.{◌≡◌, ◌≢◌, ◌≤◌, IfNone, IfSome};
ghost use Rattle.cacache_program.specs.{Orders.{order_in, order_of as view_of}, Doing.{DoesWord, VerifiesAs}, WordVerify.{Verifies}, WordList.{ListsVerdict}, WordCompact.{Compacts}, WordPlan.{Plans}, WordRepair.{Repairs}, WordSweep.{Sweeps}};

use crate::errors::{Errors, tell_failed_call, tell_misuse};
use crate::keep::about::{HELP, USAGE};
use crate::keep::collecting::{collect_as, odd_of};
use crate::keep::names::Word;
use crate::keep::naming::listed_text;
use crate::keep::orders::{Order, order_of};
use crate::keep::output::{
    compacted_text, planned_text, repaired_text, status_of, swept_text, verdict_text,
};
use crate::keep::pruning::{plan_prune_and_print, prune_and_print};
use crate::keep::tidying::tidy;
use crate::keep::touching::touch_and_print;
use crate::output::put_made;
use crate::words::wrong_in;
use cacache::env::{Clock, Env, Names, Reasons};
use cacache_keep::{CompactOpts, OddLines, plan, repair_with, sweep, verify};
use cacache_store::store::Stamps;
use std::io::Write;

/// Verifies the cache, and prints how many contents are good and damaged, entries dangle, and other files are there.
fn verify_and_print<S: Reasons, C: Clock, N: Names, W: Write, E: Write>(
    env: &mut Env<S, C, N>,
    cache: &str,
    output: &mut W,
    errors: &mut Errors<E>,
) -> u8
    ensures does { Verifies S.log cache.now env.old env.new
        (W.contents output.old) (W.contents output.new) result }
    ensures status { (result ≤ 3) × (result ≢ 2) }
    ensures quiet { result ≡ 0 → errors.new ≡ errors.old }
{
    match verify(env, cache) {
        Ok(verdict) => {
            let status = status_of(&verdict);
            put_made(verdict_text(env.alloc, &verdict), status, output, errors)
        }
        Err(error) => tell_failed_call(errors, &error, env.store.reason()),
    }
}

/// Verifies the cache, and prints the same counts, and after them a line for each of what isn't a good content and for
/// each bucket with an odd line.
fn verify_and_list<S: Reasons, C: Clock, N: Names, W: Write, E: Write>(
    env: &mut Env<S, C, N>,
    cache: &str,
    output: &mut W,
    errors: &mut Errors<E>,
) -> u8
    ensures does { ListsVerdict S.log cache.now env.old env.new
        (W.contents output.old) (W.contents output.new) result }
    ensures status { (result ≤ 3) × (result ≢ 2) }
    ensures quiet { result ≡ 0 → errors.new ≡ errors.old }
{
    match verify(env, cache) {
        Ok(verdict) => {
            let status = status_of(&verdict);
            put_made(listed_text(env.alloc, verdict), status, output, errors)
        }
        Err(error) => tell_failed_call(errors, &error, env.store.reason()),
    }
}

/// Verifies the cache, and prints the counts, and the list after them if it is to be there.
fn verify_as<S: Reasons, C: Clock, N: Names, W: Write, E: Write>(
    env: &mut Env<S, C, N>,
    cache: &str,
    lists: bool,
    output: &mut W,
    errors: &mut Errors<E>,
) -> u8
    ensures does { VerifiesAs S.log C.given lists cache.now env.old env.new
        (W.contents output.old) (W.contents output.new) result }
    ensures status { (result ≤ 3) × (result ≢ 2) }
    ensures quiet { result ≡ 0 → errors.new ≡ errors.old }
{
    if lists {
        return verify_and_list(env, cache, output, errors);
    }
    verify_and_print(env, cache, output, errors)
}

/// Plans a collection of the cache, and prints how many contents it would keep, how many no entry has, and a line for
/// each bucket with an odd line.
fn plan_and_print<S: Reasons, C: Clock, N: Names, W: Write, E: Write>(
    env: &mut Env<S, C, N>,
    cache: &str,
    output: &mut W,
    errors: &mut Errors<E>,
) -> u8
    ensures does { Plans S.log cache.now env.old env.new
        (W.contents output.old) (W.contents output.new) result }
    ensures status { result ≤ 1 }
    ensures quiet { result ≡ 0 → errors.new ≡ errors.old }
{
    match plan(env, cache) {
        Ok(planned) => put_made(planned_text(env.alloc, planned), 0, output, errors),
        Err(error) => tell_failed_call(errors, &error, env.store.reason()),
    }
}

/// Sweeps the cache, and prints how many temporary files were removed, their bytes, and how many others are there.
pub(crate) fn sweep_and_print<S: Reasons, C: Clock, N: Names, W: Write, E: Write>(
    env: &mut Env<S, C, N>,
    cache: &str,
    output: &mut W,
    errors: &mut Errors<E>,
) -> u8
    ensures does { Sweeps S.log cache.now env.old env.new
        (W.contents output.old) (W.contents output.new) result }
    ensures status { result ≤ 1 }
    ensures quiet { result ≡ 0 → errors.new ≡ errors.old }
{
    match sweep(env, cache) {
        Ok(swept) => put_made(swept_text(env.alloc, &swept), 0, output, errors),
        Err(error) => tell_failed_call(errors, &error, env.store.reason()),
    }
}

/// Repairs the cache with this choice about odd lines, and prints how many contents were damaged, and how many keys led
/// to none.
fn repair_and_print<S: Reasons, C: Clock, N: Names, W: Write, E: Write>(
    env: &mut Env<S, C, N>,
    cache: &str,
    odd: OddLines,
    output: &mut W,
    errors: &mut Errors<E>,
) -> u8
    ensures does { Repairs S.log odd cache.now env.old env.new
        (W.contents output.old) (W.contents output.new) result }
    ensures status { result ≤ 1 }
    ensures quiet { result ≡ 0 → errors.new ≡ errors.old }
{
    match repair_with(env, cache, odd) {
        Ok(repaired) => put_made(repaired_text(env.alloc, &repaired), 0, output, errors),
        Err(error) => tell_failed_call(errors, &error, env.store.reason()),
    }
}

/// Compacts the cache, durably or not, and prints how many buckets were written anew, and how many bytes that saved.
pub(crate) fn compact_and_print<S: Reasons, C: Clock, N: Names, W: Write, E: Write>(
    env: &mut Env<S, C, N>,
    cache: &str,
    durable: bool,
    output: &mut W,
    errors: &mut Errors<E>,
) -> u8
    ensures does { Compacts S.log durable cache.now env.old env.new
        (W.contents output.old) (W.contents output.new) result }
    ensures status { result ≤ 1 }
    ensures quiet { result ≡ 0 → errors.new ≡ errors.old }
{
    match CompactOpts::new().durable(durable).compact(env, cache) {
        Ok(compacted) => put_made(compacted_text(env.alloc, &compacted), 0, output, errors),
        Err(error) => tell_failed_call(errors, &error, env.store.reason()),
    }
}

/// Does what an order says, and returns the status.
fn carry_out<S: Reasons + Stamps, C: Clock, N: Names, W: Write, E: Write>(
    env: &mut Env<S, C, N>,
    order: Order<'_>,
    output: &mut W,
    errors: &mut Errors<E>,
) -> u8
    ensures does { DoesWord S.log C.given order.entry.word (view_of order.entry) env.old env.new
        (W.contents output.old) (W.contents output.new) result }
    ensures status { (result ≤ 3) × (result ≢ 2) }
    ensures quiet { result ≡ 0 → errors.new ≡ errors.old }
{
    match order.word {
        Word::Verify => verify_as(env, order.cache, order.lists, output, errors),
        Word::Plan => plan_and_print(env, order.cache, output, errors),
        Word::Sweep => sweep_and_print(env, order.cache, output, errors),
        Word::Repair => { repair_and_print(env, order.cache, odd_of(order.anyway), output, errors) }
        Word::Compact => compact_and_print(env, order.cache, order.durable, output, errors),
        Word::Collect => collect_as(env, order, output, errors),
        Word::Prune => prune_and_print(env, order, output, errors),
        Word::PlanPrune => plan_prune_and_print(env, order, output, errors),
        Word::Touch => touch_and_print(env, order.cache, order.key, output, errors),
        Word::Tidy => tidy(env, order, output, errors),
    }
}

/// Does what the words say, and returns the status: 0; 1 if the call or the output failed, or a file that an option
/// names, which is printed on `errors`; 2 for wrong words; 3 if `verify` found anything but good contents. A failed write
/// to `errors` changes no status.
pub fn run<S: Reasons + Stamps, C: Clock, N: Names, W: Write, E: Write>(
    env: &mut Env<S, C, N>,
    words: &[String],
    output: &mut W,
    errors: &mut Errors<E>,
) -> u8
    ensures status { result ≤ 3 }
    ensures wrong { IfNone (order_in words.now) (result ≡ 2) }
    ensures right { IfSome (order_in words.now) (λ _. result ≢ 2) }
    ensures nothing_done { result ≡ 2 → (env.new ≡ env.old) × (output.new ≡ output.old) }
    ensures quiet { result ≡ 0 → errors.new ≡ errors.old }
    ensures does { IfSome (order_in words.now) (λ order.
        DoesWord S.log C.given order.word order env.old env.new
        (W.contents output.old) (W.contents output.new) result) }
{
    match order_of(words) {
        Some(order) => carry_out(env, order, output, errors),
        None => tell_misuse(USAGE, wrong_in(words, HELP), errors),
    }
}
