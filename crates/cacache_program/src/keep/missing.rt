//! What is said if there is no cache.
ghost use Rattle.std.specs.Prelude.{◌≡◌, ◌++◌, IfNone, IfSome, None, codes};
ghost use Rattle.cacache_core.specs.Paths.{join as join_of};
ghost use Rattle.cacache_program.specs.{KeepMissing.{AsksBare, AsksFor, AsksIfChanged, AsksMissing, PutsLine, changes_by}, Orders.{order_in, order_of as view_of}};

use crate::errors::Errors;
use crate::keep::collecting::is_plain;
use crate::keep::names::Word;
use crate::keep::orders::{Order, order_of};
use crate::output::write_whole;
use cacache::env::Env;
use cacache::store::{Step, Store};
use cacache::text::Text;
use cacache_calls::answers::there_of;
use cacache_core::paths::{CONTENT_AREA, INDEX_AREA, TEMP_AREA, join};
use std::alloc::Global;
use std::io::Write;

/// Whether the order changes a cache in a way of this program's own. What `collect` without options prints is fixed.
fn changes(order: Order<'_>) -> bool
    ensures { result ≡ changes_by order.entry.word (view_of order.entry) }
{
    match order.word {
        Word::Verify | Word::Plan | Word::PlanPrune => false,
        Word::Collect => !is_plain(order),
        _ => true,
    }
}

/// Whether the store says that nothing is at the path. An empty path, below which a cache may be, isn't asked for.
fn is_missing<S: Store, C, N>(env: &mut Env<S, C, N>, path: &str) -> bool
    ensures asks { AsksMissing S.log path.now result env.old env.new }
{
    if path.is_empty() {
        return false;
    }
    let Ok(path) = Text::from_str(env.alloc, path) else {
        return false;
    };
    match there_of(env.store.step(Step::Exists(path))) {
        Ok(there) => !there,
        Err(_) => false,
    }
}

/// Whether the store says that the folder has nothing of this name.
fn lacks<S: Store, C, N>(env: &mut Env<S, C, N>, folder: &str, name: &str) -> bool
    ensures asks { AsksMissing S.log (join_of folder.now name.now) result env.old env.new }
{
    match join(env.alloc, folder, name) {
        Ok(path) => is_missing(env, path.as_str()),
        Err(_) => false,
    }
}

/// Whether the store says that the folder has none of those that a cache has.
fn is_bare<S: Store, C, N>(env: &mut Env<S, C, N>, folder: &str) -> bool
    ensures asks { AsksBare S.log folder.now result env.old env.new }
{
    let contents = lacks(env, folder, CONTENT_AREA);
    let index = lacks(env, folder, INDEX_AREA);
    let temps = lacks(env, folder, TEMP_AREA);
    contents && index && temps
}

/// Whether the order isn't to be done, since it changes a cache, and its folder is none.
fn is_refused<S: Store, C, N>(env: &mut Env<S, C, N>, order: Order<'_>) -> bool
    ensures asks { AsksIfChanged S.log (changes_by order.entry.word (view_of order.entry))
        order.entry.cache.now result env.old env.new }
{
    if changes(order) {
        return is_bare(env, order.cache);
    }
    false
}

/// Prints what is wrong with the cache's path, unless memory for the line is refused.
fn put_line<E: Write>(alloc: Global, wrong: &str, cache: &str, errors: &mut Errors<E>)
    ensures puts { PutsLine (wrong.now ++ (cache.now ++ codes "\n"))
        (E.contents errors.old.output) (E.contents errors.new.output) }
    ensures same { errors.new ≡ record errors.old { output = errors.new.output } }
{
    if let Ok(line) = format!(in alloc; "{wrong}{cache}\n") {
        let _written = write_whole(&mut errors.output, line.as_bytes());
    }
}

/// Prints `no cache at CACHE` on `errors`, if nothing is at the path of the cache that right words name. What the words
/// say is to be done even so, as `run` does it. If something is there, and has none of the folders of a cache, words that
/// change a cache aren't to be done, except `collect` without options: prints `not a cache: CACHE`, and returns the status.
pub fn tell_missing<S: Store, C, N, E: Write>(
    env: &mut Env<S, C, N>,
    words: &[String],
    errors: &mut Errors<E>,
) -> Option<u8>
    ensures wrong { IfNone (order_in words.now)
        ((result ≡ None) × (env.new ≡ env.old) × (errors.new ≡ errors.old)) }
    ensures asked { IfSome (order_in words.now) (λ order. AsksFor S.log order result
        env.old env.new (E.contents errors.old.output) (E.contents errors.new.output)) }
    ensures same { errors.new ≡ record errors.old { output = errors.new.output } }
{
    let Some(order) = order_of(words) else {
        return None;
    };
    if is_missing(env, order.cache) {
        put_line(env.alloc, "no cache at ", order.cache, errors);
        return None;
    }
    if is_refused(env, order) {
        put_line(env.alloc, "not a cache: ", order.cache, errors);
        return Some(1);
    }
    None
}
