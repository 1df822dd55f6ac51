//! What the program does with its words.
ghost use Rattle.std.specs.Prelude.{◌≡◌, ◌≢◌, ◌≤◌, codes};
ghost use Rattle.cacache_program.specs.{Words.{asked_of, Keyed, KeyedDoes, Unkeyed, UnkeyedDoes}, FurtherWords.{AreWrong, DoesFurther}, WordWrite.{WritesAsked}, WordRead.{Reads}, WordFind.{PrintsFound}, WordRemove.{PrintsRemoval}, WordClear.{Clears}, WordLs.{PrintsListing}, WordStorm.{StormsAlone}};

use crate::clearing::clear;
use crate::errors::Errors;
use crate::finding::find;
use crate::further::run_further;
use crate::listing::ls;
use crate::reading::read;
use crate::removing::remove;
use crate::storming::storm;
use crate::words::parse_words;
use crate::writing::write;
use cacache::env::{Clock, Env, Names, Reasons};
use std::io::{Read, Write};
use std::sync::Wait;
use std::thread::Threads;
use std::time;

/// Does what the words say, and returns the status: 0, or 1 if the call or a stream failed, which
/// is printed on `errors`, or 2 for wrong words. A failed write to `errors` changes no status.
///
/// If the input fails, nothing is stored. If the output fails, what was stored stays. It waits for
/// the threads of a storm, and otherwise for nobody.
pub fn run<
    T: Threads + Wait + time::Clock + AllocGlobal + Sync,
    S: Reasons,
    C: Clock,
    N: Names,
    R: Read,
    W: Write,
    E: Write,
>(
    rt: &T,
    env: &mut Env<S, C, N>,
    words: &[String],
    input: &mut R,
    output: &mut W,
    errors: &mut Errors<E>,
) -> u8
    ensures status { result ≤ 2 }
    ensures wrong { AreWrong words.now → result ≡ 2 }
    ensures nothing_done { result ≡ 2 → (env.new ≡ env.old) × (output.new ≡ output.old) }
    ensures quiet { result ≡ 0 → errors.new ≡ errors.old }
    ensures input { (asked_of words.now).name ≢ codes "write"
        → (asked_of words.now).name ≢ codes "write-hash" → input.new ≡ input.old }
    ensures writes { WritesAsked S.log C.given N.given (asked_of words.now) (R.remaining input.old)
        env.old env.new (W.contents output.old) (W.contents output.new) result }
    ensures reads { KeyedDoes (asked_of words.now) (codes "read") (Reads S.log)
        env.old env.new (W.contents output.old) (W.contents output.new) result }
    ensures finds { KeyedDoes (asked_of words.now) (codes "find") (PrintsFound S.log)
        env.old env.new (W.contents output.old) (W.contents output.new) result }
    ensures removes { Keyed (asked_of words.now) (codes "remove") (λ cache key.
        PrintsRemoval S.log C.given cache key env.old env.new result × (output.new ≡ output.old)) }
    ensures clears { Unkeyed (asked_of words.now) (codes "clear") (λ cache.
        Clears S.log cache env.old env.new result × (output.new ≡ output.old)) }
    ensures lists { UnkeyedDoes (asked_of words.now) (codes "ls") (PrintsListing S.log)
        env.old env.new (W.contents output.old) (W.contents output.new) result }
    ensures storms { KeyedDoes (asked_of words.now) (codes "storm") StormsAlone
        env.old env.new (W.contents output.old) (W.contents output.new) result }
    ensures further { DoesFurther S.log C.given N.given S.Temp.seen words.now
        (R.remaining input.old) env.old env.new
        (W.contents output.old) (W.contents output.new) result }
{
    match parse_words(words) {
        ("write", cache, Some(key)) => write(env, cache, key, input, output, errors),
        ("read", cache, Some(key)) => read(env, cache, key, output, errors),
        ("find", cache, Some(key)) => find(env, cache, key, output, errors),
        ("remove", cache, Some(key)) => remove(env, cache, key, errors),
        ("storm", threads, Some(keys)) => storm(rt, threads, keys, output, errors),
        ("clear", cache, None) => clear(env, cache, errors),
        ("ls", cache, None) => ls(env, cache, output, errors),
        _ => run_further(env, words, input, output, errors),
    }
}
