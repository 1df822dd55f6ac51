//! The words that the usage doesn't list.
ghost use Rattle.std.specs.Prelude.{◌≡◌, ◌≢◌, ◌≤◌, codes};
ghost use Rattle.cacache_program.specs.{FurtherWords.{FiledDoes, IsNoFiled, IsWrongFurther}, WordCopy.{Copies}, WordExists.{AsksHash}, WordReadHash.{ReadsHash}, WordStore.{StoresFile}, WordWriteHash.{WritesHash}, Words.{KeyedDoes, asked_of}};

use crate::about::{HELP, USAGE};
use crate::copying::copy;
use crate::errors::{Errors, tell_misuse};
use crate::existing::exists;
use crate::reading_hash::read_hash;
use crate::storing::store;
use crate::words::{parse_words, wrong_in};
use crate::writing_hash::write_hash;
use cacache::env::{Clock, Env, Names, Reasons};
use std::io::{Read, Write};

/// Prints the usage, and returns the status of wrong words.
fn tell_wrong<E: Write>(words: &[String], errors: &mut Errors<E>) -> u8
    ensures { result ≡ 2 }
{
    tell_misuse(USAGE, wrong_in(words, HELP), errors)
}

/// Does what four words say: a name, a cache, a key and a file.
fn run_filed<S: Reasons, C: Clock, N: Names, W: Write, E: Write>(
    env: &mut Env<S, C, N>,
    words: &[String],
    output: &mut W,
    errors: &mut Errors<E>,
) -> u8
    ensures copies { FiledDoes words.now (codes "copy") (Copies S.log)
        env.old env.new (W.contents output.old) (W.contents output.new) result }
    ensures stores { FiledDoes words.now (codes "store")
        (StoresFile S.log N.given S.Temp.seen C.given)
        env.old env.new (W.contents output.old) (W.contents output.new) result }
    ensures status { result ≤ 2 }
    ensures wrong { IsNoFiled words.now → result ≡ 2 }
    ensures nothing_done { result ≡ 2 → (env.new ≡ env.old) × (output.new ≡ output.old) }
    ensures quiet { result ≡ 0 → errors.new ≡ errors.old }
{
    let [name, cache, key, file] = words else {
        return tell_wrong(words, errors);
    };
    match name.as_str() {
        "copy" => copy(
            env,
            cache.as_str(),
            key.as_str(),
            file.as_str(),
            output,
            errors,
        ),
        "store" => store(
            env,
            cache.as_str(),
            key.as_str(),
            file.as_str(),
            output,
            errors,
        ),
        _ => tell_wrong(words, errors),
    }
}

/// Does what the words say that the usage doesn't list, and returns the status, as `run` does.
pub(crate) fn run_further<S: Reasons, C: Clock, N: Names, R: Read, W: Write, E: Write>(
    env: &mut Env<S, C, N>,
    words: &[String],
    input: &mut R,
    output: &mut W,
    errors: &mut Errors<E>,
) -> u8
    ensures reads { KeyedDoes (asked_of words.now) (codes "read-hash") (ReadsHash S.log)
        env.old env.new (W.contents output.old) (W.contents output.new) result }
    ensures writes { KeyedDoes (asked_of words.now) (codes "write-hash")
        (WritesHash S.log N.given (R.remaining input.old))
        env.old env.new (W.contents output.old) (W.contents output.new) result }
    ensures asks { KeyedDoes (asked_of words.now) (codes "exists") (AsksHash S.log)
        env.old env.new (W.contents output.old) (W.contents output.new) result }
    ensures copies { FiledDoes words.now (codes "copy") (Copies S.log)
        env.old env.new (W.contents output.old) (W.contents output.new) result }
    ensures stores { FiledDoes words.now (codes "store")
        (StoresFile S.log N.given S.Temp.seen C.given)
        env.old env.new (W.contents output.old) (W.contents output.new) result }
    ensures status { result ≤ 2 }
    ensures wrong { IsWrongFurther words.now → result ≡ 2 }
    ensures nothing_done { result ≡ 2 → (env.new ≡ env.old) × (output.new ≡ output.old) }
    ensures quiet { result ≡ 0 → errors.new ≡ errors.old }
    ensures input { (asked_of words.now).name ≢ codes "write-hash" → input.new ≡ input.old }
{
    match parse_words(words) {
        ("read-hash", cache, Some(text)) => read_hash(env, cache, text, output, errors),
        ("write-hash", cache, Some(name)) => write_hash(env, cache, name, input, output, errors),
        ("exists", cache, Some(text)) => exists(env, cache, text, output, errors),
        _ => run_filed(env, words, output, errors),
    }
}
