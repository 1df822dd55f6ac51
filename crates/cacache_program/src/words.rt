//! The words of a command line.
ghost use Rattle.std.specs.{Prelude.{◌≡◌, ◌≢◌, option_map}, IoError.{error_kind}};
ghost use Rattle.cacache_program.specs.Words.{asked_of, these_asked};

use crate::errors::{Errors, tell_failure, tell_misuse};
use std::env::{Env, args};
use std::io::{self, ErrorKind, Write};

/// The words after the program's name.
pub fn words_of<R: Env + AllocGlobal>(rt: &R) -> io::Result<Vec<String>> {
    let mut words = Vec::new(rt.alloc());
    for word in args(rt)?.skip(1) {
        words.push(word)?;
    }
    Ok(words)
}

/// The name, the cache and the key that the words give; an empty name if there are fewer or more.
pub(crate) fn parse_words(words: &[String]) -> (&str, &str, Option<&str>)
    ensures { asked_of words.now
        ≡ these_asked result.0.now result.1.now (option_map (λ k. k.now) result.2) }
{
    match words {
        [word, cache] => (word.as_str(), cache.as_str(), None),
        [word, cache, key] => (word.as_str(), cache.as_str(), Some(key.as_str())),
        _ => ("", "", None),
    }
}

/// What is wrong with words that a program doesn't take. Each line of its help begins with a word that it knows.
pub(crate) fn wrong_in(words: &[String], help: &str) -> &'static str {
    let Some(first) = words.first() else {
        return "no word is given";
    };
    for line in help.lines() {
        if line.split_whitespace().next() == Some(first.as_str()) {
            return "wrong words after the first";
        }
    }
    "unknown word"
}

/// Prints why the words can't be had, and returns the status: 1 if memory ran out, and 2 with this
/// usage if a word isn't UTF-8.
pub fn without_words<E: Write>(error: &io::Error, usage: &str, errors: &mut Errors<E>) -> u8
    ensures memory { error_kind error.now ≡ ErrorKind.OutOfMemory → result ≡ 1 }
    ensures wrong { error_kind error.now ≢ ErrorKind.OutOfMemory → result ≡ 2 }
{
    if error.kind() == ErrorKind::OutOfMemory {
        return tell_failure(errors, "out of memory", None);
    }
    tell_misuse(usage, "a word isn't UTF-8", errors)
}
