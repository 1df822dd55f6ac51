//! What words ask for.
ghost use Rattle.std.specs.Prelude.{◌≡◌, option_map, slice_get, string_bytes, MatchOption};
ghost use Rattle.cacache_program.specs.Orders.{age_in, cache_in, key_in, order_by, order_in, order_of as view_of, size_in, text_at as text_in};

use crate::keep::amounts::{Measure, limit_of};
use crate::keep::names::{Word, word_of};
use crate::keep::options::{Options, options_of};

/// A name with its cache and what its options say.
#[derive(Clone, Copy)]
pub(crate) struct Order<'a> {
    pub(crate) word: Word,
    pub(crate) cache: &'a str,
    /// The key that is touched; for other words the cache again.
    pub(crate) key: &'a str,
    /// The file that names further roots.
    pub(crate) keep: Option<&'a str>,
    /// For how many seconds a content stays that nothing names.
    pub(crate) grace: Option<u64>,
    /// How many bytes there may be.
    pub(crate) size: Option<u64>,
    /// How many seconds old an entry may be.
    pub(crate) age: Option<u64>,
    pub(crate) lists: bool,
    pub(crate) durable: bool,
    pub(crate) anyway: bool,
}

/// The word at the place, if there is one.
fn text_at(words: &[String], place: Option<usize>) -> Option<&str>
    ensures { option_map (λ w. w.now) result ≡ text_in words.now place }
{
    match words.get(place?) {
        Some(word) => Some(word.as_str()),
        None => None,
    }
}

/// Where the cache is: behind all words that are no options.
fn cache_of(word: Word, options: Options) -> Option<usize>
    ensures { result ≡ cache_in word options }
{
    match word {
        Word::Prune | Word::PlanPrune => options.third,
        Word::Touch => match options.third {
            Some(_) => None,
            None => options.second,
        },
        _ => match options.second {
            Some(_) => None,
            None => options.first,
        },
    }
}

/// Where the key is; for other words the cache again.
fn key_of(word: Word, options: Options) -> Option<usize>
    ensures { result ≡ key_in word options }
{
    match word {
        Word::Touch => options.first,
        _ => cache_of(word, options),
    }
}

/// Where the limit of bytes is.
fn size_of(word: Word, options: Options) -> Option<usize>
    ensures { result ≡ size_in word options }
{
    match word {
        Word::Prune | Word::PlanPrune => options.first,
        _ => options.size,
    }
}

/// Where the limit of seconds is.
fn age_of(word: Word, options: Options) -> Option<usize>
    ensures { result ≡ age_in word options }
{
    match word {
        Word::Prune | Word::PlanPrune => options.second,
        _ => options.age,
    }
}

/// What these words behind a name ask for, of which these are the options.
fn order_with(word: Word, options: Options, words: &[String]) -> Option<Order<'_>>
    ensures { option_map view_of result ≡ order_by word options words.now }
{
    if options.is_wrong || options.waits.is_some() {
        return None;
    }
    let cache = text_at(words, cache_of(word, options))?;
    let key = text_at(words, key_of(word, options))?;
    let grace = limit_of(Measure::Seconds, text_at(words, options.grace))?;
    let size = limit_of(Measure::Bytes, text_at(words, size_of(word, options)))?;
    let age = limit_of(Measure::Seconds, text_at(words, age_of(word, options)))?;
    Some(Order {
        word,
        cache,
        key,
        keep: text_at(words, options.keep),
        grace,
        size,
        age,
        lists: options.list.is_some(),
        durable: options.durable.is_some(),
        anyway: options.anyway.is_some(),
    })
}

/// What the words ask for, if they are right.
pub(crate) fn order_of(words: &[String]) -> Option<Order<'_>>
    ensures { option_map view_of result ≡ order_in words.now }
{
    let Some((name, others)) = words.split_first() else {
        return None;
    };
    match word_of(name.as_str()) {
        Some(word) => order_with(word, options_of(word, others), others),
        None => None,
    }
}
