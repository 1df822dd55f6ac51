//! The words after a name, and the options among them.
ghost use Rattle.std.specs.Prelude.{◌≡◌};
ghost use Rattle.cacache_program.specs.{Options.{begun, flag_in, nothing_chosen, options_in, placed, put, taken}, OptionTable.{allowed, takes_value as has_value}};

use crate::keep::names::Word;

/// An option.
#[derive(Clone, Copy)]
pub(crate) enum Flag {
    /// The seconds for which a content stays that nothing names.
    Grace,
    /// A file that names further roots.
    Keep,
    /// How many bytes there may be.
    Size,
    /// How many seconds old an entry may be.
    Age,
    /// What was found is listed.
    List,
    /// What is left is synced, or what decides.
    Durable,
    /// Odd lines are ignored.
    Anyway,
}

/// Where in a list of words these are: up to three that are no options, and each option's value, or the option itself if
/// it takes none. One of the words may be wrong.
#[derive(Clone, Copy)]
pub(crate) struct Options {
    /// The option whose value comes next.
    pub(crate) waits: Option<Flag>,
    pub(crate) first: Option<usize>,
    pub(crate) second: Option<usize>,
    pub(crate) third: Option<usize>,
    pub(crate) grace: Option<usize>,
    pub(crate) keep: Option<usize>,
    pub(crate) size: Option<usize>,
    pub(crate) age: Option<usize>,
    pub(crate) list: Option<usize>,
    pub(crate) durable: Option<usize>,
    pub(crate) anyway: Option<usize>,
    pub(crate) is_wrong: bool,
}

/// Which option the word is.
fn flag_of(word: &str) -> Option<Flag>
    ensures { result ≡ flag_in word.now }
{
    match word {
        "--grace" => Some(Flag::Grace),
        "--keep" => Some(Flag::Keep),
        "--size" => Some(Flag::Size),
        "--age" => Some(Flag::Age),
        "--list" => Some(Flag::List),
        "--durable" => Some(Flag::Durable),
        "--anyway" => Some(Flag::Anyway),
        _ => None,
    }
}

/// Whether a value follows the option.
fn takes_value(flag: Flag) -> bool
    ensures { result ≡ has_value flag }
{
    match flag {
        Flag::List | Flag::Durable | Flag::Anyway => false,
        Flag::Grace | Flag::Keep | Flag::Size | Flag::Age => true,
    }
}

/// Whether the option goes with the name.
fn goes_with(name: Word, flag: Flag) -> bool
    ensures { result ≡ allowed name flag }
{
    match flag {
        Flag::List => matches!(name, Word::Verify),
        Flag::Anyway => matches!(name, Word::Repair | Word::Collect),
        Flag::Durable => matches!(name, Word::Compact | Word::Collect | Word::Prune),
        Flag::Grace | Flag::Keep => matches!(name, Word::Collect | Word::Prune | Word::Tidy),
        Flag::Size | Flag::Age => matches!(name, Word::Tidy),
    }
}

/// With the option's value at this place. An option that has one is wrong.
fn with_value(options: Options, flag: Flag, place: usize) -> Options
    ensures { result ≡ put options flag place }
{
    let rest = Options {
        waits: None,
        ..options
    };
    match flag {
        Flag::Grace => Options {
            grace: Some(place),
            is_wrong: rest.is_wrong || rest.grace.is_some(),
            ..rest
        },
        Flag::Keep => Options {
            keep: Some(place),
            is_wrong: rest.is_wrong || rest.keep.is_some(),
            ..rest
        },
        Flag::Size => Options {
            size: Some(place),
            is_wrong: rest.is_wrong || rest.size.is_some(),
            ..rest
        },
        Flag::Age => Options {
            age: Some(place),
            is_wrong: rest.is_wrong || rest.age.is_some(),
            ..rest
        },
        Flag::List => Options {
            list: Some(place),
            is_wrong: rest.is_wrong || rest.list.is_some(),
            ..rest
        },
        Flag::Durable => Options {
            durable: Some(place),
            is_wrong: rest.is_wrong || rest.durable.is_some(),
            ..rest
        },
        Flag::Anyway => Options {
            anyway: Some(place),
            is_wrong: rest.is_wrong || rest.anyway.is_some(),
            ..rest
        },
    }
}

/// With an option at this place: its value is the next word, or the option itself if it takes none. One that doesn't go
/// with the name is wrong.
fn with_option(name: Word, options: Options, flag: Flag, place: usize) -> Options
    ensures { result ≡ begun name options flag place }
{
    if !goes_with(name, flag) {
        return Options {
            is_wrong: true,
            ..options
        };
    }
    if takes_value(flag) {
        return Options {
            waits: Some(flag),
            ..options
        };
    }
    with_value(options, flag, place)
}

/// With a word at this place that is none of these options: another option is wrong, and so is a fourth word.
fn with_word(options: Options, word: &str, place: usize) -> Options
    ensures { result ≡ placed options word.now place }
{
    if word.as_bytes().starts_with(b"--") {
        return Options {
            is_wrong: true,
            ..options
        };
    }
    if options.first.is_none() {
        return Options {
            first: Some(place),
            ..options
        };
    }
    if options.second.is_none() {
        return Options {
            second: Some(place),
            ..options
        };
    }
    Options {
        third: Some(place),
        is_wrong: options.is_wrong || options.third.is_some(),
        ..options
    }
}

/// With one word more, which is at this place.
fn with(name: Word, options: Options, word: &str, place: usize) -> Options
    ensures { result ≡ taken name options word.now place }
{
    match options.waits {
        Some(flag) => with_value(options, flag, place),
        None => match flag_of(word) {
            Some(flag) => with_option(name, options, flag, place),
            None => with_word(options, word, place),
        },
    }
}

/// Where the words after the name are that it asks for.
pub(crate) fn options_of(name: Word, words: &[String]) -> Options
    ensures { result ≡ options_in name words.now }
{
    let mut options = Options {
        waits: None,
        first: None,
        second: None,
        third: None,
        grace: None,
        keep: None,
        size: None,
        age: None,
        list: None,
        durable: None,
        anyway: None,
        is_wrong: false,
    };
    for place in 0..words.len() {
        options = with(name, options, words[place].as_str(), place);
    }
    options
}
