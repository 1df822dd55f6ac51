//! What the rows do. Each function knows some of the names and hands on the others.
use crate::dated::Dated;
use crate::shown::{done, found, told};
use crate::stuck::Kind;
use cacache::env::{Clock, Env, Names, Reasons};
use cacache::errors::Fault;
use cacache::store::Store;
use cacache::{Integrity, Result as Answered, WriteOpts};
use cacache_core::keeping::let_go;
use cacache_keep::{
    CollectOpts, CompactOpts, OddLines, collect, compact, plan, repair, repair_with, sweep, touch,
    verify,
};
use cacache_program::keep::{run, said, tell_missing};
use cacache_program::{Errors, asks_why, tell};
use cacache_store::store::Stamps;
use row_places::planting::{held, make_folder, plant, plant_link};
use row_places::{MOMENT, On};
use rows::Flaw;
use rows::answers::refused;
use rows::words::{cut, number_of, printed, string_of, words_of};
use std::alloc::{AllocError, Global};

/// What a run of the program with these words gives.
fn ran_with<S: Stamps + Reasons, C: Clock, N: Names>(
    env: &mut Env<S, C, N>,
    words: &[String],
) -> Result<String, AllocError> {
    let alloc = env.alloc;
    let (says_why, words) = asks_why(words);
    let mut output = Vec::new(alloc);
    let mut errors = Errors {
        output: Vec::new(alloc),
        says_why,
    };
    let status = match tell(words, said(), &mut output, &mut errors) {
        Some(status) => status,
        None => match tell_missing(env, words, &mut errors) {
            Some(status) => status,
            None => run(env, words, &mut output, &mut errors),
        },
    };
    printed(alloc, status, &output, &errors.output)
}

/// What a run of the program gives.
fn ran<S: Stamps + Reasons>(env: &mut On<S>, words: &str) -> Result<String, Flaw> {
    let words = words_of(env.alloc, words)?;
    Ok(ran_with(env, &words)?)
}

/// The bytes that the input stands for.
fn bytes_of(alloc: Global, input: &str) -> Result<Vec<u8>, AllocError> {
    Ok(string_of(alloc, input)?.into_bytes())
}

/// Plants a file with the bytes of the input.
fn planted<S: Store>(env: &mut On<S>, path: &str, input: &str) -> Result<bool, AllocError> {
    let bytes = bytes_of(env.alloc, input)?;
    let path = string_of(env.alloc, path)?;
    plant(env, path.as_str(), &bytes)
}

/// Writes bytes for which another size is expected: the key, and the size.
fn sized<S: Store>(env: &mut On<S>, cache: &str, words: &str, bytes: &[u8]) -> Answered<Integrity> {
    let (key, size) = cut(words);
    let opts = WriteOpts::new().size(size.parse::<usize>().unwrap_or(0));
    let writer = opts.open_sync(env, cache, key)?;
    writer.write_or_abandon(env, bytes)?.commit(env)
}

/// What a call gives for the bytes of the input.
fn written<S: Store>(
    env: &mut On<S>,
    name: &str,
    cache: &str,
    words: &str,
    input: &str,
) -> Result<String, Flaw> {
    let alloc = env.alloc;
    let bytes = bytes_of(alloc, input)?;
    if name == "sized" {
        return told(alloc, sized(env, cache, words, &bytes));
    }
    told(alloc, cacache::write_vec_sync(env, cache, words, bytes))
}

/// Removes a content by the text of its integrity.
fn removed<S: Store>(env: &mut On<S>, cache: &str, text: &str) -> Result<String, Flaw> {
    let alloc = env.alloc;
    match Integrity::parse(alloc, text) {
        Ok(sri) => told(alloc, cacache::remove_hash_sync(env, cache, &sri)),
        Err(error) => Ok(refused(alloc, error)?),
    }
}

/// What a collection with these options gives: words as `grace=5`, in milliseconds, `keep=INTEGRITY`, `durable` and `anyway`.
fn collected<S: Stamps>(env: &mut On<S>, cache: &str, words: &str) -> Result<String, Flaw> {
    let alloc = env.alloc;
    let mut roots = Vec::new(alloc);
    for word in words.split(' ') {
        if let Some(text) = word.strip_prefix("keep=") {
            match Integrity::parse(alloc, text) {
                Ok(root) => match roots.push(root) {
                    Ok(()) => {}
                    Err(error) => return Err(AllocError::from(error).into()),
                },
                Err(error) => return Ok(refused(alloc, error)?),
            }
        }
    }
    let mut opts = CollectOpts::new().keep(roots.as_slice());
    for word in words.split(' ') {
        opts = match word {
            "durable" => opts.durable(true),
            "anyway" => opts.odd(OddLines::Ignore),
            word => match word.strip_prefix("grace=") {
                Some(millis) => opts.grace(number_of(millis)? as u64),
                None => opts,
            },
        };
    }
    told(alloc, opts.collect(env, cache))
}

/// What a call that keeps a cache in order gives.
fn kept<S: Stamps>(env: &mut On<S>, name: &str, cache: &str) -> Result<String, Flaw> {
    let alloc = env.alloc;
    let durable = CompactOpts::new().durable(true);
    match name {
        "sweep" => told(alloc, sweep(env, cache)),
        "plan" => told(alloc, plan(env, cache)),
        "repair" => told(alloc, repair(env, cache)),
        "collect" => told(alloc, collect(env, cache)),
        "repair_anyway" => told(alloc, repair_with(env, cache, OddLines::Ignore)),
        "verify" => told(alloc, verify(env, cache)),
        "compact" => told(alloc, compact(env, cache)),
        "compact_durably" => told(alloc, durable.compact(env, cache)),
        _ => Err(Flaw::NotRead),
    }
}

/// What a call of the cache gives.
fn called<S: Stamps>(
    env: &mut On<S>,
    name: &str,
    cache: &str,
    words: &str,
    input: &str,
) -> Result<String, Flaw> {
    let alloc = env.alloc;
    match name {
        "write_sync" | "sized" => written(env, name, cache, words, input),
        "read_sync" => told(alloc, cacache::read_sync(env, cache, words)),
        "remove_sync" => told(alloc, cacache::remove_sync(env, cache, words)),
        "remove_hash_sync" => removed(env, cache, words),
        "touch" => told(alloc, touch(env, cache, words)),
        "write_each" => told(alloc, written_each(env, cache, number_of(words)?)),
        "collect_with" => collected(env, cache, words),
        _ => kept(env, name, cache),
    }
}

/// What an act gives.
fn acted<S: Stamps + Reasons>(env: &mut On<S>, act: &str, input: &str) -> Result<String, Flaw> {
    let alloc = env.alloc;
    let (name, words) = cut(act);
    let (path, rest) = cut(words);
    match name {
        "plant" => done(alloc, planted(env, path, input)),
        "link" => done(alloc, plant_link(env, rest, path)),
        "folder" => done(alloc, make_folder(env, path)),
        "held" => Ok(found(alloc, held(env, path))?),
        "cacache-keep" => ran(env, words),
        _ => called(env, name, path, rest, input),
    }
}

/// What an act gives, after how often the clock was asked, and how many numbers.
fn asked<S: Stamps + Reasons>(env: &mut On<S>, act: &str, input: &str) -> Result<String, Flaw> {
    let (clock, numbers) = (env.clock.asked, env.names.next);
    let came = acted(env, act, input)?;
    let clock = env.clock.asked.wrapping_sub(clock);
    let numbers = env.names.next.wrapping_sub(numbers);
    Ok(format!(in env.alloc; "clock {clock}, numbers {numbers}: {came}")?)
}

/// What an act gives while the clock stands at this moment.
fn made_at<S: Stamps + Reasons>(env: &mut On<S>, words: &str, input: &str) -> Result<String, Flaw> {
    let (moment, act) = cut(words);
    env.clock.moment = number_of(moment)? as u64;
    let came = acted(env, act, input);
    env.clock.moment = MOMENT;
    came
}

/// What an act gives if numbers begin here.
fn numbered<S: Stamps + Reasons>(
    env: &mut On<S>,
    words: &str,
    input: &str,
) -> Result<String, Flaw> {
    let (next, act) = cut(words);
    env.names.next = number_of(next)? as u64;
    acted(env, act, input)
}

/// What an act gives while steps of the kind fail that begins the words.
fn stuck<S: Reasons>(env: &mut On<Dated<S>>, words: &str, input: &str) -> Result<String, Flaw> {
    let (kind, act) = cut(words);
    let Some(kind) = Kind::named(kind) else {
        return Err(Flaw::NotRead);
    };
    env.store.stuck = Some(kind);
    env.store.done = kind.done();
    let came = acted(env, act, input);
    env.store.stuck = None;
    came
}

/// What an act gives; after `asked` with how often the environment was asked.
fn made_now<S: Reasons>(env: &mut On<Dated<S>>, act: &str, input: &str) -> Result<String, Flaw> {
    let (name, words) = cut(act);
    match name {
        "asked" => asked(env, words, input),
        "at" => made_at(env, words, input),
        "numbered" => numbered(env, words, input),
        "stuck" => stuck(env, words, input),
        _ => acted(env, act, input),
    }
}

/// The time that a word gives as that of the last change of each file; `gone` if nothing is there.
fn change_of(word: &str) -> Result<Result<u64, Fault>, Flaw> {
    if word == "gone" {
        return Ok(Err(Fault::NotFound));
    }
    Ok(Ok(number_of(word)? as u64))
}

/// What an act gives; after `changed` and a time, over a store each of whose files changed then. Otherwise the store knows
/// no times.
pub(crate) fn made<S: Reasons>(
    env: &mut On<Dated<S>>,
    act: &str,
    input: &str,
) -> Result<String, Flaw> {
    let (name, words) = cut(act);
    if name != "changed" {
        return made_now(env, act, input);
    }
    let (time, act) = cut(words);
    env.store.changed = change_of(time)?;
    let came = made_now(env, act, input);
    env.store.changed = Err(Fault::Unsupported);
    came
}

/// Writes the digits of a number under themselves.
fn write_digits<S: Store>(env: &mut On<S>, cache: &str, number: usize) -> Answered<()> {
    let digits = format!(in env.alloc; "{number}")?;
    let stored = cacache::write_sync(env, cache, digits.as_str(), digits.as_bytes());
    let_go(digits);
    let_go(stored?);
    Ok(())
}

/// Writes so many contents.
fn written_each<S: Store>(env: &mut On<S>, cache: &str, count: usize) -> Answered<()> {
    for number in 0..count {
        write_digits(env, cache, number)?;
    }
    Ok(())
}
