//! What a row does: a public call, or something that somebody else does.
use crate::calls::called;
use crate::exports::exported;
use crate::layers::layered;
use crate::linkers::linked;
use crate::program::{ended, without};
use crate::puts::{driven, put};
use crate::readers::read;
use crate::row::{Row, shown};
use crate::writers::written;
use cacache::store::Store;
use cacache::text::Text;
use cacache_core::keeping::{let_go, set};
use row_places::planting::{held, make_folder, make_link, names_in, plant, remove_file};
use row_places::{MOMENT, On};
use rows::Flaw;
use rows::words::{bytes_of, cut, number_of, string_of};
use std::alloc::AllocError;

/// What a file holds, as a row says it.
fn file<S: Store>(env: &mut On<S>, path: &str) -> Result<String, AllocError> {
    match held(env, path)? {
        Some(bytes) => shown(env.alloc, &bytes),
        None => String::from_str(env.alloc, "no file"),
    }
}

/// How many names a folder has, as a row says it.
fn names<S: Store>(env: &mut On<S>, path: &str) -> Result<String, AllocError> {
    let count = names_in(env, path)?;
    format!(in env.alloc; "{count:?}")
}

/// Plants a file with these bytes, in words.
fn planted<S: Store>(env: &mut On<S>, path: &str, input: &str) -> Result<bool, Flaw> {
    let text = string_of(env.alloc, input)?;
    let bytes = bytes_of(env.alloc, text.as_str())?;
    Ok(plant(env, path, &bytes)?)
}

/// What is done at the moment that an act begins with.
fn made_at<S: Store>(env: &mut On<S>, act: &str, row: Row<'_>) -> Result<String, Flaw> {
    let (moment, act) = cut(act);
    let moment = moment.parse::<u64>().ok();
    env.clock.moment = moment.unwrap_or(MOMENT);
    let made = called(env, Row { act, ..row });
    env.clock.moment = MOMENT;
    made
}

/// How often a call asks the clock and asks for a number.
fn asked<S: Store>(env: &mut On<S>, act: &str, row: Row<'_>) -> Result<String, Flaw> {
    let (clock, numbers) = (env.clock.asked, env.names.next);
    let line = called(env, Row { act, ..row })?;
    let clock = env.clock.asked.wrapping_sub(clock);
    let numbers = env.names.next.wrapping_sub(numbers);
    Ok(format!(in env.alloc; "clock {clock}, numbers {numbers}: {line}")?)
}

/// What a step of somebody else gives, if the name is that of one: whether it was done.
fn made_beside<S: Store>(
    env: &mut On<S>,
    name: &str,
    path: &str,
    input: &str,
) -> Result<Option<&'static str>, Flaw> {
    let is_done = match name {
        "plant" => planted(env, path, input)?,
        "folder" => make_folder(env, path)?,
        "gone" => remove_file(env, path)?,
        "link" => make_link(env, input, path)?,
        _ => return Ok(None),
    };
    Ok(Some(if is_done { "done" } else { "not done" }))
}

/// What is given by a look at a file or a folder, by a step of somebody else, or by a public call.
fn made_or_called<S: Store>(env: &mut On<S>, row: Row<'_>) -> Result<String, Flaw> {
    let (name, path) = cut(row.act);
    if let Some(told) = made_beside(env, name, path, row.input)? {
        return Ok(String::from_str(env.alloc, told)?);
    }
    match name {
        "holds" => Ok(file(env, path)?),
        "names" => Ok(names(env, path)?),
        _ => called(env, row),
    }
}

/// What is given by calls that a row writes out: writers, readers, linkers, exports, layers and puts.
fn made_of<S: Store>(env: &mut On<S>, row: Row<'_>) -> Result<String, Flaw> {
    let Row { act, input, .. } = row;
    let (name, act) = cut(act);
    match name {
        "put" => put(env, act, input),
        "drive" => driven(env, act, input),
        "writer" => written(env, act, input),
        "reader" => read(env, act, input),
        "linker" => linked(env, act),
        "export" => exported(env, act),
        "layers" => layered(env, act),
        _ => made_or_called(env, row),
    }
}

/// What an act gives in an environment with the folder that the act begins with as its base.
fn made_from<S: Store>(env: &mut On<S>, act: &str, row: Row<'_>) -> Result<String, Flaw> {
    let (base, act) = cut(act);
    let here = env.base.clone()?;
    let base = Text::from_str(env.alloc, base)?;
    set(&mut env.base, base);
    let made = made_of(env, Row { act, ..row });
    set(&mut env.base, here);
    made
}

/// The descriptors that the program has open, on real folders.
const OPEN: &str = "/proc/self/fd";

/// How much memory the program has, on real folders: its first number is that of pages.
const MEMORY: &str = "/proc/self/statm";

/// The most pages that calls which are made again and again may add.
const FEW: usize = 256;

/// How many pages of memory the program has, and how many descriptors are open, if both can be had.
fn kept<S: Store>(env: &mut On<S>) -> Result<Option<(usize, usize)>, Flaw> {
    let text = file(env, MEMORY)?;
    let (pages, _) = cut(text.as_str());
    match (pages.parse::<usize>(), names_in(env, OPEN)?) {
        (Ok(pages), Some(open)) => Ok(Some((pages, open))),
        _ => Ok(None),
    }
}

/// What an act that is made so many times gives, which must be the same each time.
fn made_often<S: Store>(env: &mut On<S>, row: Row<'_>, count: usize) -> Result<String, Flaw> {
    let first = made_of(env, row)?;
    for number in 1..count {
        let line = made_of(env, row)?;
        if line != first {
            return Ok(format!(in env.alloc; "{first}, but at {number} {line}")?);
        }
    }
    Ok(first)
}

/// What an act that is made a few times and then so many times more gives, and whether these keep memory or a
/// descriptor.
fn again<S: Store>(env: &mut On<S>, act: &str, row: Row<'_>) -> Result<String, Flaw> {
    let (count, act) = cut(act);
    let count = number_of(count)?;
    let row = Row { act, ..row };
    let_go(made_often(env, row, 8)?);
    let before = kept(env)?;
    let line = made_often(env, row, count)?;
    let told = match (before, kept(env)?) {
        (Some((pages, open)), Some((more, still))) => {
            if open != still {
                "descriptors are kept"
            } else if more.saturating_sub(pages) > FEW {
                "memory is kept"
            } else {
                "nothing is kept"
            }
        }
        _ => "what is kept isn't known",
    };
    Ok(format!(in env.alloc; "{line}; {told}")?)
}

/// What the row's act gives.
pub(crate) fn made<S: Store>(env: &mut On<S>, row: Row<'_>) -> Result<String, Flaw> {
    let (name, act) = cut(row.act);
    match name {
        "at" => made_at(env, act, row),
        "from" => made_from(env, act, row),
        "asked" => asked(env, act, row),
        "again" => again(env, act, row),
        "without" => without(env.alloc, act),
        "ended" => ended(env.alloc, act),
        _ => made_of(env, row),
    }
}
