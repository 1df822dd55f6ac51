//! What a row asks for, and what came.
use crate::losses::acting::{counted, make};
use crate::losses::getting::got_from;
use crate::losses::history::{HOME, play, world_of};
use crate::losses::loss::Loss;
use crate::losses::places::Places;
use crate::losses::promised::{Story, looked_up, path_of_content};
use crate::losses::worlds::{differs, disk_after};
use cacache_core::keeping::let_go;
use cacache_jobs::bucket_path;
use cacache_world::World;
use rows::random::Random;
use rows::words::{cut, number_of, string_of, written_out};
use rows::{Flaw, Outcome, Trial};
use std::alloc::{AllocError, Global};

/// The rows so far.
#[derive(Drop)]
pub(crate) struct Losses {
    alloc: Global,
}

impl Losses {
    /// No rows yet.
    pub(crate) fn new(alloc: Global) -> Losses {
        Losses { alloc }
    }
}

/// What a row of random lists asks for.
#[derive(Clone, Copy)]
struct Lists {
    count: usize,
    seed: usize,
    callers: usize,
    events: usize,
}

/// What was counted of random losses.
#[derive(Drop)]
struct Count {
    contents: u64,
    lookups: u64,
}

/// How a loss at the end of a history differs from what must be there, if it does. What else it took is counted.
fn judged(
    world: &World,
    story: &Story<'_>,
    loss: &Loss,
    count: &mut Count,
) -> Result<Option<String>, AllocError> {
    match differs(world, &story.places, loss)? {
        Some(text) => Ok(Some(text)),
        None => {
            let contents = story.lost_contents(loss)?;
            let lookups = story.lost_lookups(loss)?;
            count.contents = count.contents.saturating_add(contents);
            count.lookups = count.lookups.saturating_add(lookups);
            story.wrong_after(loss)
        }
    }
}

/// A random loss at the end of a history: how it differs from what must be there, if it does.
fn lost_after(
    world: &World,
    story: &Story<'_>,
    random: &mut Random,
    count: &mut Count,
) -> Result<Option<String>, AllocError> {
    let loss = Loss::random(&story.places, random)?;
    judged(world, story, &loss, count)
}

/// Random events in a world and a random loss at their end: how it differs from what must be there, if it does.
fn lost_in(
    alloc: Global,
    world: &mut World,
    random: &mut Random,
    events: usize,
    count: &mut Count,
) -> Result<Option<String>, AllocError> {
    play(alloc, world, random, events)?;
    let story = Story::of(alloc, world)?;
    lost_after(world, &story, random, count)
}

/// One random history in a world of its own, with a loss at a random moment.
fn lost_of(
    alloc: Global,
    asked: Lists,
    random: &mut Random,
    count: &mut Count,
) -> Result<Option<String>, Flaw> {
    let Some(mut world) = world_of(alloc, asked.callers) else {
        return Err(Flaw::Refused);
    };
    let until = random.below(asked.events);
    Ok(lost_in(alloc, &mut world, random, until, count)?)
}

/// The random lists that these words ask for.
fn lists_of(words: &str) -> Result<Lists, Flaw> {
    let (count, rest) = cut(words);
    let (seed, rest) = cut(rest);
    let (callers, events) = cut(rest);
    Ok(Lists {
        count: number_of(count)?,
        seed: number_of(seed)?,
        callers: number_of(callers)?,
        events: number_of(events)?,
    })
}

/// So many random histories, each with a loss at a random moment, or if some differ, how the first of them does.
fn all_lost(alloc: Global, asked: Lists) -> Result<String, Flaw> {
    let mut random = Random::new(asked.seed as u64);
    let mut count = Count {
        contents: 0,
        lookups: 0,
    };
    for number in 0..asked.count {
        if let Some(text) = lost_of(alloc, asked, &mut random, &mut count)? {
            return Ok(format!(in alloc; "list {number}: {text}")?);
        }
    }
    let Count { contents, lookups } = count;
    Ok(format!(in alloc; "{contents} contents and {lookups} lookups lost")?)
}

/// What a loss leaves of the file at a path.
fn left_at(alloc: Global, places: &Places, loss: &Loss, path: &str) -> Result<String, AllocError> {
    match places.lost(loss, HOME, path)? {
        Some(bytes) => String::from_str(alloc, str::from_utf8(bytes.as_slice()).unwrap_or("?")),
        None => String::from_str(alloc, "nothing"),
    }
}

/// What a loss leaves of the data `one`.
fn content_left(alloc: Global, places: &Places, loss: &Loss) -> Result<String, AllocError> {
    let path = path_of_content(alloc, "one")?;
    left_at(alloc, places, loss, path.as_str())
}

/// What a loss leaves of the bucket of the key `a`.
fn bucket_left(alloc: Global, places: &Places, loss: &Loss) -> Result<String, AllocError> {
    let path = bucket_path(alloc, HOME, "a")?;
    let text = left_at(alloc, places, loss, path.as_str())?;
    written_out(alloc, text.as_str())
}

/// What a loss leaves of the data `one`, of the key `a` and of its bucket.
fn seen(alloc: Global, places: &Places, loss: &Loss) -> Result<String, AllocError> {
    let found = looked_up(alloc, places, loss, "a")?;
    let content = content_left(alloc, places, loss)?;
    let bucket = bucket_left(alloc, places, loss)?;
    match found {
        Some(moment) => format!(in alloc; "content {content}; finds {moment}; bucket {bucket}"),
        None => format!(in alloc; "content {content}; finds nothing; bucket {bucket}"),
    }
}

/// What a `Get` of the key `a` answers on the disk that a loss leaves.
fn got_after(alloc: Global, world: &World, places: &Places, loss: &Loss) -> Result<String, Flaw> {
    let disk = disk_after(world, places, loss)?;
    let line = got_from(alloc, &disk);
    let_go(disk);
    line
}

/// The loss that these words ask for.
fn loss_of(alloc: Global, places: &Places, words: &str) -> Result<Loss, AllocError> {
    let (undone, rest) = cut(words);
    let (content, rest) = cut(rest);
    let (bucket, tail) = cut(rest);
    let path = path_of_content(alloc, "one")?;
    let content_tail = string_of(alloc, content)?;
    let bucket_tail = string_of(alloc, tail)?;
    let undone = if undone == "content" {
        path.as_str()
    } else {
        undone
    };
    let tails = [
        (path.as_str(), content_tail.as_str()),
        (bucket, bucket_tail.as_str()),
    ];
    Loss::of(places, undone, &tails)
}

/// What is seen after the loss that these words ask for.
fn seen_after(alloc: Global, world: &World, places: &Places, words: &str) -> Result<String, Flaw> {
    let loss = loss_of(alloc, places, words)?;
    if let Some(text) = differs(world, places, &loss)? {
        return Ok(text);
    }
    let got = got_after(alloc, world, places, &loss)?;
    let seen = seen(alloc, places, &loss)?;
    Ok(format!(in alloc; "{got}; {seen}")?)
}

/// What is seen of some calls in a world after a loss; if there is no loss, how many moves each call takes.
fn case_in(
    alloc: Global,
    world: &mut World,
    acts: &str,
    loss: Option<&str>,
) -> Result<String, Flaw> {
    let Some(loss) = loss else {
        return counted(alloc, world, acts);
    };
    for (number, act) in acts.split("; ").enumerate() {
        make(alloc, world, act, number as u128)?;
    }
    let story = Story::of(alloc, world)?;
    seen_after(alloc, world, &story.places, loss)
}

/// What is seen of some calls after a loss in a world of their own.
fn case(alloc: Global, acts: &str, loss: Option<&str>) -> Result<String, Flaw> {
    let Some(mut world) = world_of(alloc, 1) else {
        return Err(Flaw::Refused);
    };
    case_in(alloc, &mut world, acts, loss)
}

/// What came of a row.
fn tried(alloc: Global, act: &str) -> Result<String, Flaw> {
    if let Some((acts, loss)) = act.split_once(" | ") {
        return case(alloc, acts, Some(loss));
    }
    match cut(act) {
        ("moves", acts) => case(alloc, acts, None),
        (_, words) => all_lost(alloc, lists_of(words)?),
    }
}

impl Trial for Losses {
    fn outcome(&mut self, row: &str) -> Result<Outcome, Flaw> {
        let Some((act, wanted)) = row.rsplit_once(" | ") else {
            return Err(Flaw::NotRead);
        };
        let wanted = String::from_str(self.alloc, wanted)?;
        let got = tried(self.alloc, act)?;
        Ok(Outcome { wanted, got })
    }
}
