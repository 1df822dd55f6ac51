//! What a loss of power must leave: the contents of durable commits that answered, and the lookups of their keys.
use crate::losses::history::{DURABLE, HOME, KEYS};
use crate::losses::loss::Loss;
use crate::losses::places::Places;
use cacache_calls::{Command, Reply};
use cacache_core::integrity::{Algorithm, Integrity, IntegrityOpts};
use cacache_core::keeping::{beside, let_go};
use cacache_core::text::Text;
use cacache_disk::Luck;
use cacache_entry::latest;
use cacache_jobs::{bucket_path, content_path};
use cacache_store::store::{Answer, PlainAnswer, PlainStep, Step};
use cacache_world::{Record, World};
use std::alloc::{AllocError, Global};

/// An entry that was appended.
#[derive(Clone, Copy)]
struct Added {
    moment: u128,
    is_tombstone: bool,
}

/// The entries of a key in their order, and how many of the first a loss must leave.
#[derive(Drop)]
struct Entries {
    key: &'static str,
    all: Vec<Added>,
    fixed: usize,
}

/// A caller's call, and the number of its entry, counted from 1; 0 if it added none.
#[derive(Drop)]
struct Call<'h> {
    command: Option<&'h Command>,
    entry: usize,
}

/// What happened so far.
pub(crate) struct Story<'h> {
    alloc: Global,
    pub(crate) places: Places,
    calls: Vec<Call<'h>>,
    keys: Vec<Entries>,
    /// The data that a durable commit stored.
    stored: Vec<&'static str>,
}

// Written out, so that it is a call of its own: whoever lets one go has a proof that doesn't go through its parts.
impl<'h> Drop for Story<'h> {
    fn drop(self) {
        let Story {
            alloc: _,
            places: _places,
            calls: _calls,
            keys: _keys,
            stored: _stored,
        } = self;
    }
}

/// What a call says: its key, its entry, and whether it is durable; None if it adds no entry.
fn said(command: &Command) -> Option<(&str, Added, bool)> {
    let added = |moment, is_tombstone| Added {
        moment,
        is_tombstone,
    };
    match command {
        Command::Put(put) => {
            let key = put.key.as_ref()?.as_str();
            Some((key, added(put.moment, false), put.options.durable))
        }
        Command::Insert(insert) => {
            let is_tombstone = insert.options.integrity.is_none();
            let durable = insert.options.durable;
            Some((
                insert.key.as_str(),
                added(insert.moment, is_tombstone),
                durable,
            ))
        }
        Command::Delete(delete) => Some((delete.key.as_str(), added(delete.moment, true), false)),
        _ => None,
    }
}

/// How much of a line an append left.
fn left_of(line: &[u8], luck: Luck, answer: &PlainAnswer) -> usize {
    match (answer, luck) {
        (Answer::Took(count), _) => *count,
        (Answer::Failed(_), Luck::Fail(_, Some(part))) => part.min(line.len()),
        _ => 0,
    }
}

/// Whether so many bytes of a line hold its entry: all, except for a line feed that closes it.
fn holds_entry(line: &[u8], left: usize) -> bool {
    match line.split_last() {
        Some((b'\n', rest)) => rest.len() <= left,
        _ => line.len() <= left,
    }
}

/// So many callers without a call.
fn idle<'h>(alloc: Global, callers: usize) -> Result<Vec<Call<'h>>, AllocError> {
    let mut calls = Vec::new(alloc);
    for _ in 0..callers {
        calls.push(Call {
            command: None,
            entry: 0,
        })?;
    }
    Ok(calls)
}

/// The keys without an entry.
fn blank_keys(alloc: Global) -> Result<Vec<Entries>, AllocError> {
    let mut keys = Vec::new(alloc);
    for key in KEYS {
        keys.push(Entries {
            key,
            all: Vec::new(alloc),
            fixed: 0,
        })?;
    }
    Ok(keys)
}

impl<'h> Story<'h> {
    /// Nothing happened yet, to so many callers.
    fn new(alloc: Global, callers: usize) -> Result<Story<'h>, AllocError> {
        let calls = idle(alloc, callers)?;
        let (keys, calls) = beside(blank_keys(alloc), calls)?;
        Ok(Story {
            alloc,
            places: Places::new(alloc),
            calls,
            keys,
            stored: Vec::new(alloc),
        })
    }

    /// What happened in a world.
    pub(crate) fn of(alloc: Global, world: &'h World) -> Result<Story<'h>, AllocError> {
        let mut story = Story::new(alloc, world.callers())?;
        story.follow_all(world.history())?;
        Ok(story)
    }

    /// A caller's call is this one, or none.
    fn set_call(&mut self, caller: usize, command: Option<&'h Command>) {
        if let Some(call) = self.calls.get_mut(caller) {
            call.command = command;
            call.entry = 0;
        }
    }

    /// A caller's call added its entry.
    fn add(&mut self, caller: usize) -> Result<(), AllocError> {
        let Some(call) = self.calls.get_mut(caller) else {
            return Ok(());
        };
        let Some((key, added, _)) = call.command.and_then(said) else {
            return Ok(());
        };
        for entries in &mut self.keys {
            if entries.key == key {
                entries.all.push(added)?;
                call.entry = entries.all.len();
            }
        }
        Ok(())
    }

    /// A caller's durable call answered: its entry is fixed, and so is its content.
    fn fix(&mut self, caller: usize) -> Result<(), AllocError> {
        let Some(call) = self.calls.get(caller) else {
            return Ok(());
        };
        let (Some(command), entry) = (call.command, call.entry) else {
            return Ok(());
        };
        let Some((key, _, true)) = said(command) else {
            return Ok(());
        };
        self.fix_entries(key, entry);
        match command {
            Command::Put(put) => self.store(put.data.as_slice()),
            _ => Ok(()),
        }
    }

    /// So many of the entries of a key are fixed.
    fn fix_entries(&mut self, key: &str, count: usize) {
        for entries in &mut self.keys {
            if entries.key == key {
                entries.fixed = entries.fixed.max(count);
            }
        }
    }

    /// A durable commit stored these data.
    fn store(&mut self, data: &[u8]) -> Result<(), AllocError> {
        for text in DURABLE {
            if text.as_bytes() == data {
                self.stored.push(text)?;
            }
        }
        Ok(())
    }

    /// The whole history.
    fn follow_all(&mut self, records: &'h [Record]) -> Result<(), AllocError> {
        for record in records {
            self.follow(record)?;
        }
        Ok(())
    }

    /// The next record of the history.
    fn follow(&mut self, record: &'h Record) -> Result<(), AllocError> {
        match record {
            Record::Began(caller, command) => {
                self.set_call(*caller, Some(command));
                Ok(())
            }
            Record::Stopped(caller) => {
                self.set_call(*caller, None);
                Ok(())
            }
            Record::Moved(caller, luck, made, reply) => {
                if let Some((step, answer)) = made {
                    self.step(*caller, step, *luck, answer)?;
                }
                match reply {
                    Some(Reply::Stored(_)) => self.fix(*caller),
                    _ => Ok(()),
                }
            }
        }
    }

    /// A step of a caller's call was made.
    fn step(
        &mut self,
        caller: usize,
        step: &PlainStep,
        luck: Luck,
        answer: &PlainAnswer,
    ) -> Result<(), AllocError> {
        self.places.follow(step, luck, answer)?;
        match step {
            Step::Append(_, line) => {
                let line = line.as_slice();
                if holds_entry(line, left_of(line, luck, answer)) {
                    return self.add(caller);
                }
                Ok(())
            }
            _ => Ok(()),
        }
    }

    /// Whether a loss leaves the content of these data.
    fn is_left(&self, loss: &Loss, text: &str) -> Result<bool, AllocError> {
        let path = path_of_content(self.alloc, text)?;
        let left = self.places.lost(loss, HOME, path.as_str())?;
        Ok(left.as_ref().map(|bytes| bytes.as_slice()) == Some(text.as_bytes()))
    }

    /// Which durable content a loss doesn't leave, if there is one.
    fn missing_after(&self, loss: &Loss) -> Result<Option<&str>, AllocError> {
        for text in &self.stored {
            if !self.is_left(loss, text)? {
                return Ok(Some(*text));
            }
        }
        Ok(None)
    }

    /// Which lookup finds something wrong after a loss, if there is one.
    fn misled_after(&self, loss: &Loss) -> Result<Option<String>, AllocError> {
        for entries in &self.keys {
            let key = entries.key;
            let found = looked_up(self.alloc, &self.places, loss, key)?;
            if !entries.allow(found) {
                return Ok(Some(format!(in self.alloc; "{key} finds {found:?}")?));
            }
        }
        Ok(None)
    }

    /// What is wrong after a loss, if anything.
    pub(crate) fn wrong_after(&self, loss: &Loss) -> Result<Option<String>, AllocError> {
        match self.missing_after(loss)? {
            Some(text) => Ok(Some(format!(in self.alloc; "the content {text} is lost")?)),
            None => self.misled_after(loss),
        }
    }

    /// How many contents are lost.
    pub(crate) fn lost_contents(&self, loss: &Loss) -> Result<u64, AllocError> {
        let mut count: u64 = 0;
        for place in &self.places.all {
            let path = place.path.as_str();
            if path.contains("/content-v2/") && place.is_file() {
                if self.places.lost(loss, HOME, path)?.is_none() {
                    count = count.saturating_add(1);
                }
            }
        }
        Ok(count)
    }

    /// How many keys' lookups find something other than they would without the loss.
    pub(crate) fn lost_lookups(&self, loss: &Loss) -> Result<u64, AllocError> {
        let mut count: u64 = 0;
        for entries in &self.keys {
            let found = looked_up(self.alloc, &self.places, loss, entries.key)?;
            if found != entries.newest() {
                count = count.saturating_add(1);
            }
        }
        Ok(count)
    }
}

impl Entries {
    /// What a lookup finds if nothing is lost.
    fn newest(&self) -> Option<u128> {
        match self.all.last() {
            Some(added) if !added.is_tombstone => Some(added.moment),
            _ => None,
        }
    }

    /// Whether a lookup may find this: the last entry that is fixed, or a later one.
    fn allow(&self, found: Option<u128>) -> bool {
        let least = self.fixed.saturating_sub(1);
        if self.fixed == 0 && found.is_none() {
            return true;
        }
        self.all.iter().skip(least).any(|added| match found {
            Some(moment) => !added.is_tombstone && added.moment == moment,
            None => added.is_tombstone,
        })
    }
}

/// Where the content of these data lies.
pub(crate) fn path_of_content(alloc: Global, text: &str) -> Result<Text, AllocError> {
    let integrity = integrity_of(alloc, text)?;
    content_path(alloc, HOME, &integrity)
}

/// The integrity of these data.
fn integrity_of(alloc: Global, text: &str) -> Result<Integrity, AllocError> {
    let mut builder = IntegrityOpts::new().algorithm(Algorithm::Sha256);
    builder.input(text.as_bytes());
    match builder.result(alloc) {
        Ok(integrity) => Ok(integrity),
        Err(error) => {
            let_go(error);
            Err(AllocError)
        }
    }
}

/// The moment of the entry that a lookup of a key finds after a loss.
pub(crate) fn looked_up(
    alloc: Global,
    places: &Places,
    loss: &Loss,
    key: &str,
) -> Result<Option<u128>, AllocError> {
    let path = bucket_path(alloc, HOME, key)?;
    let Some(bytes) = places.lost(loss, HOME, path.as_str())? else {
        return Ok(None);
    };
    match latest(alloc, bytes.as_slice(), key) {
        Ok(lookup) => {
            let found = lookup.found.as_ref().map(|found| found.time);
            let_go(lookup);
            Ok(found)
        }
        Err(error) => {
            let_go(error);
            Err(AllocError)
        }
    }
}
