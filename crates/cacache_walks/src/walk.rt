//! A walk, which makes one visit after another.
ghost use Rattle.std.specs.Prelude.{◌≡◌, ◌+◌, List, [], OnOk, IfOk, IfErr, length, map, Some};
ghost use Rattle.cacache_store.specs.Plain.{plain_answer};
ghost use Rattle.cacache_calls.specs.{Common.{go_on, refuse}, Runs.{plain_item, plain_reply, EndsAs}, State.{Item, over}, Walking.{walk as walk_from, give as give_of, walk_on as walk_on_of, walk_ends, too_many as too_many_of, miss as miss_of, unread_bucket, listed as listed_of, after_visit}};
ghost use Rattle.cacache_walks.specs.WalkStates.{WalksAt, GoesOn, GivesOn, walk_of};

use crate::{bucket, messages};
use cacache_calls::answers::{bytes_of, done_of, names_of};
use cacache_calls::{Found, Items, Refusal, Reply, Task, Visit};
use cacache_core::bytes::Bytes;
use cacache_core::errors::{self, Error, Fault};
use cacache_core::text::Text;
use cacache_store::store::{Answer, FileHandle, TempHandle};
use std::alloc::{AllocError, Global};

/// A walk through all folders below one.
pub struct Walk {
    /// Whether the walk removes what it finds. Otherwise it lists.
    pub clears: bool,
    /// The folder that the walk starts in.
    pub top: Text,
    /// The items that it listed and that nobody took yet.
    pub items: Vec<Result<Found, Error>>,
    /// How many more names it may take.
    pub left: u64,
    /// How many more items it may list.
    pub room: u64,
    /// The stack of tasks that are still to do: the last comes first.
    pub todo: Vec<Task>,
}

// Written out, so that dropping a walk is a call of its own: the proof of a function that drops one doesn't go through
// its fields.
impl Drop for Walk {
    fn drop(self) {
        let Walk {
            clears: _,
            top: _top,
            items: _items,
            left: _,
            room: _,
            todo: _todo,
        } = self;
    }
}

/// A walk takes at most this many names, and lists at most this many items.
const MOST: u64 = 0x8000_0000_0000_0000;

impl Walk {
    /// A walk through this folder, and its first visit.
    pub fn new(alloc: Global, clears: bool, top: Text) -> Result<(Walk, Visit), AllocError>
        ensures stands { IfOk result (λ w. WalksAt [] w.0 (Some w.1) (walk_from clears top)) }
        ensures empty { IfOk result (λ w. w.0.items.items ≡ []) }
    {
        let visit = Visit::Enter(top.clone()?, 0);
        let walk = Walk {
            clears,
            top,
            items: Vec::new(alloc),
            left: MOST,
            room: MOST,
            todo: Vec::new(alloc),
        };
        Ok((walk, visit))
    }

    /// The reply of a walk that is over.
    pub fn into_reply(self) -> Reply
        ensures { over (plain_reply result) ≡ walk_ends (walk_of [] self) }
    {
        let Walk {
            clears,
            top: _top,
            items,
            left: _,
            room: _,
            todo: _todo,
        } = self;
        if clears {
            return Reply::Done;
        }
        Reply::Listed(Items::new(items))
    }

    /// The text for a fault at this path, in a step that isn't a bucket's. For a listing, the text names the listing's
    /// own folder.
    pub(crate) fn message(&self, alloc: Global, path: &Text) -> Result<Text, AllocError> {
        if self.clears {
            return messages::clearing(alloc, path);
        }
        messages::listing_folder(alloc, &self.top)
    }

    /// Ends a walk that exceeds the maximum. The last item of a listing says so.
    #[tactic(auto, using(crate::proofs::Walks::taken_more))]
    pub(crate) fn end_too_deep(&mut self, alloc: Global) -> errors::Result<()>
        ensures ends { OnOk result ((taken : List Item)
            → too_many_of (walk_of taken self.old) ≡ walk_ends (walk_of taken self.new)) }
        ensures fails { IfErr result (λ e. (taken : List Item)
            → EndsAs e (too_many_of (walk_of taken self.old))) }
        ensures one_more { OnOk result
            (length self.new.items.items ≡ length self.old.items.items + 1) }
        ensures todo { OnOk result (self.new.todo.items ≡ self.old.todo.items) }
    {
        let error = Error::IoError(Fault::TooDeep, self.message(alloc, &self.top)?);
        if self.clears {
            return Err(error);
        }
        self.items.push(Err(error))?;
        Ok(())
    }

    /// Adds items. Returns whether the walk goes on: it ends if they exceed the maximum.
    fn give(&mut self, alloc: Global, items: Vec<Result<Found, Error>>) -> errors::Result<bool>
        ensures gives { GivesOn self.old self.new result
            (λ w next. give_of w (map plain_item items.items) next) }
        ensures todo { OnOk result (self.new.todo.items ≡ self.old.todo.items) }
    {
        let mut items = items;
        let count = items.len() as u64;
        if count <= self.room {
            self.items.append(&mut items)?;
            self.room -= count;
            return Ok(true);
        }
        items.truncate(self.room as usize);
        self.items.append(&mut items)?;
        match self.end_too_deep(alloc) {
            Ok(()) => Ok(false),
            Err(error) => Err(error),
        }
    }

    /// Handles a fault, and returns whether the walk goes on. A clearing ends with the fault; a listing lists it as an
    /// item.
    fn miss(
        &mut self,
        alloc: Global,
        fault: Fault,
        message: Result<Text, AllocError>,
    ) -> errors::Result<bool>
        ensures gives { GivesOn self.old self.new result (λ w next. miss_of w next fault) }
        ensures todo { OnOk result (self.new.todo.items ≡ self.old.todo.items) }
    {
        let error = Error::IoError(fault, message?);
        if self.clears {
            return Err(error);
        }
        let mut items = Vec::with_capacity(alloc, 1)?;
        items.push(Err(error))?;
        self.give(alloc, items)
    }

    /// Goes on to the next task that needs a step.
    pub(crate) fn walk_on(&mut self, alloc: Global) -> errors::Result<Option<Visit>>
        ensures { GoesOn self.old self.new result (λ w todo. walk_on_of todo w) }
    {
        while let Some(task) = self.todo.pop() {
            match task {
                Task::Make(visit) => return Ok(Some(visit)),
                Task::Stumble(fault, path) => {
                    let message = self.message(alloc, &path);
                    match self.miss(alloc, fault, message) {
                        Ok(true) => {}
                        Ok(false) => return Ok(None),
                        Err(error) => return Err(error),
                    }
                }
            }
        }
        Ok(None)
    }

    /// Goes on after a refused step.
    pub(crate) fn after_refusal(
        &mut self,
        alloc: Global,
        refusal: Refusal,
        message: Result<Text, AllocError>,
    ) -> errors::Result<Option<Visit>>
        ensures { GoesOn self.old self.new result
            (λ w todo. refuse refusal (miss_of w (walk_on_of todo))) }
    {
        match refusal {
            Refusal::Fault(fault) => {
                if self.miss(alloc, fault, message)? {
                    return self.walk_on(alloc);
                }
                Ok(None)
            }
            Refusal::Memory => Err(Error::OutOfMemory),
        }
    }

    /// Lists the items in the bytes of a bucket.
    fn give_listed(&mut self, alloc: Global, bytes: Bytes) -> errors::Result<Option<Visit>>
        ensures { GoesOn self.old self.new result (λ w todo. listed_of w todo bytes) }
    {
        let items = bucket::items(alloc, bytes.as_slice())?;
        if self.give(alloc, items)? {
            return self.walk_on(alloc);
        }
        Ok(None)
    }

    /// Goes on after a bucket was to be read. A missing bucket counts as empty.
    fn read(
        &mut self,
        alloc: Global,
        bucket: Text,
        bytes: Result<Bytes, Refusal>,
    ) -> errors::Result<Option<Visit>>
        ensures { GoesOn self.old self.new result
            (λ w todo. go_on bytes (unread_bucket w todo) (listed_of w todo)) }
    {
        match bytes {
            Ok(bytes) => self.give_listed(alloc, bytes),
            Err(Refusal::Fault(Fault::NotFound)) => self.walk_on(alloc),
            Err(refusal) => {
                let message = messages::listing_bucket(alloc, &bucket);
                self.after_refusal(alloc, refusal, message)
            }
        }
    }

    /// Goes on after a file or a folder was to be removed.
    fn after_removal(
        &mut self,
        alloc: Global,
        path: Text,
        done: Result<(), Refusal>,
    ) -> errors::Result<Option<Visit>>
        ensures { GoesOn self.old self.new result
            (λ w todo. go_on done (miss_of w (walk_on_of todo)) (λ _. walk_on_of todo w)) }
    {
        match done {
            Ok(()) => self.walk_on(alloc),
            Err(refusal) => {
                let message = messages::clearing(alloc, &path);
                self.after_refusal(alloc, refusal, message)
            }
        }
    }

    /// Goes on with the answer to a visit's step. Returns the next visit, or `None` if the walk is over.
    ///
    /// A fault ends a clearing with an `IoError`. A listing lists it as an item and goes on.
    pub fn resume<F: FileHandle, T: TempHandle>(
        &mut self,
        alloc: Global,
        visit: Visit,
        answer: Answer<F, T>,
    ) -> errors::Result<Option<Visit>>
        ensures { GoesOn self.old self.new result
            (λ w todo. after_visit w visit todo (plain_answer F.seen T.seen answer)) }
    {
        match visit {
            Visit::Enter(folder, level) => self.after_listing(
                alloc,
                folder,
                level,
                names_of(answer),
            ),
            Visit::ReadBucket(bucket) => self.read(alloc, bucket, bytes_of(answer)),
            Visit::RemoveFile(path) => self.after_removal(alloc, path, done_of(answer)),
            Visit::RemoveFolder(path) => self.after_removal(alloc, path, done_of(answer)),
        }
    }
}
