//! The names in a folder that a walk enters, and the tasks that they add.
ghost use Rattle.std.specs.Prelude.{◌≡◌, ◌++◌, OnOk};
ghost use Rattle.cacache_calls.specs.{Common.{go_on}, Walking.{walk_on as walk_on_of, miss as miss_of, entered as entered_of, task_for_name, tasks_of, leaving}};
ghost use Rattle.cacache_walks.specs.WalkStates.{GoesOn, pending};

use crate::messages;
use crate::walk::Walk;
use cacache_calls::{Refusal, Task, Visit};
use cacache_core::errors::{self, Fault};
use cacache_core::paths::join;
use cacache_core::text::Text;
use cacache_store::store::{Kind, Listing, Name};
use std::alloc::{AllocError, Global};

/// Folders below this level aren't entered.
const DEEPEST: u8 = 16;

/// The task for a name in a folder at this level, by its path. Links are never followed.
fn task_at(clears: bool, level: u8, path: Text, kind: Kind) -> Task
    ensures { result ≡ task_for_name clears level path kind }
{
    match kind {
        Kind::Folder => {
            if level < DEEPEST {
                return Task::Make(Visit::Enter(path, level + 1));
            }
            Task::Stumble(Fault::TooDeep, path)
        }
        Kind::File => {
            if !clears {
                return Task::Make(Visit::ReadBucket(path));
            }
            if level == 0 {
                return Task::Stumble(Fault::NotADirectory, path);
            }
            Task::Make(Visit::RemoveFile(path))
        }
        Kind::Link => {
            if clears {
                return Task::Make(Visit::RemoveFile(path));
            }
            Task::Make(Visit::ReadBucket(path))
        }
    }
}

/// Pushes the tasks of a folder's names onto the stack, so that the first name's task comes first.
#[tactic(auto, using(crate::proofs::Walks::pending_push))]
fn push_tasks(
    alloc: Global,
    todo: &mut Vec<Task>,
    clears: bool,
    level: u8,
    folder: &str,
    names: &[Name],
) -> Result<(), AllocError>
    ensures { OnOk result (pending todo.new.items
        ≡ tasks_of clears level folder.now names.now ++ pending todo.old.items) }
{
    let mut left = names.len();
    while left > 0 {
        left -= 1;
        let name = &names[left];
        let path = join(alloc, folder, name.name.as_str())?;
        todo.push(task_at(clears, level, path, name.kind))?;
    }
    Ok(())
}

/// Pushes the removal of the folder onto the stack, if a clearing leaves a folder that isn't the top one.
#[tactic(auto, using(crate::proofs::Walks::pending_push))]
fn push_leaving(
    todo: &mut Vec<Task>,
    clears: bool,
    level: u8,
    folder: &Text,
) -> Result<(), AllocError>
    ensures { OnOk result (pending todo.new.items
        ≡ leaving clears level folder.now ++ pending todo.old.items) }
{
    if clears && level != 0 {
        let path = folder.clone()?;
        todo.push(Task::Make(Visit::RemoveFolder(path)))?;
    }
    Ok(())
}

impl Walk {
    /// Adds the tasks of a folder's names. They come before the tasks that are already there.
    fn enter_names(
        &mut self,
        alloc: Global,
        folder: Text,
        level: u8,
        names: Listing,
    ) -> errors::Result<Option<Visit>>
        ensures { GoesOn self.old self.new result
            (λ w todo. entered_of w folder level todo names) }
    {
        let count = names.as_slice().len() as u64;
        if count > self.left {
            self.end_too_deep(alloc)?;
            return Ok(None);
        }
        self.left -= count;
        push_leaving(&mut self.todo, self.clears, level, &folder)?;
        push_tasks(
            alloc,
            &mut self.todo,
            self.clears,
            level,
            folder.as_str(),
            names.as_slice(),
        )?;
        self.walk_on(alloc)
    }

    /// Goes on after a folder was to be listed.
    pub(crate) fn after_listing(
        &mut self,
        alloc: Global,
        folder: Text,
        level: u8,
        names: Result<Listing, Refusal>,
    ) -> errors::Result<Option<Visit>>
        ensures { GoesOn self.old self.new result
            (λ w todo. go_on names (miss_of w (walk_on_of todo)) (entered_of w folder level todo)) }
    {
        match names {
            Ok(names) => self.enter_names(alloc, folder, level, names),
            Err(refusal) => {
                let message = if self.clears && level == 0 {
                    messages::clearing_folder(alloc, &self.top)
                } else {
                    self.message(alloc, &folder)
                };
                self.after_refusal(alloc, refusal, message)
            }
        }
    }
}
