//! What is in a folder.
ghost use Rattle.std.specs.{Prelude.{◌≡◌, ◌<◌, ◌==◌, ◌++◌, ◌∷◌, ◌^◌, ◌-◌, ℕ, List, [], true, false, IfOk, OnOk, length}, List.{position}};
ghost use Rattle.cacache_store.specs.Plain.{AreProperNames};
ghost use Rattle.cacache_store.specs.declared.store.step.Step.TheVariants as steps;
ghost use Rattle.cacache_store.specs.declared.store.answer.Answer.TheVariants as answers;
ghost use Rattle.cacache_system.specs.Seen.{with_slash};
ghost use Rattle.cacache_system.specs.CallsOf as calls;
ghost use Rattle.cacache_system.specs.AnswersOf as table;
ghost use Rattle.cacache_folder.specs.{StepClauses.{ValueRuns}, Listings.{ListsNames, CutsName, ReadsNames, ReadsAllNames, OpensFolder, OpensPath, ListsFolder}};

use crate::folder::again::ask_for_names;
use crate::folder::entries::{Looked, add};
use crate::folder::paths::is_absent;
use crate::folder::runner::Runner;
use cacache_store::store::{Listing, Name};
use cacache_system::System;
use std::alloc::{AllocError, Global};
use std::io;
use std::io::ErrorKind;

/// How many bytes of names one read asks for. There is room for any name.
const NAMES: usize = 4096;

/// The most bytes after a folder's path: a `/` and the longest of the system's names.
const BEHIND: usize = 256;

/// Where the first NUL is.
fn nul_in(names: &[u8]) -> Option<usize>
    ensures { result ≡ position (λ b. b == 0) names.now }
{
    names.iter().position(|byte| *byte == 0)
}

/// The first of some names, each of which is ended by a NUL, and those after it.
fn first_name(names: &[u8]) -> (&[u8], &[u8])
    requires { 0 < length names.now }
    ensures shorter { length result.1.now < length names.now }
    ensures cut { CutsName names.now result.0.now result.1.now }
{
    match nul_in(names) {
        Some(at) => (&names[..at], &names[at + 1..]),
        None => (names, &names[names.len()..]),
    }
}

/// The path of the folder with a `/` after it, so that the system follows a link there. There is room for any name.
fn folder_path(alloc: Global, path: &str) -> Result<String, AllocError>
    ensures { IfOk result (λ folder. folder.bytes.items ≡ with_slash path.now) }
{
    let mut folder = String::with_capacity(alloc, path.len().saturating_add(BEHIND))?;
    folder.push_str(path)?;
    if !path.ends_with('/') {
        folder.push('/')?;
    }
    Ok(folder)
}

/// Adds what is under some names, each of which is ended by a NUL.
fn add_all<Y: System + AllocGlobal>(
    system: &mut Y,
    names: &mut Vec<Name>,
    folder: &mut Vec<u8>,
    read: &[u8],
) -> Looked<()>
    ensures proper { OnOk result
        (AreProperNames names.old.items → AreProperNames names.new.items) }
    ensures same { OnOk result (folder.new.items ≡ folder.old.items) }
    ensures ran { ListsNames folder.old.items read.now names.old.items
        names.new.items result (Y.calls system.old) (Y.calls system.new) }
{
    let mut rest = read;
    'names: while !rest.is_empty() {
        let (name, later) = first_name(rest);
        match add(system, names, folder, name) {
            Ok(()) => {}
            Err(why) => return Err(why),
        }
        rest = later;
    }
    Ok(())
}

/// The error of a listing that broke off. An open folder isn't missing, even if the system says so: whoever hears
/// that takes it for one without names.
fn broken_off(why: ErrorKind) -> ErrorKind
    ensures { result ≡ calls.broken_off why }
{
    match why {
        ErrorKind::NotFound => ErrorKind::StaleNetworkFileHandle,
        _ => why,
    }
}

/// Adds what is under the names of one read of an open folder, and returns whether it gave any. The folder's path
/// ends in a `/`.
fn add_some<Y: System + AllocGlobal>(
    system: &mut Y,
    names: &mut Vec<Name>,
    open: &mut Y::Folder,
    folder: &mut Vec<u8>,
    buf: &mut [u8],
) -> Looked<bool>
    requires { length buf.old ≡ 4096 }
    ensures proper { OnOk result
        (AreProperNames names.old.items → AreProperNames names.new.items) }
    ensures same { OnOk result (folder.new.items ≡ folder.old.items) }
    ensures number { Y.folder_number open.new ≡ Y.folder_number open.old }
    ensures room { length buf.new ≡ 4096 }
    ensures ran { ReadsNames (Y.folder_number open.old) folder.old.items names.old.items
        names.new.items result (Y.calls system.old) (Y.calls system.new) }
{
    match ask_for_names(system, open, buf) {
        Ok(count) => if count == 0 {
            Ok(false)
        } else {
            match add_all(system, names, folder, &buf[..count]) {
                Ok(()) => Ok(true),
                Err(why) => Err(why),
            }
        },
        Err(error) => Err(broken_off(error.kind())),
    }
}

/// Adds what is under the names that an open folder gives; the folder's path ends in a `/`.
fn fill<Y: System + AllocGlobal>(
    system: &mut Y,
    names: &mut Vec<Name>,
    open: &mut Y::Folder,
    folder: &mut Vec<u8>,
) -> Looked<()>
    ensures proper { OnOk result
        (AreProperNames names.old.items → AreProperNames names.new.items) }
    ensures ran { ReadsAllNames (Y.folder_number open.old) folder.old.items names.old.items
        (λ _. names.new.items) result (Y.calls system.old) (Y.calls system.new) }
{
    let mut buf = [0; NAMES];
    let mut left = u64::MAX;
    while left != 0 {
        left -= 1;
        match add_some(system, names, open, folder, &mut buf) {
            Ok(true) => {}
            Ok(false) => return Ok(()),
            Err(why) => return Err(why),
        }
    }
    Err(ErrorKind::FileTooLarge)
}

/// The names that an open folder gives; the folder's path ends in a `/`.
fn names_from<Y: System + AllocGlobal>(
    system: &mut Y,
    opened: Y::Folder,
    folder: String,
) -> Looked<Vec<Name>>
    ensures proper { IfOk result (λ names. AreProperNames names.items) }
    ensures ran { ReadsAllNames (Y.folder_number opened) folder.bytes.items []
        (λ names. names.items) result (Y.calls system.old) (Y.calls system.new) }
{
    let mut open = opened;
    let mut folder = folder.into_bytes();
    let mut names = Vec::new(system.alloc());
    match fill(system, &mut names, &mut open, &mut folder) {
        Ok(()) => Ok(names),
        Err(why) => Err(why),
    }
}

/// Whether what is there isn't a folder, or is a link.
fn is_no_folder(kind: ErrorKind) -> bool
    ensures { result ≡ calls.is_no_folder kind }
{
    matches!(kind, ErrorKind::NotADirectory | ErrorKind::FilesystemLoop)
}

/// Opens a folder to which a link may lead; one that leads to nothing is none. `folder` is its path with a `/` after
/// it.
fn open_led<Y: System>(system: &mut Y, folder: &str) -> Looked<Y::Folder>
    ensures { (path : List ℕ) → folder.now ≡ with_slash path
        → OpensFolder Y.folder_number (calls.following path) path result
        (Y.calls system.old) (Y.calls system.new) }
{
    match system.open_folder(folder) {
        Ok(opened) => Ok(opened),
        Err(error) => if is_absent(error.kind()) {
            Err(ErrorKind::NotADirectory)
        } else {
            Err(error.kind())
        },
    }
}

/// Opens a folder. A link is followed, but below the folder at which a walk began the system refuses that. `folder` is
/// the path with a `/` after it.
fn open_folder<Y: System>(system: &mut Y, path: &str, folder: &str) -> Looked<Y::Folder>
    ensures { OpensPath Y.folder_number path.now folder.now result
        (Y.calls system.old) (Y.calls system.new) }
{
    match system.open_folder(path) {
        Ok(opened) => Ok(opened),
        Err(error) => if is_no_folder(error.kind()) {
            open_led(system, folder)
        } else {
            Err(error.kind())
        },
    }
}

/// The names in the folder.
fn names_in<Y: System + AllocGlobal>(system: &mut Y, path: &str) -> Looked<Vec<Name>>
    ensures proper { IfOk result (λ names. AreProperNames names.items) }
    ensures ran { ListsFolder (table.list path.now) (λ names. names.items) result
        (Y.calls system.old) (Y.calls system.new) }
{
    if path.is_empty() {
        return Err(ErrorKind::NotFound);
    }
    match folder_path(system.alloc(), path) {
        Ok(folder) => match open_folder(system, path, folder.as_str()) {
            Ok(opened) => names_from(system, opened, folder),
            Err(why) => Err(why),
        },
        Err(_) => Err(ErrorKind::OutOfMemory),
    }
}

impl<Y: System + AllocGlobal + Clone + Drop> Runner<Y> {
    /// What is in the folder, in the system's order. A name that isn't UTF-8 is listed as an escaped one. What was
    /// removed meanwhile is left out; the kind of everything else is needed.
    pub(crate) fn read_dir(&mut self, path: &str) -> io::Result<Listing>
        ensures proper { IfOk result (λ listing. AreProperNames listing) }
        ensures kept { self.new.reason ≡ self.old.reason }
        ensures ran { ValueRuns (steps.ReadDir path.now) (λ listing. answers.Names listing) result
            (Y.calls self.old.system) (Y.calls self.new.system) }
    {
        match names_in(&mut self.system, path) {
            Ok(names) => Ok(Listing::new(names)),
            Err(why) => Err(io::Error::from(why)),
        }
    }
}
