//! A walk that keeps the files and links below a folder.
ghost use Rattle.std.specs.Prelude.{◌≡◌, ◌≢◌, ◌++◌, ◌<◌, [], List, IfOk, OnOk, IfErr, Some};
ghost use Rattle.cacache_core.specs.declared.errors.Fault.TheVariants.{NotFound};
ghost use Rattle.cacache_store.specs.{declared.store.answer.Answer.TheVariants.{Failed}, Plain.{PlainAnswer}};
ghost use Rattle.cacache_walks.specs.{Reading.{Folder, IsErrorOf, file_paths}, Listing.{ShowsBelow, StopsAt, StopsBelow}, WalkStates.{AnswerShows, AnsweredBy, GoesOnBy, WalkStands, StopsIn, StopsVisit, steps_left}};

use crate::walk::Walk;
use cacache_calls::answers::names_of;
use cacache_calls::{Refusal, Visit};
use cacache_core::errors::{Error, Fault, Result};
use cacache_core::paths::join;
use cacache_core::text::Text;
use cacache_store::store::{
    Answer, Kind, Listing, Name, PlainFile, PlainTemp, Step, Store, failed,
};
use std::alloc::{AllocError, Global};

/// The error for a fault of the walk.
fn failure(alloc: Global, fault: Fault, top: &str) -> Error
    ensures { IsErrorOf (Failed fault) result }
{
    failed(fault, message(alloc, top))
}

fn message(alloc: Global, top: &str) -> std::result::Result<Text, AllocError> {
    Ok(Text::new(format!(in alloc; "Error while walking cache contents at {top}")?))
}

/// The names in a folder that couldn't be read. A missing folder has none; any other fault is an
/// error.
fn unread(alloc: Global, fault: Fault, top: &str) -> Result<Listing>
    ensures missing { IfOk result (λ names. (fault ≡ NotFound) × (names ≡ [])) }
    ensures fails { IfErr result (λ e. (fault ≢ NotFound) × IsErrorOf (Failed fault) e) }
{
    match fault {
        Fault::NotFound => Ok(Listing::new(Vec::new(alloc))),
        _ => Err(failure(alloc, fault, top)),
    }
}

/// The names in a folder. A missing folder has none.
fn names_in<S: Store>(store: &mut S, alloc: Global, top: &str, folder: &Text) -> Result<Listing>
    ensures shows { IfOk result (λ names. (t : PlainAnswer)
        × AnswerShows t names folder.now (S.log store.old) (S.log store.new)) }
    ensures stops { IfErr result
        (λ e. StopsIn folder.now e (S.log store.old) (S.log store.new)) }
{
    let path = folder.clone()?;
    match names_of(store.step(Step::ReadDir(path))) {
        Ok(names) => Ok(names),
        Err(Refusal::Fault(fault)) => unread(alloc, fault, top),
        Err(Refusal::Memory) => Err(Error::OutOfMemory),
    }
}

/// Adds the paths of a folder's files and links.
fn push_files(
    alloc: Global,
    files: &mut Vec<Text>,
    folder: &str,
    names: &[Name],
) -> std::result::Result<(), AllocError>
    ensures { OnOk result (files.new.items ≡ files.old.items ++ file_paths folder.now names.now) }
{
    for name in names {
        match name.kind {
            Kind::Folder => {}
            Kind::File | Kind::Link => files.push(join(alloc, folder, name.name.as_str())?)?,
        }
    }
    Ok(())
}

/// The answer to a visit. The files that it shows are added. A visit to a file takes no step: it
/// counts as a missing bucket, which lists nothing.
fn answer_visit<S: Store>(
    store: &mut S,
    alloc: Global,
    top: &str,
    files: &mut Vec<Text>,
    visit: &Visit,
) -> Result<Answer<PlainFile, PlainTemp>>
    ensures answers { IfOk result (λ answer. AnsweredBy visit.now answer
        (S.log store.old) (S.log store.new) files.old.items files.new.items) }
    ensures stops { IfErr result
        (λ e. StopsVisit visit.now e (S.log store.old) (S.log store.new)) }
{
    match visit {
        Visit::Enter(folder, _) => {
            let names = names_in(store, alloc, top, folder)?;
            push_files(alloc, files, folder.as_str(), names.as_slice())?;
            Ok(Answer::Names(names))
        }
        _ => Ok(Answer::Failed(Fault::NotFound)),
    }
}

/// Makes a visit of the walk and goes on to the next one.
fn make<S: Store>(
    store: &mut S,
    alloc: Global,
    top: &str,
    walk: &mut Walk,
    files: &mut Vec<Text>,
    visit: Visit,
) -> Result<Option<Visit>>
    ensures goes { IfOk result (λ next. GoesOnBy visit walk.old next walk.new
        (S.log store.old) (S.log store.new) files.old.items files.new.items) }
    ensures smaller { IfOk result (λ next. (fs : List Folder) → WalkStands (Some visit) walk.old fs
        → steps_left next walk.new < steps_left (Some visit) walk.old) }
    ensures stops { IfErr result (λ e. (fs : List Folder) → WalkStands (Some visit) walk.old fs
        → StopsAt walk.old.left fs e (S.log store.old) (S.log store.new)) }
{
    let answer = answer_visit(store, alloc, top, files, &visit)?;
    // This walk reads no bucket, so `TooDeep` is its only item, and out of memory is its only
    // error.
    let Ok(next) = walk.resume(alloc, visit, answer) else {
        return Err(Error::OutOfMemory);
    };
    if !walk.items.is_empty() {
        return Err(failure(alloc, Fault::TooDeep, top));
    }
    Ok(next)
}

/// The paths of all files and links below a folder, as far as a store shows them.
pub(crate) fn files_below<S: Store>(store: &mut S, alloc: Global, top: &str) -> Result<Vec<Text>>
    ensures reads { IfOk result
        (λ files. ShowsBelow top.now files.items (S.log store.old) (S.log store.new)) }
    ensures stops { IfErr result
        (λ e. StopsBelow top.now e (S.log store.old) (S.log store.new)) }
{
    let (mut walk, visit) = Walk::new(alloc, false, Text::from_str(alloc, top)?)?;
    let mut files = Vec::new(alloc);
    let mut next = Some(visit);
    'visits: while let Some(visit) = next {
        next = make(store, alloc, top, &mut walk, &mut files, visit)?;
    }
    Ok(files)
}
