//! The changes of the script that a row asks for.
use crate::script::Change;
use cacache_core::errors::Fault;
use cacache_disk::Luck;
use cacache_store::store::{PlainStep, Step};
use cacache_world::Record;
use rows::Flaw;
use std::alloc::{AllocError, Global};

/// What a move of the script makes, as far as its changes ask.
#[derive(Clone, Copy, PartialEq, Eq)]
enum Site {
    /// Folders.
    Folders,
    /// A write of so many bytes.
    Write(usize),
    /// An append of so many bytes.
    Append(usize),
    Other,
}

/// More folders than a step of the script makes.
const FOLDERS: usize = 4;

/// What a step makes.
fn site_of(step: &PlainStep) -> Site {
    match step {
        Step::MakeDirs(_) => Site::Folders,
        Step::Write(_, bytes) => Site::Write(bytes.len()),
        Step::Append(_, bytes) => Site::Append(bytes.len()),
        _ => Site::Other,
    }
}

/// What each move of a history makes.
fn sites_of(alloc: Global, history: &[Record]) -> Result<Vec<Site>, AllocError> {
    let mut sites = Vec::new(alloc);
    for record in history {
        if let Record::Moved(_, _, Some((step, _)), _) = record {
            sites.push(site_of(step))?;
        }
    }
    Ok(sites)
}

/// The most that is tried in part at a site, if a kind of change is for it.
fn most(kind: &str, site: Site) -> Option<usize> {
    match (kind, site) {
        ("take", Site::Write(count) | Site::Append(count)) => Some(count),
        ("part", Site::Append(count)) => Some(count),
        ("folders", Site::Folders) => Some(FOLDERS),
        ("fail" | "stop", _) => Some(0),
        _ => None,
    }
}

/// A change of this kind, with this part.
fn change(kind: &str, number: usize, part: usize) -> Change {
    match kind {
        "take" => Change::Luck(number, Luck::Take(part)),
        "part" | "folders" => Change::Luck(number, Luck::Fail(Fault::Device, Some(part))),
        "fail" => Change::Luck(number, Luck::Fail(Fault::Device, None)),
        _ => Change::Stop(number),
    }
}

/// Adds the changes of a site.
fn add(changes: &mut Vec<Change>, kind: &str, number: usize, site: Site) -> Result<(), AllocError> {
    let Some(most) = most(kind, site) else {
        return Ok(());
    };
    for part in 0..most.saturating_add(1) {
        changes.push(change(kind, number, part))?;
    }
    Ok(())
}

/// The changes of this kind, one at each move of the history of a plain run that they are for.
fn changes_at(alloc: Global, kind: &str, history: &[Record]) -> Result<Vec<Change>, AllocError> {
    let sites = sites_of(alloc, history)?;
    let mut changes = Vec::new(alloc);
    let mut number: usize = 0;
    for site in &sites {
        add(&mut changes, kind, number, *site)?;
        number = number.saturating_add(1);
    }
    Ok(changes)
}

/// No change, once.
fn unchanged(alloc: Global) -> Result<Vec<Change>, AllocError> {
    let mut changes = Vec::new(alloc);
    changes.push(Change::Nothing)?;
    Ok(changes)
}

/// The changes that a word asks for.
pub(crate) fn changes(alloc: Global, kind: &str, history: &[Record]) -> Result<Vec<Change>, Flaw> {
    match kind {
        "plain" => Ok(unchanged(alloc)?),
        "fail" | "take" | "part" | "folders" | "stop" => Ok(changes_at(alloc, kind, history)?),
        _ => Err(Flaw::NotRead),
    }
}
