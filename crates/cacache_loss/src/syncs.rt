//! What a sync fixes.
ghost use Rattle.std.specs.{Prelude.{◌≡◌, OnOk, [], None, true, unwrap_or, if◌then◌else◌}, BTreeMap.{get}};
ghost use Rattle.cacache_core.specs.Paths.{names_of};
ghost use Rattle.cacache_disk.specs.{LedTo.{leads}, Tree.{Tree, Names, names_cmp, look, bytes_of}};
ghost use Rattle.cacache_loss.specs.{Fixing.{is_at, is_child_of, is_sync, is_synced, synced, fixed_after}, Running.{FixesFiles, fixed_in}};

use crate::effect::fix;
use crate::fixing::{Fixing, Place};
use crate::reached::named;
use cacache_disk::{Disk, Path, Stop};
use cacache_store::store::{Answer, PlainFile, PlainTemp, Step};
use std::alloc::{AllocError, Global};
use std::collections::BTreeMap;

/// Whether a step is a sync.
pub(crate) fn is_sync(step: &Step<PlainFile, PlainTemp>) -> bool
    ensures { result ≡ is_sync step.now }
{
    matches!(
        step,
        Step::SyncTemp(_) | Step::SyncFile(_) | Step::SyncDir(_)
    )
}

/// Whether a sync was done.
fn is_synced(answer: &Answer<PlainFile, PlainTemp>) -> bool
    ensures { result ≡ is_synced answer.now }
{
    matches!(answer, Answer::Done | Answer::Synced(_))
}

/// Fixes the bytes of a temporary file.
fn temp_synced(
    alloc: Global,
    temp: &PlainTemp,
    files: &mut BTreeMap<Path, Fixing>,
) -> Result<(), AllocError>
    ensures { OnOk result (FixesFiles files.old files.new
        (is_at (names_of temp.now.path)) (λ _. synced (unwrap_or temp.now.bytes []))) }
{
    if let Some(path) = named(alloc, temp.path.as_str())? {
        let kept = match &temp.bytes {
            Some(bytes) => bytes.len(),
            None => 0,
        };
        return fix(files, path, Fixing { kept, whole: true });
    }
    Ok(())
}

/// Fixes the bytes of the file that a path leads to.
fn file_synced(
    disk: &Disk,
    path: &str,
    files: &mut BTreeMap<Path, Fixing>,
) -> Result<(), AllocError>
    ensures { OnOk result (FixesFiles files.old files.new
        (is_at (leads disk.now path.now)) (λ q. synced (bytes_of (look disk.now q)))) }
{
    match disk.leads(path) {
        Ok((end, node)) => {
            let fixing = Fixing::synced(node);
            fix(files, end, fixing)
        }
        Err(Stop::Fault(_)) => Ok(()),
        Err(Stop::OutOfMemory) => Err(AllocError),
    }
}

/// Fixes the names in a folder.
fn folder_synced(
    alloc: Global,
    path: &str,
    names: &mut BTreeMap<Path, Place>,
) -> Result<(), AllocError>
    ensures { OnOk result ((q : Names) → get names_cmp names.new q
        ≡ if is_child_of (names_of path.now) q then None else get names_cmp names.old q) }
{
    let Some(folder) = named(alloc, path)? else {
        return Ok(());
    };
    names.retain(|name, _| !name.is_in(&folder));
    Ok(())
}

/// Fixes what a sync with this answer fixes.
pub(crate) fn synced(
    alloc: Global,
    disk: &Disk,
    step: &Step<PlainFile, PlainTemp>,
    answer: &Answer<PlainFile, PlainTemp>,
    files: &mut BTreeMap<Path, Fixing>,
    names: &mut BTreeMap<Path, Place>,
) -> Result<(), AllocError>
    requires { is_sync step.now ≡ true }
    ensures { OnOk result ((first new : Tree) → fixed_in first files.new names.new
        ≡ fixed_after (fixed_in first files.old names.old) disk.now new step.now answer.now) }
{
    if !is_synced(answer) {
        return Ok(());
    }
    match step {
        Step::SyncTemp(temp) => temp_synced(alloc, temp, files),
        Step::SyncFile(path) => file_synced(disk, path.as_str(), files),
        Step::SyncDir(path) => folder_synced(alloc, path.as_str(), names),
        _ => Ok(()),
    }
}
