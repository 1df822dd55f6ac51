//! Where a step may change something.
ghost use Rattle.std.specs.{Prelude.{◌≡◌, IfOk, []}, Result.{result_ok}};
ghost use Rattle.cacache_core.specs.Paths.{names_of};
ghost use Rattle.cacache_disk.specs.LedTo.{writable};
ghost use Rattle.cacache_loss.specs.Reached.{listed, fronts, reached};

use cacache_disk::{Disk, Path, Stop};
use cacache_store::store::{PlainFile, PlainTemp, Step};
use std::alloc::{AllocError, Global};

/// The path that a text names, if it names one.
pub(crate) fn named(alloc: Global, text: &str) -> Result<Option<Path>, AllocError>
    ensures { IfOk result (λ path. path ≡ result_ok (names_of text.now)) }
{
    match Path::of(alloc, text) {
        Ok(path) => Ok(Some(path)),
        Err(Stop::Fault(_)) => Ok(None),
        Err(Stop::OutOfMemory) => Err(AllocError),
    }
}

/// The path of the file that may be written at a text's path, if one may.
fn writable(disk: &Disk, text: &str) -> Result<Option<Path>, AllocError>
    ensures { IfOk result (λ path. path ≡ result_ok (writable disk.now text.now)) }
{
    match disk.writable(text) {
        Ok(path) => Ok(Some(path)),
        Err(Stop::Fault(_)) => Ok(None),
        Err(Stop::OutOfMemory) => Err(AllocError),
    }
}

/// At most two paths.
fn listed(alloc: Global, first: Option<Path>, second: Option<Path>) -> Result<Vec<Path>, AllocError>
    ensures { IfOk result (λ paths. paths.items ≡ listed first second) }
{
    let mut paths = Vec::new(alloc);
    if let Some(path) = first {
        paths.push(path)?;
    }
    if let Some(path) = second {
        paths.push(path)?;
    }
    Ok(paths)
}

/// The path and those above it except the top, from there down.
fn fronts(alloc: Global, path: &Path) -> Result<Vec<Path>, AllocError>
    ensures { IfOk result (λ paths. paths.items ≡ fronts [] path.now) }
{
    let mut paths = Vec::new(alloc);
    for i in 0..path.len() {
        paths.push(path.front(alloc, i + 1)?)?;
    }
    Ok(paths)
}

/// The paths at which a step may change something.
pub(crate) fn reached(
    alloc: Global,
    disk: &Disk,
    step: &Step<PlainFile, PlainTemp>,
) -> Result<Vec<Path>, AllocError>
    ensures { IfOk result (λ paths. paths.items ≡ reached disk.now step.now) }
{
    match step {
        Step::MakeDirs(path) => match named(alloc, path.as_str())? {
            Some(path) => fronts(alloc, &path),
            None => Ok(Vec::new(alloc)),
        },
        Step::Persist(temp, to) => {
            let to = named(alloc, to.as_str())?;
            listed(alloc, named(alloc, temp.path.as_str())?, to)
        }
        Step::Write(temp, _) => listed(alloc, named(alloc, temp.path.as_str())?, None),
        Step::Append(path, _) | Step::Copy(_, path) => {
            listed(alloc, writable(disk, path.as_str())?, None)
        }
        Step::CreateTemp(path)
        | Step::Symlink(_, path)
        | Step::Reflink(_, path)
        | Step::HardLink(_, path)
        | Step::RemoveFile(path)
        | Step::RemoveDir(path) => listed(alloc, named(alloc, path.as_str())?, None),
        Step::ReadAll(_)
        | Step::Open(_)
        | Step::Read(_, _)
        | Step::Exists(_)
        | Step::Size(_)
        | Step::ReadDir(_)
        | Step::SyncTemp(_)
        | Step::SyncFile(_)
        | Step::SyncDir(_) => Ok(Vec::new(alloc)),
    }
}
