//! The outside files, which links may lead to.
ghost use Rattle.std.specs.Prelude.{◌≡◌, Ok, IfOk, IfErr, OnOk};
ghost use Rattle.cacache_core.specs.Paths.{home_of};
ghost use Rattle.cacache_disk.specs.{Apply.{planted as planted_tree}, Tree.{bare}};
ghost use Rattle.cacache_value.specs.{Kinds.{Elsewhere, IsFor}, Placed.{with_files, LieApart}};
ghost use Rattle.cacache_world.specs.{Faults.{CantPlace, CantOpen}, WorldKept.{LiesApart, FilesAreApart}};

use crate::event::WorldFault;
use crate::names::may_take;
use cacache_core::bytes::Bytes;
use cacache_core::text::Text;
use cacache_disk::Disk;
use std::alloc::Global;

/// Puts one more outside file on the disk.
fn plant(
    alloc: Global,
    disk: &mut Disk,
    cache: &str,
    before: &[(Text, Bytes)],
    file: &(Text, Bytes),
) -> Result<(), WorldFault>
    ensures apart { OnOk result (IsFor (home_of cache.now) Elsewhere file.now.0) }
    ensures free { OnOk result (LiesApart cache.now before.now file.now.0) }
    ensures planted { OnOk result
        (planted_tree disk.old file.now.0 file.now.1 ≡ Ok disk.new) }
    ensures why { IfErr result (λ fault. CantPlace cache.now before.now disk.old file.now fault) }
{
    match may_take(alloc, cache, before, file.0.as_str()) {
        Ok(true) => {}
        Ok(false) => return Err(WorldFault::BadCommand),
        Err(_) => return Err(WorldFault::OutOfMemory),
    }
    match disk.plant(file.0.as_str(), &file.1) {
        Ok(Ok(())) => Ok(()),
        Ok(Err(_)) => Err(WorldFault::BadCommand),
        Err(_) => Err(WorldFault::OutOfMemory),
    }
}

/// A disk with nothing but outside files.
pub(crate) fn plant_all(
    alloc: Global,
    cache: &str,
    outside: &[(Text, Bytes)],
) -> Result<Disk, WorldFault>
    ensures apart { OnOk result (LieApart (home_of cache.now) outside.now) }
    ensures each { OnOk result (FilesAreApart cache.now outside.now) }
    ensures opens { IfOk result (λ disk. with_files bare outside.now ≡ Ok disk) }
    ensures why { IfErr result (λ fault. CantOpen cache.now outside.now fault) }
{
    let Ok(disk) = Disk::new(alloc) else {
        return Err(WorldFault::OutOfMemory);
    };
    let mut disk = disk;
    for i in 0..outside.len() {
        match plant(alloc, &mut disk, cache, &outside[..i], &outside[i]) {
            Ok(()) => {}
            Err(fault) => return Err(fault),
        }
    }
    Ok(disk)
}
