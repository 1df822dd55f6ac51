//! What a world's own loss leaves, against the model's.
use crate::losses::history::{HOME, bytes_of};
use crate::losses::loss::Loss;
use crate::losses::places::Places;
use cacache_core::bytes::Bytes;
use cacache_core::keeping::{beside, let_go};
use cacache_core::text::Text;
use cacache_disk::Disk;
use cacache_world::World;
use std::alloc::AllocError;

/// The paths of the places with names that are as they were before.
fn undone_of(places: &Places, loss: &Loss) -> Result<Vec<Text>, AllocError> {
    let mut undone = Vec::new(places.alloc);
    for (number, place) in places.all.iter().enumerate() {
        if loss.is_undone(number) {
            undone.push(place.path.clone()?)?;
        }
    }
    Ok(undone)
}

/// A path, and what follows the fixed bytes of the file there.
fn tail_of(places: &Places, path: &Text, tail: &str) -> Result<(Text, Bytes), AllocError> {
    let path = path.clone()?;
    let (tail, path) = beside(bytes_of(places.alloc, tail), path)?;
    Ok((path, tail))
}

/// What follows the fixed bytes of the files, by path.
fn tails_of(places: &Places, loss: &Loss) -> Result<Vec<(Text, Bytes)>, AllocError> {
    let mut tails = Vec::new(places.alloc);
    for (number, place) in places.all.iter().enumerate() {
        tails.push(tail_of(places, &place.path, loss.tail(number))?)?;
    }
    Ok(tails)
}

/// The loss as a world takes it, by the paths of the places.
fn told(places: &Places, loss: &Loss) -> Result<cacache_loss::Loss, AllocError> {
    let undone = undone_of(places, loss)?;
    let (tails, undone) = beside(tails_of(places, loss), undone)?;
    Ok(cacache_loss::Loss { undone, tails })
}

/// The disk that a loss leaves of a world.
pub(crate) fn disk_after(world: &World, places: &Places, loss: &Loss) -> Result<Disk, AllocError> {
    let told = told(places, loss)?;
    match world.lose(&told) {
        Ok(disk) => Ok(disk),
        Err(_) => Err(AllocError),
    }
}

/// Whether this is the file that the model has at a path after a loss.
fn is_same(
    places: &Places,
    loss: &Loss,
    path: &str,
    left: Option<&[u8]>,
) -> Result<bool, AllocError> {
    let ours = places.lost(loss, HOME, path)?;
    Ok(ours.as_ref().map(|bytes| bytes.as_slice()) == left)
}

/// The first path at which a disk has another file than the model after a loss, if there is one.
fn differing<'a>(
    disk: &Disk,
    places: &'a Places,
    loss: &Loss,
) -> Result<Option<&'a str>, AllocError> {
    for place in &places.all {
        let path = place.path.as_str();
        let left = disk.shared(path)?.map(|bytes| bytes.as_slice());
        if !is_same(places, loss, path, left)? {
            return Ok(Some(path));
        }
    }
    Ok(None)
}

/// The first path at which a world's loss leaves another file than the model's, if there is one.
pub(crate) fn differs(
    world: &World,
    places: &Places,
    loss: &Loss,
) -> Result<Option<String>, AllocError> {
    let disk = disk_after(world, places, loss)?;
    let path = differing(&disk, places, loss);
    let_go(disk);
    match path? {
        Some(path) => Ok(Some(format!(in places.alloc; "the world leaves another {path}")?)),
        None => Ok(None),
    }
}
