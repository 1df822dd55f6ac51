//! All that a disk holds, as the model says it.
use cacache_core::keeping::let_go;
use cacache_core::text::Text;
use cacache_disk::{Disk, Luck};
use cacache_store::store::{Answer, Kind, Listing, Name, Step};
use rows::words::word_of;
use std::alloc::{AllocError, Global};

/// How deep folders are looked into.
const DEPTH: usize = 10;

/// A place in a folder.
#[derive(Drop)]
struct Place {
    path: String,
    is_folder: bool,
}

/// The place of a name in a folder.
fn place_of(alloc: Global, folder: &str, name: &Name) -> Result<Place, AllocError> {
    let path = format!(in alloc; "{folder}/{}", name.name.as_str())?;
    let is_folder = name.kind == Kind::Folder;
    Ok(Place { path, is_folder })
}

/// The places of a listing.
fn places_in(alloc: Global, folder: &str, listing: &Listing) -> Result<Vec<Place>, AllocError> {
    let mut places = Vec::new(alloc);
    for name in listing.as_slice() {
        places.push(place_of(alloc, folder, name)?)?;
    }
    Ok(places)
}

/// The places in a folder; none if it can't be listed.
fn inside(alloc: Global, disk: &mut Disk, folder: &str) -> Result<Vec<Place>, AllocError> {
    let path = if folder.is_empty() { "/" } else { folder };
    let step = Step::ReadDir(Text::from_str(alloc, path)?);
    let applied = disk.apply(&step, Luck::Plain);
    let_go(step);
    let answer = applied?;
    let inside = match &answer {
        Answer::Names(listing) => places_in(alloc, folder, listing),
        _ => Ok(Vec::new(alloc)),
    };
    let_go(answer);
    inside
}

/// A file with its bytes. Nothing here makes a link.
fn file(alloc: Global, disk: &Disk, path: &str) -> Result<String, AllocError> {
    let Some(bytes) = disk.shared(path)? else {
        return format!(in alloc; "{path}?");
    };
    let text = if bytes.is_empty() {
        ""
    } else {
        word_of(bytes.as_slice())
    };
    format!(in alloc; "{path}={text}")
}

/// Adds a place: a folder's path with a `/` at its end, or a file with its bytes.
fn add(
    alloc: Global,
    disk: &Disk,
    place: &Place,
    places: &mut Vec<String>,
) -> Result<(), AllocError> {
    let path = place.path.as_str();
    let text = if place.is_folder {
        format!(in alloc; "{path}/")?
    } else {
        file(alloc, disk, path)?
    };
    Ok(places.push(text)?)
}

/// Adds all that is below a folder.
fn add_below(
    alloc: Global,
    disk: &mut Disk,
    folder: &str,
    depth: usize,
    places: &mut Vec<String>,
) -> Result<(), AllocError> {
    if depth == 0 {
        return Ok(());
    }
    let inside = inside(alloc, disk, folder)?;
    for place in &inside {
        add(alloc, disk, place, places)?;
        if place.is_folder {
            add_below(alloc, disk, place.path.as_str(), depth - 1, places)?;
        }
    }
    Ok(())
}

/// All that is below the top folder of a disk: a folder's path with a `/` at its end, a file's with its bytes.
pub(crate) fn places_of(alloc: Global, disk: &Disk) -> Result<Vec<String>, AllocError> {
    let mut copy = disk.clone()?;
    let mut places = Vec::new(alloc);
    add_below(alloc, &mut copy, "", DEPTH, &mut places)?;
    Ok(places)
}
