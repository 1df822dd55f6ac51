//! What a loss of power takes.
ghost use Rattle.std.specs.{Prelude.{◌≡◌, [], IfOk, unwrap_or}, BTreeMap.{get}, BTreeSet.{contains}, List.{list_any}};
ghost use Rattle.cacache_core.specs.Paths.{names_of};
ghost use Rattle.cacache_disk.specs.Tree.{Names, names_cmp};
ghost use Rattle.cacache_loss.specs.{Fixing.{is_at}, Running.{tail_at, chosen, loss_of}};

use crate::reached::named;
use cacache_core::bytes::Bytes;
use cacache_core::text::Text;
use cacache_disk::Path;
use std::alloc::{AllocError, Global};
use std::collections::{BTreeMap, BTreeSet};

/// What a loss of power takes. A text that names no path is ignored.
#[derive(Debug, Drop)]
pub struct Loss {
    /// The paths whose names are as they were when their folders were synced.
    pub undone: Vec<Text>,
    /// What follows the fixed bytes of the file at a path, if it isn't fixed whole. The first tail
    /// for a path counts.
    pub tails: Vec<(Text, Bytes)>,
}

/// A loss with the names of its paths.
#[derive(Drop)]
pub(crate) struct Taken {
    pub(crate) undone: BTreeSet<Path>,
    pub(crate) tails: BTreeMap<Path, Bytes>,
}

/// The paths that texts name.
fn undone_paths(alloc: Global, texts: &[Text]) -> Result<BTreeSet<Path>, AllocError>
    ensures { IfOk result (λ paths. (q : Names) → contains names_cmp paths q
        ≡ list_any (λ text. is_at (names_of text) q) texts.now) }
{
    let mut paths = BTreeSet::new(alloc);
    for i in 0..texts.len() {
        let Some(path) = named(alloc, texts[i].as_str())? else {
            continue;
        };
        paths.insert(path)?;
    }
    Ok(paths)
}

/// The first tail of each path that a text names.
fn tail_paths(alloc: Global, files: &[(Text, Bytes)]) -> Result<BTreeMap<Path, Bytes>, AllocError>
    ensures { IfOk result (λ tails. (q : Names)
        → unwrap_or (get names_cmp tails q) [] ≡ tail_at files.now q) }
{
    let mut tails = BTreeMap::new(alloc);
    for i in 0..files.len() {
        let file = &files[i];
        let Some(path) = named(alloc, file.0.as_str())? else {
            continue;
        };
        if tails.contains_key(&path) {
            continue;
        }
        tails.insert(path, file.1.share()?)?;
    }
    Ok(tails)
}

/// A loss with the names of its paths.
pub(crate) fn read_loss(alloc: Global, loss: &Loss) -> Result<Taken, AllocError>
    ensures { IfOk result (λ taken.
        loss_of taken ≡ chosen loss.now.undone.items loss.now.tails.items) }
{
    let undone = undone_paths(alloc, loss.undone.as_slice())?;
    let tails = tail_paths(alloc, loss.tails.as_slice())?;
    Ok(Taken { undone, tails })
}
