//! Folders that are removed if they are empty.
ghost use Rattle.std.specs.Prelude.{◌≡◌, IfOk};
ghost use Rattle.cacache_keep.specs.{Emptying.{Empties, EmptiesBoth}, Rewriting.{folder_of as folder_of_path}};

use crate::rewriting::folder_of;
use cacache_calls::answers::done_of;
use cacache_core::text::Text;
use cacache_store::store::{Step, Store};
use std::alloc::{AllocError, Global};

/// The folder of a path, and the one above it.
#[derive(Drop)]
pub(crate) struct Folders {
    lower: Text,
    upper: Text,
}

/// The folder of the path, and the one above it.
pub(crate) fn folders_of(alloc: Global, path: &Text) -> Result<Folders, AllocError>
    ensures lower { IfOk result (λ f. f.lower ≡ folder_of_path path.now) }
    ensures upper { IfOk result (λ f. f.upper ≡ folder_of_path (folder_of_path path.now)) }
{
    let lower = folder_of(alloc, path)?;
    let upper = folder_of(alloc, &lower)?;
    Ok(Folders { lower, upper })
}

/// Removes the folder if it is empty, and says whether it is removed.
fn remove_empty<S: Store>(store: &mut S, folder: Text) -> bool
    ensures { Empties folder result (S.log store.old) (S.log store.new) }
{
    match done_of(store.step(Step::RemoveDir(folder))) {
        Ok(()) => true,
        Err(_) => false,
    }
}

/// Removes the lower folder if it is empty, and then the upper one if that is. What fails there leaves them.
pub(crate) fn remove_folders<S: Store>(store: &mut S, folders: Folders)
    ensures { EmptiesBoth folders.lower folders.upper (S.log store.old) (S.log store.new) }
{
    let Folders { lower, upper } = folders;
    if remove_empty(store, lower) {
        let _is_gone = remove_empty(store, upper);
    }
}
