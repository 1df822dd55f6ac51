//! A store over a system in memory.
use crate::steps::shown;
use crate::texts::bytes_of;
use cacache_core::keeping::{beside, let_go};
use cacache_core::text::Text;
use cacache_folder::SystemStore;
use cacache_store::store::{Step, Store};
use cacache_system_model::memory::{MemorySystem, make_and_append};
use std::alloc::{AllocError, Global};

/// The folder that is made.
const FOLDER: &str = "/cache/index";

/// The file that the line is appended to.
const FILE: &str = "/cache/index/bucket";

/// Appends a line to the file in a folder that is made.
fn append(
    alloc: Global,
    store: &mut SystemStore<MemorySystem>,
    line: &str,
) -> Result<(), AllocError> {
    let line = bytes_of(alloc, line)?;
    let (folder, line) = beside(Text::from_str(alloc, FOLDER), line)?;
    let (path, (folder, line)) = beside(Text::from_str(alloc, FILE), (folder, line))?;
    let_go(make_and_append(store, folder, path, line));
    Ok(())
}

/// The answer to a read of the file.
fn read(alloc: Global, store: &mut SystemStore<MemorySystem>) -> Result<String, AllocError> {
    let path = Text::from_str(alloc, FILE)?;
    let answer = store.step(Step::ReadAll(path));
    let shown = shown(alloc, &answer);
    let_go(answer);
    shown
}

/// Appends a line to a file in a new store, and shows the answer to a read of it.
pub(crate) fn appended(alloc: Global, line: &str) -> Result<String, AllocError> {
    let mut store = SystemStore::over(MemorySystem::new(alloc)?);
    let read = match append(alloc, &mut store, line) {
        Ok(()) => read(alloc, &mut store),
        Err(error) => Err(error),
    };
    let_go(store);
    read
}
