//! What a call works with: a store, a clock and a source of numbers for temporary files.
mod in_memory;
mod on_folders;
mod reasons;

pub use cacache_folder::{ProcessNames, SystemClock};
pub use cacache_store::env::{Clock, CountNames, Env, Names};
pub use in_memory::{Memory, MemoryLinker, MemoryReader, MemoryWriter, memory};
pub use on_folders::{
    FolderLinker, FolderPolledWriter, FolderReader, FolderWriter, Folders, another, folders,
};
pub use reasons::Reasons;
