//! What a cache lies on: real folders, or a disk in memory.
pub use cacache_disk::memory::MemStore;
pub use cacache_disk::{Disk, Luck, TreeItem, TreeNode};
pub use cacache_folder::{
    FolderFile, FolderStore, FolderTemp, SystemFile, SystemStore, SystemTemp,
};
pub use cacache_store::store::{
    Answer, FileHandle, Kind, Listing, LogItem, Name, OpenedFile, PlainAnswer, PlainFile,
    PlainStep, PlainTemp, Step, Store, TempFile, TempHandle,
};
