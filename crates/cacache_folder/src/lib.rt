//! Real folders as a store, the system's clock, and numbers for temporary names.
#![tactic(auto)]

mod clock;
mod folder;
mod names;

pub use clock::SystemClock;
pub use folder::{FolderFile, FolderStore, FolderTemp, SystemFile, SystemStore, SystemTemp};
pub use names::ProcessNames;
