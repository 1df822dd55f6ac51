//! A system in memory that keeps a log of its calls.

mod calls;
mod files;
mod handles;
mod laws;
mod log;
mod opening;
mod runs;
mod state;
mod system;
mod tree;

pub use laws::model_laws;
pub use runs::make_and_append;
pub use state::MemoryFile;
pub use system::MemorySystem;
