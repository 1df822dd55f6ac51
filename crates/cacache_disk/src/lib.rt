//! A disk in memory: a tree of folders, files and links, and the steps of a store on it.
//!
//! The module `memory` has such a disk as a store, with a log of all that happened on it.
#![tactic(auto)]

mod change;
mod contents;
mod disk;
mod find;
mod luck;
pub mod memory;
mod name;
mod node;
mod nodes;
mod path;
mod plant;
mod steps;
mod stop;
mod walk;

pub use contents::Contents;
pub use disk::Disk;
pub use luck::Luck;
pub use node::Node;
pub use nodes::Nodes;
pub use nodes::standing::{TreeItem, TreeNode};
pub use path::Path;
pub use stop::Stop;
