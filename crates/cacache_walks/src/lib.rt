//! Walks through folders. A clearing removes everything that it finds, a listing reads each bucket, and a third walk
//! finds the contents below their folder.
//!
//! - `bucket`: the items that a bucket lists: each of its keys once, if the key's lookup finds an entry
//! - `contents`: the call that lists the contents
//! - `deciding`: which entries of a bucket decide the lookups of its keys
//! - `entering`: the names in a folder that a walk enters, and the tasks that they add
//! - `iterator`: a listing that walks on demand
//! - `listing`: the call that lists the index
//! - `messages`: the texts of a walk's errors when a step failed
//! - `walk`: a walk, which makes one visit after another
#![tactic(auto)]

mod bucket;
mod contents;
mod deciding;
mod entering;
mod iterator;
mod listing;
mod messages;
mod walk;

pub use contents::{Contents, contents_laws, list};
pub use iterator::Ls;
pub use listing::ls;
pub use walk::Walk;
