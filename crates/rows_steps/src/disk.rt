//! Rows on disks and stores in memory. Each has five columns with bars between them:
//!
//!     BEFORE | LUCK | STEP | ANSWER | AFTER
//!
//! A row holds if its step is answered so under this luck, and leaves this.
mod columns;
mod handles;
mod lucks;
mod place;
pub(crate) mod scene;
mod shown;
mod steps;
mod tree;
mod words;
