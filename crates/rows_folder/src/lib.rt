//! Rows on real folders as a store, on the system's clock, on the numbers of a process, and on a store
//! over a system in memory. The head of `folder.rows` says what they are.
#![tactic(auto)]

mod devices;
mod environment;
mod held;
mod made_up;
mod memory;
mod place;
mod root;
mod steps;
mod texts;
mod trial;
mod watched;
mod watched_file;
mod ways;

use std::io;
use trial::Folders;

/// Tries rows, prints how they went, and returns whether each of them holds.
pub fn all_hold(rt: &HostRuntime, rows: &str) -> io::Result<bool> {
    let mut folders = Folders::new(*rt);
    rows::all_hold(rt, rows, &mut folders)
}
