//! Tries rows on core, base and entry. Each row has an act, its input and the expected result:
//!
//!     ACT GIVEN | .. | WANTED
//!
//! A row holds if the act returns that result. The rows of a group that hold are counted. Every other row is printed with its
//! expected and its actual result.

mod acts;
mod entries;
mod errors;
mod integrities;
mod keys;
mod lines;
mod lookups;
mod parts;
mod paths;
mod shared;
mod words;

use acts::Acts;
use std::io;

/// Tries rows, prints how they went, and returns whether all of them hold.
pub fn all_hold(rt: &(impl Print + AllocGlobal), rows: &str) -> io::Result<bool> {
    rows::all_hold(rt, rows, &mut Acts { alloc: rt.alloc() })
}
