//! Tries rows on the program `cacache-keep`, each on a disk in memory and on real folders. Each row has
//! three columns with bars between them:
//!
//!     ACT | INPUT | RESULT
//!
//! An act is a call with its cache and its key or integrity; or the words of the program; or what somebody else does: `plant`
//! makes the file at a path anew with the input, `link` puts a link to a target in its place, each with the folders above it,
//! `folder` makes a folder, and `held` tells what the file at a path holds.
//! `sized` writes the input where so many bytes are expected, and `write_each` the digits of each number below another one, under
//! themselves. The result of the program is its status, its output and its errors.
//! Behind `stuck` and a kind of step (`remove`, `exists`, `size`, `list`, `open`, `append`, `read`, `piece`, `later_piece`, `make`,
//! `create`, `write`, `persist`, `sync_temp`, `sync_file`, `sync_dir`) an act is made over a store where these steps fail.
//! `later_piece` is each read of a piece but the first.
//! `changed` and a time in milliseconds, or `gone`, before an act make it over a store each of whose files changed then.
//! `collect_with CACHE` takes options: `grace=MILLISECONDS`, `keep=INTEGRITY`, `durable`, `anyway`.
//! `asked` before an act tells how often the clock was asked, and how many numbers. `at` and a moment sets the clock, and
//! `numbered` and a number the next one. After `in memory` an act is made there alone.
//!
//! A row holds if the act with this input gives this result at both places. The rows of a group that hold are counted, and
//! each other row is printed with what was wanted and what came.
#![tactic(auto)]

mod acts;
mod dated;
mod places;
mod shown;
mod stuck;

use places::Places;
use std::io;

/// Tries rows, prints how they went, and returns whether each of them holds.
pub fn all_hold(rt: &HostRuntime, rows: &str) -> io::Result<bool> {
    let mut places = Places::new(rt)?;
    rows::all_hold(rt, rows, &mut places)
}
