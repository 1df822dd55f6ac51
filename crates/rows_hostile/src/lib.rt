//! Plays a script of six calls on a world in memory, with each way in which one of its steps may go otherwise. Each
//! run is compared event by event with a slow, plain model of what the definitions say. Each row has two columns:
//!
//!     KIND | RESULT
//!
//! The script has three callers: one puts `one`, the next looks it up, the third puts `two` under the same key and reads it, the
//! second removes it fully, and the first lists. A run has one change: `fail` a step that fails, at each move; `take` a write or
//! an append that takes a part, of each size; `part` an append that fails and leaves a part, of each size; `folders` folders of
//! which some are made, and then none; `stop` a caller that stops, after each move. The result says how many runs there were,
//! how many moves and replies they had, and how many of these were failures. `memory` is the plain script, in which one growth of
//! memory may be refused: `rt try --fail-alloc` refuses each in turn.
//!
//! `puts` are two puts of one key, with moves that meet. `reader`, `writer` and `linker` are handles over a store
//! that fails one read or write: which one, and how many there are before the end. `whole` is a writer that gets all
//! bytes at once, and `abandons` one that is given up if a write fails, also if its file `stays`.
//!
//! The model uses only the words for luck and faults from the cache's own code. What a key's bucket, a content's
//! place and a line are is written out, as other tools say it.
#![tactic(auto)]

mod changes;
mod disk;
mod facts;
mod handles;
mod looking;
mod meeting;
mod model;
mod putting;
mod replies;
mod script;
mod side;
mod tally;
mod texts;
mod trial;
mod value;
mod walking;

use std::io;
use trial::Scripts;

/// Tries rows, prints how they went, and says whether each of them holds. One that differs counts here as one that
/// holds, so that the status differs from that of a row for which the program itself had no memory. The gate compares
/// what is printed.
pub fn all_hold(rt: &(impl Print + AllocGlobal), rows: &str) -> io::Result<bool> {
    let mut scripts = Scripts::new(rt.alloc());
    let all_hold = rows::all_hold(rt, rows, &mut scripts)?;
    Ok(all_hold || scripts.differs)
}
