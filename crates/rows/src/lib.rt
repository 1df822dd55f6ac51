//! Reads and tries rows of text, one per line. A library of rows has a `Trial`, which returns the expected and the actual
//! result of a row, and a function that passes it to `all_hold`. If its rows send its runtime to threads, it has its own loop
//! over a `Report` instead.
#![tactic(auto)]

pub mod answers;
mod flaw;
mod names;
pub mod parts;
pub mod random;
mod report;
mod tally;
mod trial;
pub mod words;

pub use flaw::Flaw;
pub use report::{Line, Report, all_hold};
pub use trial::{Outcome, Trial};
