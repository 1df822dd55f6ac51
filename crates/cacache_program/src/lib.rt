//! What the programs do with their words and their streams, over any store: here `cacache`, which has a file for each
//! of its words, and in `keep` the program `cacache-keep`.
//!
//! - `about`: what a program says about itself
//! - `clearing`: the word `clear`
//! - `copying`: the word `copy`
//! - `counts`: counts as they are printed
//! - `entries`: entries as they are printed
//! - `errors`: what goes to the errors
//! - `existing`: the word `exists`
//! - `finding`: the word `find`
//! - `further`: the words that the usage doesn't list
//! - `keep`: what the program `cacache-keep` does with its words and its streams
//! - `lines`: the lines of a listing
//! - `listing`: the word `ls`
//! - `output`: what goes to the output
//! - `program`: what the program does with its words
//! - `reading`: the word `read`
//! - `reading_hash`: the word `read-hash`
//! - `removing`: the word `remove`
//! - `storing`: the word `store`
//! - `storming`: the word `storm`
//! - `why`: why a call failed, if the words ask for it
//! - `words`: the words of a command line
//! - `writing`: the word `write`
//! - `writing_hash`: the word `write-hash`
#![tactic(auto)]

mod about;
mod clearing;
mod copying;
mod counts;
mod entries;
mod errors;
mod existing;
mod finding;
mod further;
pub mod keep;
mod lines;
mod listing;
mod output;
mod program;
mod reading;
mod reading_hash;
mod removing;
mod storing;
mod storming;
mod why;
mod words;
mod writing;
mod writing_hash;

pub use about::{About, HELP, USAGE, VERSION, said, tell};
pub use errors::{Errors, tell_failed_call, tell_misuse};
pub use program::run;
pub use storming::tell_failed_storm;
pub use why::{Why, asks_why, why_of};
pub use words::{without_words, words_of};
