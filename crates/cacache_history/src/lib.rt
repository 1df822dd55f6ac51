//! Calls of many callers on one cache, step by step: which histories are legal, and what holds of each. No function here
//! does anything.
//!
//! | In `specs` | |
//! |---|---|
//! | `Setup`, `History`, `Turns` | the cache and its callers, their moves, and which moves are legal |
//! | `Values`, `ShownTurns`, `Buckets`, `ListingTurns` | what the cache held at each place, and what a turn saw of it |
//! | `Commits`, `AddedEntries`, `LinkedContents`, `TurnPlaces` | what a commit did, and what an entry in a bucket goes back to |
//! | `Places`, `Lookups` | which call each move is of, and what a lookup finds at each place, by what was written |
//! | `TurnReplies`, `ReadingCalls` | what a turn's call answers, and which calls only look |
//! | `Headline`, `LegalCases` | the claim as a whole, and a legal history of each kind |
//!
//! The module `durable` says what the durable commits of a history leave after a loss of power.
#![tactic(auto)]

pub mod durable;
mod laws;
mod record;

pub use laws::{digest_laws, history_laws, legal_cases};
pub use record::Record;
