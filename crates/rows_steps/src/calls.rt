//! Rows on calls, step by step. Each has four columns with bars between them:
//!
//!     CALL | ANSWERS | STEPS | REPLY
//!
//! The call is made on a store that gives these answers one by one. A row holds if the call replies so, and these
//! steps are those of the store's log, followed by the one that memory was refused to. A store can't give an answer
//! that doesn't fit its step, and this one lists no folder; such rows are tried on the job alone.
mod commands;
mod fitting;
mod replies;
mod row;
mod script;
mod steps;
mod told;
pub(crate) mod trial;
pub(crate) mod words;
