//! Whether two commands, or two replies, are equal member by member, JSON values by their compact
//! texts.
//!
//! The module `send` says which values may go to another thread, and which threads may share.
#![tactic(auto)]

mod commands;
mod json;
mod replies;
pub mod send;

pub use commands::same_command;
pub use replies::same_reply;
