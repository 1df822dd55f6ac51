//! The system calls that a store of real folders makes: one method a call, with a log of them.
#![tactic(auto)]

mod call;
mod held;
mod host;
mod open_folders;
mod system;

pub use call::{CallItem, CallResult, FileInfo, SystemCall};
pub use host::{Host, random_bits};
pub use system::System;
