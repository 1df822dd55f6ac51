//! What the results of calls mean to their caller, on a store in memory: a caller calls one of these functions after
//! a call, with what it was handed and what it answered. They do nothing. Their contracts take the call's clause
//! `ran`, and say what the call left and answered in words of keys and contents.

mod changes;
mod composed;
mod handles;
mod joins;
mod linkers;
mod listing;
mod looks;
mod losses;
mod outside;

pub use changes::{
    after_clear, after_insert, after_remove, after_remove_fully, after_remove_hash, after_write,
    after_write_hash,
};
pub use composed::{after_export, after_get_or_put, layered_laws};
pub use handles::writer_laws;
pub use joins::joining_laws;
pub use linkers::linker_laws;
pub use listing::after_list;
pub use looks::{after_exists, after_find, after_read, after_read_hash};
pub use losses::{after_read_left, after_write_left, durable_cases, link_losses, loss_results};
pub use outside::{after_copy, after_link, after_link_hash, after_share};
