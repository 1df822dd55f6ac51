//! A disk in memory as a store, with the log of all that happened on it.

mod store;

pub use store::MemStore;
