//! Calls that write: bytes and links into a cache, and entries into its index.

pub mod bytes;
pub mod index;
mod link_opts;
pub mod linker;
pub mod linkto;
pub mod opts;
mod rest;
pub mod writer;
