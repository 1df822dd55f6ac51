//! Open handles on contents: bytes in pieces, in constant memory.

pub(crate) mod draining;
pub(crate) mod filling;
pub mod reader;
pub mod writer;
