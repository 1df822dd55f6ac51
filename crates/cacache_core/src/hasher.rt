//! Hashers that take their input in pieces.
pub use crate::integrity::hasher::{Finished, Hasher};
