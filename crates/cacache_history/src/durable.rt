//! What the durable commits of a history leave after a loss of power: a definition and its law. No
//! function here does anything.

mod laws;

pub use laws::durable_laws;
