//! Integrities, which identify bytes, and the algorithms that compute their digests.
mod algorithm;
mod builder;
mod checker;
pub(crate) mod digest;
pub(crate) mod hasher;
mod reading;
mod whole;

pub use algorithm::Algorithm;
pub use builder::IntegrityOpts;
pub use checker::IntegrityChecker;
pub use whole::Integrity;
