//! What bytes are known by: integrities, and the algorithms that compute their digests.
pub use cacache_core::integrity::{Algorithm, Integrity, IntegrityChecker, IntegrityOpts};
