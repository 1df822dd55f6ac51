//! What a call answers if it fails.
pub use cacache_core::errors::{
    Error, Fault, IntegrityFault, IoErrorExt, Quoting, Result, SerdeCause, io_error,
};
pub use cacache_sync::is_damage;
