//! Texts that a call takes and answers.
pub use cacache_core::text::Text;
