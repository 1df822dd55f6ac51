//! The log of a store.
use crate::store::{PlainAnswer, PlainStep};
use cacache_core::bytes::Bytes;
use cacache_core::text::Text;

/// One item of a store's log.
#[derive(Debug, Drop, PartialEq)]
pub enum LogItem {
    /// A step and its answer.
    Made(PlainStep, PlainAnswer),
    /// Somebody else put a file with these bytes at the path.
    Foreign(Text, Bytes),
    /// Somebody else made the folders of the path.
    ForeignFolder(Text),
}
