//! The entries of the index: the line of an entry, and how a bucket's bytes are read and searched for a key.
#![tactic(auto)]

mod laws;
mod limits;
mod metadata;
mod parse;
mod parts;
mod printing;
mod read;
mod search;
mod write;
mod written;

pub use laws::{bucket_laws, entry_laws, lookup_laws};
pub use limits::is_whole;
pub use metadata::{Metadata, SerializableMetadata};
pub use read::entries;
pub use search::{Lookup, answer_of_entry, latest};
pub use write::line;
