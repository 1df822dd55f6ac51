//! Named futures: each makes, in its first poll, the call that is named after it with `_sync`. Contents and targets
//! of links that are read by polls. And the future of a call, `CallFuture`, on which all of them are built.
//!
//! - `call`: calls with their arguments
//! - `exports`: futures of the exports: of the content that a key names, and of that of an integrity
//! - `future`: the future of a call
//! - `index`: futures of the calls on the index
//! - `linker`: links that are made after their target is read by polls
//! - `linking`: futures that open the target of a link
//! - `linkto`: futures of the calls that make a content of a link to a file
//! - `put`: futures of the calls that store bytes
//! - `read`: futures of the calls that read contents at once, and of the question whether one is there
//! - `reader`: open contents that are read by polls
//! - `rm`: futures of the calls that remove
//! - `ways`: futures of exports that go the cheapest way that is open
#![tactic(auto)]

mod call;
pub mod exports;
mod future;
pub mod index;
pub mod linker;
pub mod linking;
pub mod linkto;
pub mod put;
pub mod read;
pub mod reader;
pub mod rm;
pub mod ways;

pub use call::Call;
pub use future::{CallFuture, polling};
