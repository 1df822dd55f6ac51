//! Contents that are written by polls: a temporary file, the worker that does its work, and a commit that makes it the
//! content.
//!
//! - `about`: what the caller says about a content that is written by polls
//! - `commit`: what the commit of a polled writer does with the core and the temporary file, which are lent to it
//! - `committing`: the commit of a polled writer as a future
//! - `copying`: readers that are copied by polls
//! - `creating`: futures that open polled writers
//! - `file`: a temporary file that is written by polls
//! - `kept`: what lies under the lock of a polled file
//! - `laws`: laws of a polled file that one worker alone writes, and of a whole write
//! - `opening`: how polled writers are opened
//! - `removal`: temporary files that are removed without a store
//! - `shared`: what a polled file and its workers share
//! - `work`: work that is done with a temporary file
//! - `worker`: the worker of a polled file
//! - `workers`: threads that do the work of many polled writers
//! - `writer`: contents that are written by polls
//! - `writing`: bytes that are written by polls, piece by piece
#![tactic(auto)]

mod about;
mod commit;
mod committing;
mod copying;
mod creating;
mod file;
mod kept;
mod laws;
mod opening;
mod removal;
mod shared;
mod work;
mod worker;
mod workers;
mod writer;
mod writing;

pub use about::About;
pub use commit::commit_held;
pub use committing::{AsyncWriterCloseFuture, WriterCommitFuture};
pub use copying::CopyFuture;
pub use creating::{
    AsyncWriterNewFuture, OpenAsync, WriteOptsOpenFuture, WriteOptsOpenHashFuture,
    WriterCreateFuture, WriterCreateWithAlgoFuture, WriterOpenCall,
};
pub use file::PolledFile;
pub use kept::{Kept, Told};
pub use laws::{file_laws, write_laws};
pub use removal::RemovableTemp;
pub use shared::Shared;
pub use worker::{Turned, Worker};
pub use workers::Workers;
pub use writer::Writer;
pub use writing::{PollWrite, WriteAllFuture};
