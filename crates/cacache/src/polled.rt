//! Calls as futures, and writes that a worker does: the core that says which work is out, polled files and their
//! workers.
pub use cacache_async::{Call, CallFuture};
pub use cacache_polled::{Completion, Finish, Polled, Request, Work, WriterCore};
pub use cacache_writers::{
    CopyFuture, PollWrite, PolledFile, RemovableTemp, Turned, Worker, Workers, WriteAllFuture,
};
