//! What a polled writer's core is asked, what it answers, and what it keeps.
use cacache_core::bytes::Bytes;
use cacache_core::errors::Fault;
use cacache_core::integrity::Integrity;

/// What a worker is to do with the temporary file.
#[derive(Debug, Drop)]
pub enum Work {
    /// Writes these bytes, or a beginning of them.
    Write(Bytes),
    /// Hands on what is buffered.
    Flush,
    /// Removes the file.
    Remove,
}

/// Whether work is out.
#[derive(Debug, Drop)]
pub enum State {
    /// No work is out.
    Idle,
    /// This work is out.
    Busy(Work),
    /// No work comes any more.
    Closed,
}

/// A write that is finished and not answered yet: its bytes, and how many of them were taken.
#[derive(Debug, Drop)]
pub struct Finished {
    pub(crate) bytes: Bytes,
    pub(crate) outcome: Result<usize, Fault>,
}

/// All of a core except its bytes.
#[derive(Debug, Drop)]
pub struct Desk {
    pub(crate) state: State,
    pub(crate) finished: Option<Finished>,
    /// A finished flush's result.
    pub(crate) flushed: Option<Result<(), Fault>>,
    /// The worker is gone.
    pub(crate) is_gone: bool,
    /// Why the file wasn't removed.
    pub(crate) kept: Option<Fault>,
}

/// What a core is asked.
#[derive(Clone, Copy)]
pub enum Request<'a> {
    /// To write these bytes, or a beginning of them.
    Write(&'a [u8]),
    /// To hand on what is buffered.
    Flush,
    /// To remove the file and take no more work.
    Close,
}

/// What it answers.
#[derive(Debug, Drop)]
pub enum Polled {
    /// Ready: so many bytes were taken.
    Wrote(usize),
    /// Ready: flushed or closed.
    Done,
    /// Ready, with a fault.
    Failed(Fault),
    /// Pending: work is out.
    Pending,
    /// Pending: this work is out from now on.
    Start(Work),
}

/// What a worker says about its work.
#[derive(Clone, Copy, Debug, PartialEq, Eq)]
pub enum Completion {
    /// So many bytes of the write were taken.
    Wrote(usize),
    /// The work failed; no bytes of a write were taken.
    Failed(Fault),
    /// What was buffered was handed on.
    Flushed,
    /// The file is removed.
    Removed,
    /// The work isn't done, and no worker comes any more.
    Gone,
}

/// What a commit finds before its first step.
#[derive(Debug, Drop)]
pub enum Finish {
    /// Work is out.
    Busy,
    /// The core was closed before.
    Closed,
    /// The core was closed before, since its worker is gone.
    Cancelled,
    /// A write that wasn't answered failed so.
    Failed(Fault),
    /// The integrity and the count of the held bytes.
    Held(Integrity, u64),
}
