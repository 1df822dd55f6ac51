//! Why a row can't be tried.
use std::alloc::AllocError;
use std::fmt::{self, Display, Formatter, Write};

/// Why a row can't be tried.
#[derive(Clone, Copy)]
pub enum Flaw {
    /// It doesn't have the syntax of a row.
    NotRead,
    /// Something in it doesn't fit its position, such as an answer that no step needs.
    Unfit,
    /// There was no memory for its texts.
    NoMemory,
    /// There was no memory for what it tries.
    Refused,
    /// The system refused the folder in which rows are tried.
    FolderRefused,
    /// A step was made, but no answer is left for it.
    NoAnswerLeft,
    /// There was no memory for a step, and nothing changed.
    RefusedAndKept,
    /// There was no memory for a step, but something changed.
    RefusedAndChanged,
    /// A call made as a future logged something other than the call itself.
    OtherLog,
    /// A future that had already answered was polled again, and didn't report that it is closed.
    NotClosed,
}

impl Display for Flaw {
    fn fmt<W: Write>(&self, f: &mut Formatter<W>) -> fmt::Result {
        f.write_str(match self {
            Flaw::NotRead => "not read",
            Flaw::Unfit => "something in it doesn't fit where it stands",
            Flaw::NoMemory => "no memory to read it",
            Flaw::Refused => "memory was refused",
            Flaw::FolderRefused => "the system refused the folder that is tried",
            Flaw::NoAnswerLeft => "a step that no answer is left for",
            Flaw::RefusedAndKept => "memory was refused, and nothing changed",
            Flaw::RefusedAndChanged => "memory was refused, but something changed",
            Flaw::OtherLog => "the future logs something else",
            Flaw::NotClosed => "the second poll isn't closed",
        })
    }
}

impl From<AllocError> for Flaw {
    fn from(_error: AllocError) -> Flaw {
        Flaw::NoMemory
    }
}
