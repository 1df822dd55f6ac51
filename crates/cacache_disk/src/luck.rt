//! How a step turns out.
use cacache_core::errors::Fault;

/// How a step that would succeed turns out. A step that fails on its own does so under any luck.
#[derive(Clone, Copy, Debug, PartialEq, Eq)]
pub enum Luck {
    /// It succeeds, and all of its bytes are taken.
    Plain,
    /// It fails with this fault. `NotFound` is never made up: `Device` is used in its place. Given
    /// a number, it leaves that many of its bytes or folders done, if the step is an `Append`, a
    /// `Copy` or a `MakeDirs`.
    Fail(Fault, Option<usize>),
    /// An `Append` or a `Write` takes at most so many bytes, and a `Read` gives at most so many,
    /// but at least one if it can. Other steps succeed.
    Take(usize),
}
