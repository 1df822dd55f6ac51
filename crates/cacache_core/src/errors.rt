//! Why calls fail.
ghost use Rattle.std.specs.{Prelude.{◌≡◌, Some}, declared.io.ErrorKind.{ErrorKind}};
ghost use Rattle.cacache_core.specs.{Errors.{fault_of, fault_in, kind_of, kind_in, fault_text}, declared.errors.Error.TheVariants.{OutOfMemory, IntegrityError}};

mod context;
mod quoting;
mod texts;

use crate::integrity::Integrity;
use crate::text::Text;
pub use context::{IoErrorExt, io_error};
pub use quoting::Quoting;
use std::alloc::{AllocError, AllocFailed};
use std::fmt;
use std::io::ErrorKind;

/// Why a step of a store failed.
#[derive(Clone, Copy, Debug, PartialEq, Eq)]
pub enum Fault {
    /// There is nothing at the path, or a folder on the way is missing.
    NotFound,
    /// There is already something at the path of the new file, folder or link.
    AlreadyExists,
    /// There is a file or a link, but a folder was needed.
    NotADirectory,
    /// There is a folder, but a file was needed.
    IsADirectory,
    /// A folder that was to be removed isn't empty.
    NotEmpty,
    /// The store can't do this kind of step: real folders make no reflinks.
    Unsupported,
    /// The path can't name anything, because it has a name `..` or a NUL.
    InvalidInput,
    /// A write wrote none of the bytes.
    WriteZero,
    /// An append wrote only a part of its line.
    ShortAppend,
    /// The future or the writer had already ended.
    Closed,
    /// A polled write was passed other bytes than the write under way.
    OtherBytes,
    /// The worker of a polled writer is gone.
    Cancelled,
    /// Too many links were followed, or a folder is nested too deeply.
    TooDeep,
    /// Any other failure of the device or the system.
    Device,
}

impl From<ErrorKind> for Fault {
    ghost from_gives = { λ kind fault. fault ≡ fault_of kind };

    fn from(kind: ErrorKind) -> Fault {
        match kind {
            ErrorKind::NotFound => Fault::NotFound,
            ErrorKind::AlreadyExists => Fault::AlreadyExists,
            ErrorKind::NotADirectory => Fault::NotADirectory,
            ErrorKind::IsADirectory => Fault::IsADirectory,
            ErrorKind::DirectoryNotEmpty => Fault::NotEmpty,
            ErrorKind::Unsupported => Fault::Unsupported,
            ErrorKind::InvalidInput => Fault::InvalidInput,
            ErrorKind::WriteZero => Fault::WriteZero,
            ErrorKind::FilesystemLoop => Fault::TooDeep,
            _ => Fault::Device,
        }
    }
}

impl Fault {
    /// A few plain words for the fault, such as `not found`.
    fn words(self) -> &'static str
        ensures { result.now ≡ fault_text self }
    {
        match self {
            Fault::NotFound => "not found",
            Fault::AlreadyExists => "already there",
            Fault::NotADirectory => "not a folder",
            Fault::IsADirectory => "a folder",
            Fault::NotEmpty => "folder not empty",
            Fault::Unsupported => "not supported",
            Fault::InvalidInput => "not a valid path",
            Fault::WriteZero => "nothing was written",
            Fault::ShortAppend => "only a part was appended",
            Fault::Closed => "already closed",
            Fault::OtherBytes => "other bytes than those under way",
            Fault::Cancelled => "cancelled",
            Fault::TooDeep => "too deep or too many links",
            Fault::Device => "device or system error",
        }
    }

    /// The kind of I/O error that has this fault: `WriteZero` for a short append, `InvalidInput` for other
    /// bytes, and `Other` for a device, a close and a cancel. If the fault is `Device`,
    /// `cacache::env::Reasons` of the store gives the system's own kind. Allocates nothing.
    #[tactic(auto, using(crate::proofs::FaultKinds::kind_back))]
    pub fn kind(self) -> ErrorKind
        ensures value { result ≡ kind_of self }
        ensures back { (kind : ErrorKind) → fault_of kind ≡ self → fault_of result ≡ self }
    {
        match self {
            Fault::NotFound => ErrorKind::NotFound,
            Fault::AlreadyExists => ErrorKind::AlreadyExists,
            Fault::NotADirectory => ErrorKind::NotADirectory,
            Fault::IsADirectory => ErrorKind::IsADirectory,
            Fault::NotEmpty => ErrorKind::DirectoryNotEmpty,
            Fault::Unsupported => ErrorKind::Unsupported,
            Fault::InvalidInput | Fault::OtherBytes => ErrorKind::InvalidInput,
            Fault::WriteZero | Fault::ShortAppend => ErrorKind::WriteZero,
            Fault::TooDeep => ErrorKind::FilesystemLoop,
            Fault::Closed | Fault::Cancelled | Fault::Device => ErrorKind::Other,
        }
    }
}

/// A few plain words in lower case, without a full stop, such as `not found` or `folder not empty`.
/// Allocates nothing.
impl fmt::Display for Fault {
    ghost output = { λ fault. Some (fault_text fault) };

    fn fmt<W: fmt::Write>(&self, f: &mut fmt::Formatter<W>) -> fmt::Result {
        f.write_str(self.words())
    }
}

/// Why an entry can't be written.
#[derive(Clone, Copy, Debug, PartialEq, Eq)]
pub enum SerdeCause {
    /// Its time is 2^64 milliseconds or more.
    TimeTooLarge,
    /// A number of its metadata isn't an integer that fits in 64 bits.
    NotWhole,
    /// Its text would nest deeper than 127 levels, including its own object.
    TooDeep,
}

/// Why an integrity was refused.
#[derive(Debug, Drop)]
pub enum IntegrityFault {
    /// The text has no hash, or its first wrong hash is malformed.
    BadText,
    /// The first wrong hash of the text is well-formed, but its digest is shorter than three bytes.
    ShortDigest,
    /// The bytes don't meet the expected integrity, which is the first. The second is that of the
    /// bytes.
    Check(Integrity, Integrity),
}

/// Why a call failed. Its text `{}` says which step failed, and where. `fault` returns why, which that
/// text omits. The text `{:#}` is for one line: it begins with why, and shows at most 34 bytes of an integrity.
#[derive(Debug, Drop)]
pub enum Error {
    /// The cache and the key. Looking up the key returned None.
    EntryNotFound(Text, Text),
    /// The expected size and the actual size, in bytes.
    SizeMismatch(usize, usize),
    /// A step of the call failed. The text says which one.
    IoError(Fault, Text),
    /// The entry can't be written. The text says which one.
    SerdeError(SerdeCause, Text),
    /// A text isn't an integrity, or bytes don't meet one.
    IntegrityError(IntegrityFault),
    /// The call ran out of memory.
    OutOfMemory,
}

impl Error {
    /// The fault that made a step fail: that of an `IoError`. None for every other error. Allocates
    /// nothing.
    pub fn fault(&self) -> Option<Fault>
        ensures { result ≡ fault_in self.now }
    {
        match self {
            Error::IoError(fault, _) => Some(*fault),
            _ => None,
        }
    }

    /// The kind of I/O error that says the same: `NotFound` for a missing entry, that of the fault for an
    /// `IoError`, `InvalidData` for a wrong size or other bytes than the integrity's, `InvalidInput` for an
    /// entry that can't be written or a text that is no integrity, and `OutOfMemory`. Allocates nothing.
    pub fn kind(&self) -> ErrorKind
        ensures { result ≡ kind_in self.now }
    {
        match self {
            Error::EntryNotFound(_, _) => ErrorKind::NotFound,
            Error::IoError(fault, _) => fault.kind(),
            Error::SizeMismatch(_, _) => ErrorKind::InvalidData,
            Error::IntegrityError(IntegrityFault::Check(_, _)) => ErrorKind::InvalidData,
            Error::IntegrityError(_) | Error::SerdeError(_, _) => ErrorKind::InvalidInput,
            Error::OutOfMemory => ErrorKind::OutOfMemory,
        }
    }
}

/// What most calls return.
pub type Result<T> = std::result::Result<T, Error>;

impl From<AllocError> for Error {
    ghost from_gives = { λ _ e. e ≡ OutOfMemory };

    fn from(_error: AllocError) -> Error {
        Error::OutOfMemory
    }
}

impl<T: Drop> From<AllocFailed<T>> for Error {
    ghost from_gives = { λ _ e. e ≡ OutOfMemory };

    fn from(_error: AllocFailed<T>) -> Error {
        Error::from(AllocError)
    }
}

impl From<IntegrityFault> for Error {
    ghost from_gives = { λ fault e. e ≡ IntegrityError fault };

    fn from(fault: IntegrityFault) -> Error {
        Error::IntegrityError(fault)
    }
}
