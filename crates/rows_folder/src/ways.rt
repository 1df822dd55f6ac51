//! Ways in which watched files behave, and the ways to open one.
use rows::Flaw;
use rows::words::number_of;
use std::io::ErrorKind;

/// The ways of a runtime's files.
#[derive(Clone, Copy)]
pub(crate) struct Ways {
    /// Why each read, write and sync fails, and the question what kind of thing an entry of a folder is.
    pub(crate) fault: Option<ErrorKind>,
    /// How many reads and writes are interrupted, before one goes through.
    pub(crate) interruptions: u32,
    /// The most bytes that a read or a write moves.
    pub(crate) most: usize,
    /// What the file gives as its size, if it isn't to give its true size.
    pub(crate) size: Option<u64>,
    /// Why each rename fails.
    pub(crate) rename: Option<ErrorKind>,
    /// Why no file gets an owner.
    pub(crate) owner: Option<ErrorKind>,
    /// Why no file gets a mode.
    pub(crate) mode: Option<ErrorKind>,
    /// Why each copy fails, after it wrote its bytes.
    pub(crate) copy: Option<ErrorKind>,
    /// Why no fresh file is made.
    pub(crate) made: Option<ErrorKind>,
    /// Why each call on a path fails.
    pub(crate) refused: Option<ErrorKind>,
    /// Whether the paths are noted too.
    pub(crate) paths: bool,
}

/// The ways of the system's files.
const PLAIN: Ways = Ways {
    fault: None,
    interruptions: 0,
    most: usize::MAX,
    size: None,
    rename: None,
    owner: None,
    mode: None,
    copy: None,
    made: None,
    refused: None,
    paths: false,
};

/// Why a read or a write may fail. One that is interrupted is made again.
pub(crate) const KINDS: [ErrorKind; 41] = [
    ErrorKind::NotFound,
    ErrorKind::PermissionDenied,
    ErrorKind::ConnectionRefused,
    ErrorKind::ConnectionReset,
    ErrorKind::HostUnreachable,
    ErrorKind::NetworkUnreachable,
    ErrorKind::ConnectionAborted,
    ErrorKind::NotConnected,
    ErrorKind::AddrInUse,
    ErrorKind::AddrNotAvailable,
    ErrorKind::NetworkDown,
    ErrorKind::BrokenPipe,
    ErrorKind::AlreadyExists,
    ErrorKind::WouldBlock,
    ErrorKind::NotADirectory,
    ErrorKind::IsADirectory,
    ErrorKind::DirectoryNotEmpty,
    ErrorKind::ReadOnlyFilesystem,
    ErrorKind::FilesystemLoop,
    ErrorKind::StaleNetworkFileHandle,
    ErrorKind::InvalidInput,
    ErrorKind::InvalidData,
    ErrorKind::TimedOut,
    ErrorKind::WriteZero,
    ErrorKind::StorageFull,
    ErrorKind::NotSeekable,
    ErrorKind::QuotaExceeded,
    ErrorKind::FileTooLarge,
    ErrorKind::ResourceBusy,
    ErrorKind::ExecutableFileBusy,
    ErrorKind::Deadlock,
    ErrorKind::CrossesDevices,
    ErrorKind::TooManyLinks,
    ErrorKind::InvalidFilename,
    ErrorKind::ArgumentListTooLong,
    ErrorKind::Unsupported,
    ErrorKind::UnexpectedEof,
    ErrorKind::OutOfMemory,
    ErrorKind::InProgress,
    ErrorKind::Other,
    ErrorKind::Uncategorized,
];

/// Each read and write fails for this reason.
pub(crate) fn failing(kind: ErrorKind) -> Ways {
    Ways {
        fault: Some(kind),
        ..PLAIN
    }
}

/// The ways of a name.
fn named(name: &str) -> Result<Ways, Flaw> {
    let denied = Some(ErrorKind::PermissionDenied);
    let unknown = Some(ErrorKind::Uncategorized);
    let mut ways = PLAIN;
    match name {
        "plain" => {}
        "told" => ways.paths = true,
        // Each read and write fails, is refused for memory, or finds no room.
        "broken" => ways.fault = Some(ErrorKind::NotADirectory),
        "full" => ways.fault = Some(ErrorKind::OutOfMemory),
        "no-room" => ways.fault = Some(ErrorKind::StorageFull),
        // Each rename fails, or is refused for memory.
        "unmoved" => ways.rename = denied,
        "crowded" => ways.rename = Some(ErrorKind::OutOfMemory),
        // Each copy fails.
        "uncopied" => ways.copy = Some(ErrorKind::StorageFull),
        // No fresh file is made, or each name of one is taken.
        "unmade" => ways.made = denied,
        "taken" => ways.made = Some(ErrorKind::AlreadyExists),
        // Each call on a path is denied, or fails for a reason without a name.
        "denied" => ways.refused = denied,
        "unknown" => ways.refused = unknown,
        _ => return together(name),
    }
    Ok(ways)
}

/// The ways of a name that says more than one thing.
fn together(name: &str) -> Result<Ways, Flaw> {
    let denied = Some(ErrorKind::PermissionDenied);
    let unknown = Some(ErrorKind::Uncategorized);
    let mut ways = PLAIN;
    match name {
        // No file gets an owner or a mode, and the paths are noted.
        "unowned" => (ways.owner, ways.paths) = (denied, true),
        "unmoded" => (ways.mode, ways.paths) = (denied, true),
        // Each read and write moves one byte, and the first so many are interrupted.
        "short" => ways.most = 1,
        "once" => (ways.most, ways.interruptions) = (1, 1),
        "often" => (ways.most, ways.interruptions) = (1, 5),
        "at-last" => (ways.most, ways.interruptions) = (1, 64),
        // Each read, write, sync and rename is denied, or fails for a reason without a name.
        "denied-inside" => (ways.fault, ways.rename) = (denied, denied),
        "unknown-inside" => (ways.fault, ways.rename) = (unknown, unknown),
        _ => return Err(Flaw::NotRead),
    }
    Ok(ways)
}

/// Files that give so many bytes as their size; `slow` ones are also interrupted once, and then give three bytes at a
/// time.
fn sized(name: &str, size: usize) -> Result<Ways, Flaw> {
    let sized = Ways {
        size: Some(size as u64),
        ..PLAIN
    };
    match name {
        "size" => Ok(sized),
        "slow" => Ok(Ways {
            interruptions: 1,
            most: 3,
            ..sized
        }),
        _ => Err(Flaw::NotRead),
    }
}

/// The ways of a word, as `plain` or `size=10`.
pub(crate) fn ways_of(word: &str) -> Result<Ways, Flaw> {
    match word.split_once('=') {
        Some((name, size)) => sized(name, number_of(size)?),
        None => named(word),
    }
}

/// How a file is opened to append to it, to read it, and to make it as a temporary file, each with a name.
const OPENINGS: [(&str, &str); 5] = [
    (
        "append-old",
        "OpenOptions { read: false, write: false, append: true, truncate: false, create: false, create_new: false, mode: 438 }",
    ),
    (
        "append-new",
        "OpenOptions { read: false, write: false, append: true, truncate: false, create: false, create_new: true, mode: 438 }",
    ),
    (
        "append",
        "OpenOptions { read: false, write: false, append: true, truncate: false, create: true, create_new: false, mode: 438 }",
    ),
    (
        "read",
        "OpenOptions { read: true, write: false, append: false, truncate: false, create: false, create_new: false, mode: 438 }",
    ),
    (
        "create",
        "OpenOptions { read: false, write: true, append: false, truncate: false, create: false, create_new: true, mode: 384 }",
    ),
];

/// The name of a way to open a file, or the text of one that has none.
pub(crate) fn name_of(opening: &str) -> &str {
    for (name, text) in OPENINGS {
        if text == opening {
            return name;
        }
    }
    opening
}
