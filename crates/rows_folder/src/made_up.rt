//! Open folders with made-up names: `a`, and more in a folder `odd`, `slow`, `torn`, `gone` or `late`.
use crate::watched_file::Notes;
use std::io;
use std::io::{ErrorKind, Read};

/// The names of a folder.
const NAMES: &[u8] = b".\0..\0a\0";

/// How an open folder gives its names.
#[derive(Clone, Copy)]
enum Giving {
    /// All in one read.
    Whole,
    /// All in one read, and one more that isn't UTF-8.
    Odd,
    /// Some in each read, fewer than there is room for.
    Slow,
    /// All, but a further read fails.
    Torn,
    /// All, but a further read says that the folder is missing.
    Gone,
    /// All, after a signal interrupted the first read.
    Late,
}

/// An open folder with made-up names, and how many reads were made of it. It holds the notes while it is open.
#[derive(Drop)]
pub(crate) struct MadeUp {
    giving: Giving,
    made: usize,
    notes: Notes,
}

impl MadeUp {
    /// The open folder at this path.
    pub(crate) fn new(path: &str, notes: Notes) -> MadeUp {
        MadeUp {
            giving: giving_of(path),
            made: 0,
            notes,
        }
    }
}

/// What the read after so many others gives.
fn read_after(giving: Giving, made: usize) -> Result<&'static [u8], ErrorKind> {
    match (giving, made) {
        (Giving::Whole, 0) | (Giving::Torn, 0) | (Giving::Gone, 0) | (Giving::Late, 1) => Ok(NAMES),
        (Giving::Odd, 0) => Ok(b".\0..\0a\0\xff\0"),
        (Giving::Slow, 0) => Ok(b".\0..\0"),
        (Giving::Slow, 1) => Ok(b"longer\0"),
        (Giving::Slow, 2) => Ok(b"a\0"),
        (Giving::Torn, _) => Err(ErrorKind::Other),
        (Giving::Gone, _) => Err(ErrorKind::NotFound),
        (Giving::Late, 0) => Err(ErrorKind::Interrupted),
        _ => Ok(b""),
    }
}

impl Read for MadeUp {
    fn read(&mut self, buf: &mut [u8]) -> io::Result<usize> {
        let read = read_after(self.giving, self.made);
        self.made = self.made.saturating_add(1);
        match read {
            Ok(names) => {
                let mut rest = names;
                rest.read(buf)
            }
            Err(kind) => Err(io::Error::from(kind)),
        }
    }
}

/// How the folder at this path gives its names.
fn giving_of(path: &str) -> Giving {
    match path.trim_end_matches('/').rsplit_once('/') {
        Some((_, "odd")) => Giving::Odd,
        Some((_, "slow")) => Giving::Slow,
        Some((_, "torn")) => Giving::Torn,
        Some((_, "gone")) => Giving::Gone,
        Some((_, "late")) => Giving::Late,
        _ => Giving::Whole,
    }
}
