//! The rest of a content, which is read to its end in pieces.
ghost use Rattle.std.specs.Prelude.{IfErr, IfOk};
ghost use Rattle.cacache_sync.specs.content.OpenReads.{IsUnread, PassesOn};

use crate::content::reader::SyncReader;
use cacache_core::errors::{Error, Fault, Result};
use cacache_core::text::Text;
use cacache_jobs::PIECE;
use cacache_store::store::OpenedFile;
use std::alloc::Global;
use std::io;
use std::io::{ErrorKind, Read, Write};

/// Reads the rest of the content, writes it to `out`, and returns how many bytes that were. A read that was interrupted
/// is tried again.
///
/// An error is that of a read or of a write, and its text says which. Then a beginning of the rest was read, and `out` may
/// have a beginning of that.
pub(crate) fn drain<F: OpenedFile, W: Write>(
    alloc: Global,
    reader: &mut SyncReader<F>,
    out: &mut W,
) -> Result<u64>
    ensures passes { IfOk result (PassesOn F.seen reader.old reader.new
        (W.contents out.old) (W.contents out.new)) }
    ensures unread { IfErr result IsUnread }
{
    let mut count: u64 = 0;
    let mut piece = [0; PIECE];
    for _tries in 0..u64::MAX {
        match reader.read(&mut piece) {
            Ok(0) => return Ok(count),
            Ok(size) => match out.write_all(&piece[..size]) {
                Ok(()) => count = count.saturating_add(size as u64),
                Err(error) => {
                    return Err(unread(alloc, error, "Failed to write the rest of a content"));
                }
            },
            Err(error) if error.kind() == ErrorKind::Interrupted => {}
            Err(error) => return Err(unread(alloc, error, "Failed to read the rest of a content")),
        }
    }
    let error = ErrorKind::TimedOut.into();
    Err(unread(alloc, error, "Failed to read the rest of a content"))
}

/// Why the rest of a content wasn't passed on, with this text.
fn unread(alloc: Global, error: io::Error, text: &str) -> Error
    ensures { IsUnread result }
{
    let fault = Fault::from(error.kind());
    match Text::from_str(alloc, text) {
        Ok(text) => Error::IoError(fault, text),
        Err(_) => Error::OutOfMemory,
    }
}
