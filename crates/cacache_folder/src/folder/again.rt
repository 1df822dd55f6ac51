//! Reads and writes that a signal interrupts.
ghost use Rattle.std.specs.{Prelude.{◌≡◌, take, length}, Io.{ReadsAtMost, WritesAtMost}};
ghost use Rattle.std_io.specs.IoError.{error_kind};
ghost use Rattle.cacache_system.specs.declared.call.SystemCall.TheVariants as asks;
ghost use Rattle.cacache_system.specs.declared.call.CallResult.TheVariants as says;
ghost use Rattle.cacache_system.specs.{Seen.{said}, CallsOf.{interrupts}};
ghost use Rattle.cacache_folder.specs.Goings.{Insists};

use cacache_system::System;
use std::io;
use std::io::ErrorKind;

/// How often a call is made if a signal interrupts it each time.
const TRIES: u64 = u64::MAX;

/// Whether a signal interrupted the call.
fn is_interrupted(error: &io::Error) -> bool
    ensures { result ≡ interrupts (error_kind error.now) }
{
    matches!(error.kind(), ErrorKind::Interrupted)
}

/// A read of a file. If a signal interrupts it before it gives a byte, it is made again.
pub(crate) fn ask_to_read<Y: System>(
    system: &mut Y,
    file: &mut Y::File,
    buf: &mut [u8],
) -> io::Result<usize>
    ensures bound { ReadsAtMost result buf.new }
    ensures same { Y.number file.new ≡ Y.number file.old }
    ensures made { Insists (asks.Read (Y.number file.old) (length buf.old))
        (said (λ n. says.Bytes (take n buf.new)) result) (Y.calls system.old) (Y.calls system.new) }
{
    for _ in 1..TRIES {
        match system.read(file, buf) {
            Err(e) if is_interrupted(&e) => {}
            read => return read,
        }
    }
    system.read(file, buf)
}

/// A write to a file. If a signal interrupts it before it takes a byte, it is made again.
pub(crate) fn ask_to_write<Y: System>(
    system: &mut Y,
    file: &mut Y::File,
    buf: &[u8],
) -> io::Result<usize>
    ensures bound { WritesAtMost result buf.now }
    ensures same { Y.number file.new ≡ Y.number file.old }
    ensures made { Insists (asks.Write (Y.number file.old) buf.now) (said says.Count result)
        (Y.calls system.old) (Y.calls system.new) }
{
    for _ in 1..TRIES {
        match system.write(file, buf) {
            Err(e) if is_interrupted(&e) => {}
            written => return written,
        }
    }
    system.write(file, buf)
}

/// A read of an open folder's names. If a signal interrupts it, it is made again.
pub(crate) fn ask_for_names<Y: System>(
    system: &mut Y,
    folder: &mut Y::Folder,
    buf: &mut [u8],
) -> io::Result<usize>
    ensures bound { ReadsAtMost result buf.new }
    ensures same { Y.folder_number folder.new ≡ Y.folder_number folder.old }
    ensures made { Insists (asks.ReadNames (Y.folder_number folder.old) (length buf.old))
        (said (λ n. says.Bytes (take n buf.new)) result) (Y.calls system.old) (Y.calls system.new) }
{
    for _ in 1..TRIES {
        match system.read_names(folder, buf) {
            Err(e) if is_interrupted(&e) => {}
            read => return read,
        }
    }
    system.read_names(folder, buf)
}
