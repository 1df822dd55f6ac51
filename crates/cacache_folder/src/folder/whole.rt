//! Files that are read whole, and pieces of open files.
ghost use Rattle.std.specs.{Prelude.{◌≡◌, ◌+◌, ◌≤◌, false, IfOk, OnErr, length, min}, Arc.{arc_value}};
ghost use Rattle.cacache_system.specs.declared.call.SystemCall.TheVariants as asks;
ghost use Rattle.cacache_system.specs.declared.call.CallResult.TheVariants as says;
ghost use Rattle.cacache_system.specs.{Seen.{said, said_bytes}, CallsOf.{RunLogged}};
ghost use Rattle.cacache_system.specs.CallsOf as calls;
ghost use Rattle.cacache_system.specs.AnswersOf as table;
ghost use Rattle.cacache_folder.specs.{FolderNumbers.{numbered_file}, Goings.{piece, Insists}};

use crate::folder::again::ask_to_read;
use crate::folder::fresh::count_of;
use crate::folder::opened::{SystemFile, gives_no_more};
use cacache_core::bytes::Bytes;
use cacache_system::System;
use std::alloc::{AllocError, Global};
use std::io;
use std::io::ErrorKind;
use std::sync::Arc;

/// The most bytes that one read asks for. The buffer of a read is filled with zeros first.
const PIECE: usize = 128 * 1024;

/// What the first read of a whole file asks for. Most buckets have less.
const FRONT: usize = 2048;

/// These bytes and all that is left of the file.
fn with_rest<Y: System + AllocGlobal>(
    system: &mut Y,
    file: &mut Y::File,
    front: Vec<u8>,
) -> io::Result<Bytes>
    ensures { RunLogged (calls.reading_rest front.items (Y.number file.old))
        (said says.Bytes result) (Y.calls system.old) (Y.calls system.new) }
{
    let mut bytes = front;
    system.read_rest(file, &mut bytes)?;
    Ok(Bytes::new(system.alloc(), bytes)?)
}

/// One read to the front of a vector, which keeps its length.
fn read_to<Y: System>(system: &mut Y, file: &mut Y::File, bytes: &mut Vec<u8>) -> io::Result<usize>
    ensures size { length bytes.new.items ≡ length bytes.old.items }
    ensures bound { IfOk result (λ n. n ≤ length bytes.old.items) }
    ensures same { Y.number file.new ≡ Y.number file.old }
    ensures made { Insists (asks.Read (Y.number file.old) (length bytes.old.items))
        (said_bytes bytes.new.items result) (Y.calls system.old) (Y.calls system.new) }
{
    match ask_to_read(system, file, bytes) {
        Ok(count) => Ok(count),
        Err(error) => Err(error),
    }
}

/// The front of a file of `size` bytes, with memory for all of it and a byte more.
fn with_room(alloc: Global, front: &[u8], size: usize) -> Result<Vec<u8>, AllocError>
    ensures { IfOk result (λ bytes. bytes.items ≡ front.now) }
{
    let mut bytes = Vec::with_capacity(alloc, size.saturating_add(1))?;
    bytes.extend_from_slice(front)?;
    Ok(bytes)
}

/// The front of a file of `size` bytes, and all that is left of it.
fn after_front<Y: System + AllocGlobal>(
    system: &mut Y,
    file: &mut Y::File,
    front: &[u8],
    size: usize,
) -> io::Result<Bytes>
    ensures { RunLogged (calls.taking_memory (calls.reading_rest front.now (Y.number file.old)))
        (said says.Bytes result) (Y.calls system.old) (Y.calls system.new) }
{
    let bytes = with_room(system.alloc(), front, size)?;
    with_rest(system, file, bytes)
}

/// The front and all that is left of a file, which is asked how long it is.
fn read_long<Y: System + AllocGlobal>(
    system: &mut Y,
    file: &mut Y::File,
    front: &[u8],
) -> io::Result<Bytes>
    ensures { RunLogged (calls.measuring front.now (Y.number file.old))
        (said says.Bytes result) (Y.calls system.old) (Y.calls system.new) }
{
    match system.stat_file(file) {
        Ok(info) => after_front(system, file, front, count_of(info.size)),
        Err(error) => Err(error),
    }
}

/// All that the file has, after one read of its front. Most files end there, and another read sees the end.
fn read_on<Y: System + AllocGlobal>(
    system: &mut Y,
    file: &mut Y::File,
    front: &[u8],
) -> io::Result<Bytes>
    ensures { RunLogged (calls.front_known 2048 front.now (Y.number file.old))
        (said says.Bytes result) (Y.calls system.old) (Y.calls system.new) }
{
    let size = front.len();
    if size == FRONT {
        read_long(system, file, front)
    } else {
        after_front(system, file, front, size)
    }
}

/// The whole file, from which nothing was read yet.
fn read_whole<Y: System + AllocGlobal>(system: &mut Y, file: &mut Y::File) -> io::Result<Bytes>
    ensures { RunLogged (calls.reading_front false 2048 (Y.number file.old))
        (said says.Bytes result) (Y.calls system.old) (Y.calls system.new) }
{
    let mut buf = [0; FRONT];
    match ask_to_read(system, file, &mut buf) {
        Ok(count) => read_on(system, file, &buf[..count]),
        Err(error) => Err(error),
    }
}

/// The whole file at the path.
pub(crate) fn read_all<Y: System + AllocGlobal>(system: &mut Y, path: &str) -> io::Result<Bytes>
    ensures { RunLogged (calls.opening_whole path.now) (said says.Bytes result)
        (Y.calls system.old) (Y.calls system.new) }
{
    match system.open_to_read(path) {
        Ok(mut file) => read_whole(system, &mut file),
        Err(error) => Err(error),
    }
}

/// A shared vector of so many zeros.
fn zeros(alloc: Global, size: usize) -> Result<Arc<Vec<u8>, Global>, AllocError>
    ensures { IfOk result (λ shared. length (arc_value shared).items ≡ size) }
{
    let zeros = vec![in alloc; 0; size]?;
    Ok(Arc::new(alloc, zeros)?)
}

/// The bytes of one read of an open file, for which there is room.
fn read_into<Y: System + Drop>(
    system: &mut Y,
    file: &mut SystemFile<Y>,
    room: Arc<Vec<u8>, Global>,
) -> io::Result<Bytes>
    requires { length (arc_value room).items ≤ file.now.left }
    ensures count { IfOk result (λ bytes. length bytes ≤ length (arc_value room).items) }
    ensures left { IfOk result (λ bytes. file.new.left + length bytes ≡ file.old.left) }
    ensures same { OnErr result (file.new.left ≡ file.old.left) }
    ensures number { Y.number file.new.file ≡ Y.number file.old.file }
    ensures ran { RunLogged (piece (Y.number file.old.file) (length (arc_value room).items))
        (said says.Bytes result) (Y.calls system.old) (Y.calls system.new) }
{
    let mut shared = room;
    let Some(buf) = Arc::get_mut(&mut shared) else {
        return Err(io::Error::from(ErrorKind::OutOfMemory));
    };
    match read_to(system, &mut file.file, buf) {
        Ok(count) => {
            file.left -= count;
            Ok(Bytes::front_of(shared, count))
        }
        Err(error) => Err(error),
    }
}

/// At most `max` bytes of an open file and at most `PIECE`: none only at its end, or if `max` is 0. Memory is taken
/// before anything is read.
pub(crate) fn read_piece<Y: System + AllocGlobal + Drop>(
    system: &mut Y,
    file: &mut SystemFile<Y>,
    max: usize,
) -> io::Result<Bytes>
    ensures count { IfOk result (λ bytes. length bytes ≤ max) }
    ensures left { IfOk result (λ bytes. file.new.left + length bytes ≡ file.old.left) }
    ensures same { OnErr result (file.new.left ≡ file.old.left) }
    ensures number { Y.number file.new.file ≡ Y.number file.old.file }
    ensures ran { RunLogged (table.read_piece (numbered_file Y.number file.old) (min max 131072))
        (said says.Bytes result) (Y.calls system.old) (Y.calls system.new) }
{
    let size = max.min(PIECE);
    if gives_no_more(file, size) {
        Err(io::Error::from(ErrorKind::FileTooLarge))
    } else {
        let most = size.min(file.left);
        match zeros(system.alloc(), most) {
            Ok(room) => read_into(system, file, room),
            Err(_) => Err(io::Error::from(ErrorKind::OutOfMemory)),
        }
    }
}
