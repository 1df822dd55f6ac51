//! Open files and temporary files.
ghost use Rattle.std.specs.{Prelude.{◌≡◌, ℕ, Result, ⊤, length}, Io.{ReadsAtMost, WritesAtMost, KnownBytes.{ReadConsumes, WriteAppends}}};
ghost use Rattle.cacache_store.specs.{declared.store.plain.{PlainFile.{PlainFile}, PlainTemp.{PlainTemp}}, Outside.{Error}, Plain.{LeftFalls}};

use crate::store::plain::{PlainFile, PlainTemp};
use std::io;
use std::io::{Read, Write};

/// What contracts know about an open file.
pub trait FileHandle: Drop {
    /// The plain file that contracts see for it.
    ghost seen: { Self → PlainFile };
}

/// What contracts know about a temporary file.
pub trait TempHandle: Drop {
    /// The plain temporary file that contracts see for it.
    ghost seen: { Self → PlainTemp };
}

/// An open file. `Read::read` does what `read_some` does.
pub trait OpenedFile: FileHandle + Read {
    /// Which answers a read may return, as a relation of four: the file before, the room for its bytes, the answer and
    /// the file after.
    ghost reads: { Self → ℕ → Result ℕ Error → Self → Type 0 } = { λ _ _ _ _. ⊤ };

    /// Reads some bytes into the front of `buf` and returns how many. It reads none only at the end of the file, or if
    /// `buf` is empty.
    fn read_some(&mut self, buf: &mut [u8]) -> io::Result<usize>
        ensures bound { ReadsAtMost result buf.new }
        ensures left { LeftFalls (Self.seen self.old).left (Self.seen self.new).left result }
        ensures bytes { ReadConsumes (Self.seen self.old).bytes (Self.seen self.new).bytes
            result buf.new }
        ensures earned { reads self.old (length buf.old) result self.new };
}

/// A temporary file that is being written. `Write::write` does what `write_some` does.
pub trait TempFile: TempHandle + Write {
    /// Which answers a write may return, as a relation of four: the file before, the number of bytes passed in, the
    /// answer and the file after.
    ghost writes: { Self → ℕ → Result ℕ Error → Self → Type 0 } = { λ _ _ _ _. ⊤ };

    /// Appends some bytes from the front of `buf` to the file and returns how many.
    fn write_some(&mut self, buf: &[u8]) -> io::Result<usize>
        ensures bound { WritesAtMost result buf.now }
        ensures path { (Self.seen self.new).path ≡ (Self.seen self.old).path }
        ensures bytes { WriteAppends (Self.seen self.old).bytes (Self.seen self.new).bytes
            result buf.now }
        ensures earned { writes self.old (length buf.now) result self.new };
}
