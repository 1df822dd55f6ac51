//! A buffer that is filled from its front, by one read after another.
ghost use Rattle.std.specs.{Prelude.{◌++◌, ℕ, List, [], Option, IfErr, OnOk, OnErr}, Io.{ReadsAtMost, KnownBytes.{Consumes, ReadConsumes}}};
ghost use Rattle.cacache_sync.specs.content.{OpenReads.{GivesPart, passed}, OpenWrites.{IsRetried}};

use std::io;
use std::io::ErrorKind;

/// What is read in pieces, and takes each in.
pub(crate) trait Pieces {
    /// The bytes that are left to read, if they are known.
    ghost left: { Self → Option (List ℕ) };

    /// From the first to the second, these bytes were read and taken in.
    ghost gave: { Self → Self → List ℕ → Type 0 };

    /// Does what its `Read::read` does.
    fn read_piece(&mut self, buf: &mut [u8]) -> io::Result<usize>
        ensures bound { ReadsAtMost result buf.new }
        ensures bytes { ReadConsumes (left self.old) (left self.new) result buf.new }
        ensures gives { gave self.old self.new (passed result buf.new) };

    /// None were.
    ghost gave_none: { (r : Self) → gave r r [] };

    /// Some were, and then some more.
    ghost gave_on: { (u v w : Self) (one two : List ℕ) → gave u v one → gave v w two
        → gave u w (one ++ two) };
}

/// Fills `buf`, in as many reads as that takes. A read that was interrupted is tried again.
///
/// After an error a beginning of `buf` was read, perhaps nothing, and the reader goes on after it. `UnexpectedEof` says
/// that nothing is left.
#[tactic(auto, using(crate::proofs::content::Rests::whole_given))]
pub(crate) fn fill<R: Pieces>(reader: &mut R, buf: &mut [u8]) -> io::Result<()>
    ensures bytes { OnOk result (Consumes (R.left reader.old) (R.left reader.new) buf.new) }
    ensures gives { OnOk result (R.gave reader.old reader.new buf.new) }
    ensures part { OnErr result (GivesPart R.left R.gave reader.old reader.new buf.new) }
    ensures retried { IfErr result IsRetried }
{
    let size = buf.len();
    let mut done = 0;
    for _tries in 0..u64::MAX {
        if done == size {
            return Ok(());
        }
        match reader.read_piece(&mut buf[done..]) {
            Ok(0) => {
                let message = "failed to fill whole buffer";
                return Err(io::Error::new(ErrorKind::UnexpectedEof, message));
            }
            Ok(count) => done += count,
            Err(error) if error.kind() == ErrorKind::Interrupted => {}
            Err(error) => return Err(error),
        }
    }
    // the last read may have filled the rest
    if done == size {
        return Ok(());
    }
    Err(ErrorKind::TimedOut.into())
}
