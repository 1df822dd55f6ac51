//! The reads of a linker, which hash what they read.
ghost use Rattle.std.proofs.Common.{append-nil, append_assoc, refl, subst, sym, ◌∙◌};
ghost use Rattle.std.specs.{Prelude.{◌≡◌, ◌++◌, ℕ, List, IfErr, OnOk, OnErr, length}, Io.{ReadsAtMost, KnownBytes.{Consumes, ReadConsumes}}};
ghost use Rattle.cacache_store.specs.Plain.{LeftFalls};
ghost use Rattle.cacache_sync.specs.{content.{OpenWrites.{IsRetried}, OpenReads.{passed}}, put.OpenLinkers.{HasHashed, HashesMore, HashesPart}};

use crate::content::filling::{Pieces, fill};
use crate::put::linker::SyncToLinker;
use cacache_store::store::OpenedFile;
use std::io;
use std::io::Read;

impl<F: OpenedFile> Read for SyncToLinker<F> {
    ghost remaining = { λ linker. (F.seen linker.file).bytes };

    /// Reads some bytes into the front of `buf` and returns how many: none only at the end of the target, or if `buf` is
    /// empty. After an error the linker is where it was, and may go on.
    fn read(&mut self, buf: &mut [u8]) -> io::Result<usize>
        ensures bound { ReadsAtMost result buf.new }
        ensures bytes { ReadConsumes (F.seen self.old.file).bytes (F.seen self.new.file).bytes
            result buf.new }
        ensures left { LeftFalls (F.seen self.old.file).left (F.seen self.new.file).left result }
        ensures so_far { (bytes : List ℕ) → HasHashed self.old bytes
            → HasHashed self.new (bytes ++ passed result buf.new) }
        ensures linked { self.new.linked ≡ self.old.linked }
        ensures earned { F.reads self.old.file (length buf.old) result self.new.file }
    {
        let count = self.file.read_some(buf)?;
        self.hasher.update(&buf[..count]);
        self.count = self.count.saturating_add(count);
        Ok(count)
    }

    /// Fills `buf`, in as many reads as that takes. A read that was interrupted is tried again.
    ///
    /// After an error a beginning of `buf` was read, perhaps nothing, and the linker goes on after it. `UnexpectedEof`
    /// says that the target has ended.
    fn read_exact(&mut self, buf: &mut [u8]) -> io::Result<()>
        ensures bytes { OnOk result (Consumes (F.seen self.old.file).bytes
            (F.seen self.new.file).bytes buf.new) }
        ensures so_far { OnOk result (HashesMore self.old self.new buf.new) }
        ensures part { OnErr result (HashesPart F.seen self.old self.new buf.new) }
        ensures linked { self.new.linked ≡ self.old.linked }
        ensures retried { IfErr result IsRetried }
    {
        fill(self, buf)
    }
}

impl<F: OpenedFile> Pieces for SyncToLinker<F> {
    ghost left = { λ linker. (F.seen linker.file).bytes };

    ghost gave = { λ old new more. HashesMore old new more × (new.linked ≡ old.linked) };

    ghost gave_none = { λ l. (λ bytes had. subst (HasHashed l) (sym (append-nil bytes)) had, refl) };

    ghost gave_on = { λ u v w one two x y. (
      λ bytes had. subst (HasHashed w)
          (append_assoc bytes one two) (y.0 (bytes ++ one) (x.0 bytes had)),
      y.1 ∙ x.1,
    ) };

    #[inline(always)]
    fn read_piece(&mut self, buf: &mut [u8]) -> io::Result<usize> {
        self.read(buf)
    }
}
