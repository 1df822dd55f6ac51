//! Contents that are read in pieces, and checked by what was read.
ghost use Rattle.std.proofs.Common.{append-nil, append_assoc, subst, sym};
ghost use Rattle.std.specs.{Prelude.{◌≡◌, ◌++◌, ℕ, List, Some, IsOk, IfOk, IfErr, OnOk, OnErr, length}, Io.{ReadsAtMost, KnownBytes.{Consumes, ReadConsumes}}};
ghost use Rattle.cacache_core.specs.{declared.integrity.digest.Hash.{Hash}, Integrity.{Meets, strongest, actual}, Errors.{IsCheckFailure}};
ghost use Rattle.cacache_store.specs.Plain.{LeftFalls};
ghost use Rattle.cacache_sync.specs.content.{OpenReads.{HasRead, OpensHash, OpensKey, ReadsMore, ReadsPart, passed, CopiesTo, Finishes}, OpenWrites.{IsRetried}};

use crate::content::draining::drain;
use crate::content::filling::{Pieces, fill};
use cacache_calls::Command;
use cacache_calls::answers::file_of;
use cacache_core::errors::{Error, Result};
use cacache_core::integrity::{Algorithm, Integrity, IntegrityChecker};
use cacache_core::text::Text;
use cacache_entry::Metadata;
use cacache_jobs::{call, content_path, messages, refused};
use cacache_store::env::{Clock, Env, Names};
use cacache_store::store::{OpenedFile, Step, Store};
use std::alloc::{AllocError, Global};
use std::io;
use std::io::{Read, Write};

/// An open content, read in pieces. It gives the bytes of the file that was opened, in order, also if the content was
/// replaced or removed since. Each byte is hashed once. No byte is verified before `check`: always call that at the
/// end.
#[derive(Drop)]
pub struct SyncReader<F> {
    alloc: Global,
    file: F,
    checker: IntegrityChecker,
}

/// Why the content wasn't opened. The path is made again, so that an opening that succeeds makes it once.
fn opening_message(
    alloc: Global,
    cache: &str,
    sri: &Integrity,
) -> std::result::Result<Text, AllocError> {
    let path = content_path(alloc, cache, sri)?;
    messages::opening(alloc, &path)
}

/// Opens the content of the integrity. What is read is checked against it by `check` alone: always call that at the
/// end.
///
/// `IoError` says that the content couldn't be opened, with `NotFound` if it isn't there. Nothing changes.
pub fn open<S: Store, C: Clock, N: Names>(
    env: &mut Env<S, C, N>,
    cache: &str,
    sri: Integrity,
) -> Result<SyncReader<S::File>>
    ensures opens { OpensHash S.File.seen cache.now sri result
        (S.log env.old.store) (S.log env.new.store) }
    ensures clock { env.new.clock ≡ env.old.clock }
    ensures names { env.new.names ≡ env.old.names }
    ensures base { env.new.base ≡ env.old.base }
{
    let alloc = env.alloc;
    let path = content_path(alloc, cache, &sri)?;
    match file_of(env.store.step(Step::Open(path))) {
        Ok(file) => {
            let checker = IntegrityChecker::new(sri);
            Ok(SyncReader {
                alloc,
                file,
                checker,
            })
        }
        Err(refusal) => Err(refused(refusal, opening_message(alloc, cache, &sri))),
    }
}

/// The integrity that a lookup found.
fn integrity_of(found: Metadata) -> Integrity
    ensures { result ≡ found.integrity }
{
    found.integrity
}

impl<F: OpenedFile> SyncReader<F> {
    /// Opens the content that a lookup of the key finds. What is read is checked against the integrity that the lookup
    /// gives, by `check` alone: always call that at the end.
    ///
    /// ```
    /// cacache::write_sync(&mut env, "my-cache", "key", b"my data")?;
    /// let mut reader = cacache::SyncReader::open(&mut env, "my-cache", "key")?;
    /// let mut bytes = Vec::new(alloc);
    /// reader.read_to_end(&mut bytes)?; // bytes are b"my data", which aren't checked yet
    /// let algorithm = reader.check()?; // Algorithm::Sha256
    /// ```
    ///
    /// `EntryNotFound` if the lookup finds none, `IoError` says which step failed, with `NotFound` if the content isn't
    /// there. Nothing changes.
    pub fn open<S: Store<File = F>, C: Clock, N: Names>(
        env: &mut Env<S, C, N>,
        cache: &str,
        key: &str,
    ) -> Result<SyncReader<F>>
        ensures opens { OpensKey F.seen cache.now env.old.base key.now result
            (S.log env.old.store) (S.log env.new.store) }
        ensures clock { env.new.clock ≡ env.old.clock }
        ensures names { env.new.names ≡ env.old.names }
        ensures base { env.new.base ≡ env.old.base }
    {
        let named = Text::from_str(env.alloc, key)?;
        match call(env, cache, Command::Find(named), 0).looked_up() {
            Ok(Some(found)) => open(env, cache, integrity_of(found)),
            Ok(None) => {
                let cache = Text::from_str(env.alloc, cache)?;
                Err(Error::EntryNotFound(cache, Text::from_str(env.alloc, key)?))
            }
            Err(error) => Err(error),
        }
    }

    /// Opens the content of the integrity, as `content::read::open` does. Always call `check` at the end.
    ///
    /// ```
    /// let sri = cacache::write_hash_sync(&mut env, "my-cache", b"my data")?;
    /// let mut reader = cacache::SyncReader::open_hash(&mut env, "my-cache", sri)?;
    /// let mut text = String::new(alloc);
    /// reader.read_to_string(&mut text)?; // text is "my data", which isn't checked yet
    /// let algorithm = reader.check()?; // Algorithm::Sha256
    /// ```
    pub fn open_hash<S: Store<File = F>, C: Clock, N: Names>(
        env: &mut Env<S, C, N>,
        cache: &str,
        sri: Integrity,
    ) -> Result<SyncReader<F>>
        ensures opens { OpensHash F.seen cache.now sri result
            (S.log env.old.store) (S.log env.new.store) }
        ensures clock { env.new.clock ≡ env.old.clock }
        ensures names { env.new.names ≡ env.old.names }
        ensures base { env.new.base ≡ env.old.base }
    {
        open(env, cache, sri)
    }

    /// Whether the bytes that were read so far meet the integrity that the reader was opened with: Ok of its strongest
    /// algorithm. What wasn't read counts for nothing, so read to the end first. Only the error takes memory. The
    /// example of `open` calls it.
    ///
    /// `IntegrityError` has that integrity and the one of the bytes that were read.
    pub fn check(self) -> Result<Algorithm>
        ensures ok { (i : List Hash) (bytes : List ℕ) → HasRead self i bytes
            → IfOk result (λ a. Meets i bytes × (strongest i ≡ Some a)) }
        ensures met { (i : List Hash) (bytes : List ℕ) → HasRead self i bytes
            → Meets i bytes → IsOk result }
        ensures err { (i : List Hash) (bytes : List ℕ) → HasRead self i bytes
            → IfErr result (IsCheckFailure i (actual i bytes)) }
    {
        let SyncReader {
            alloc,
            file: _file,
            checker,
        } = self;
        checker.result(alloc)
    }

    /// Reads the rest of the content in pieces of 8192 bytes, and then does what `check` does. The bytes that were read
    /// before count too. It holds one piece at a time.
    ///
    /// `IoError` says that a read failed. `IntegrityError` has the integrity that the reader was opened with and the one
    /// of all bytes, if these don't meet the first.
    pub fn finish(self) -> Result<Algorithm>
        ensures finishes { (i : List Hash) (bytes : List ℕ) → HasRead self i bytes
            → Finishes (F.seen self.file) i bytes result }
    {
        let alloc = self.alloc;
        let mut reader = self;
        drain(alloc, &mut reader, &mut io::sink())?;
        reader.check()
    }

    /// Reads the rest of the content in pieces of 8192 bytes, writes each to `out`, and checks all bytes as `finish` does.
    /// Returns how many bytes it wrote, where 2^64 - 1 stands for that many or more. Bytes that were read before count for
    /// the check and aren't written. `out` isn't flushed.
    ///
    /// `out` gets bytes before they are checked: after an error use none of them. `IoError` says that a read or a write
    /// failed, and its text which of the two. `IntegrityError` comes as from `finish`; then `out` has all bytes that were left.
    pub fn copy_to<W: Write>(self, out: &mut W) -> Result<u64>
        ensures copies { (i : List Hash) (bytes : List ℕ) → HasRead self i bytes
            → CopiesTo (F.seen self.file) i bytes
            (W.contents out.old) (W.contents out.new) result }
    {
        let alloc = self.alloc;
        let mut reader = self;
        let count = drain(alloc, &mut reader, out)?;
        reader.check()?;
        Ok(count)
    }
}

impl<F: OpenedFile> Read for SyncReader<F> {
    ghost remaining = { λ reader. (F.seen reader.file).bytes };

    /// Reads some bytes into the front of `buf` and returns how many: none only at the end of the content, or if
    /// `buf` is empty. After an error the reader is where it was, and may go on.
    fn read(&mut self, buf: &mut [u8]) -> io::Result<usize>
        ensures bound { ReadsAtMost result buf.new }
        ensures bytes { ReadConsumes (F.seen self.old.file).bytes (F.seen self.new.file).bytes
            result buf.new }
        ensures left { LeftFalls (F.seen self.old.file).left (F.seen self.new.file).left result }
        ensures so_far { (i : List Hash) (bytes : List ℕ) → HasRead self.old i bytes
            → HasRead self.new i (bytes ++ passed result buf.new) }
        ensures earned { F.reads self.old.file (length buf.old) result self.new.file }
    {
        let count = self.file.read_some(buf)?;
        self.checker.input(&buf[..count]);
        Ok(count)
    }

    /// Fills `buf`, in as many reads as that takes. A read that was interrupted is tried again.
    ///
    /// After an error a beginning of `buf` was read, perhaps nothing, and the reader goes on after it. `UnexpectedEof`
    /// says that the content has ended.
    fn read_exact(&mut self, buf: &mut [u8]) -> io::Result<()>
        ensures bytes { OnOk result (Consumes (F.seen self.old.file).bytes
            (F.seen self.new.file).bytes buf.new) }
        ensures so_far { OnOk result (ReadsMore self.old self.new buf.new) }
        ensures part { OnErr result (ReadsPart F.seen self.old self.new buf.new) }
        ensures retried { IfErr result IsRetried }
    {
        fill(self, buf)
    }
}

impl<F: OpenedFile> Pieces for SyncReader<F> {
    ghost left = { λ reader. (F.seen reader.file).bytes };

    ghost gave = { ReadsMore };

    ghost gave_none = { λ r i bytes had. subst (HasRead r i) (sym (append-nil bytes)) had };

    ghost gave_on = { λ u v w one two x y i bytes had.
        subst (HasRead w i) (append_assoc bytes one two) (y i (bytes ++ one) (x i bytes had)) };

    #[inline(always)]
    fn read_piece(&mut self, buf: &mut [u8]) -> io::Result<usize> {
        self.read(buf)
    }
}
