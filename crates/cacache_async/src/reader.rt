//! Open contents that are read by polls.
ghost use Rattle.std.specs.{Prelude.{◌≡◌, ◌++◌, ℕ, List, Some, IsOk, IfOk, IfErr, OnOk, OnErr, length}, Io.{ReadsAtMost, KnownBytes.{Consumes, ReadConsumes}}};
ghost use Rattle.futures.specs.{Poll.{IfReady, OnPending}, Task.{Keeps}};
ghost use Rattle.cacache_core.specs.{declared.integrity.digest.Hash.{Hash}, Integrity.{Meets, strongest, actual}, Errors.{IsCheckFailure}};
ghost use Rattle.cacache_store.specs.Plain.{LeftFalls};
ghost use Rattle.cacache_sync.specs.content.{OpenReads.{HasRead, OpensHash, OpensKey, ReadsMore, ReadsPart, passed}, OpenWrites.{IsRetried}};
ghost use Rattle.cacache_async.specs.{Futures.{Waits}, Polling.{TellsRead, reader_in}};

use crate::call::Call;
use crate::future::{CallFuture, polling};
use cacache_core::errors::{Fault, Result};
use cacache_core::integrity::{Algorithm, Integrity};
use cacache_store::env::{Clock, Env, Names};
use cacache_store::store::{OpenedFile, Store};
use cacache_sync::content::reader::{SyncReader, open as open_sync};
use futures::task::{Context, Poll};
use std::alloc::Global;
use std::io;
use std::io::Read;

/// An open content that is read by polls: a `SyncReader` that answers its reads at once. No byte is verified before
/// `check`: always call that at the end.
#[derive(Drop)]
pub struct Reader<F> {
    reader: SyncReader<F>,
    alloc: Global,
}

/// What `Reader::open` is called with.
#[derive(Clone, Copy)]
pub struct ReaderOpenCall<'a> {
    cache: &'a str,
    key: &'a str,
}

impl<'a, S: Store, C: Clock, N: Names> Call<S, C, N> for ReaderOpenCall<'a> {
    type Output = Reader<S::File>;

    ghost makes = { λ c old r new. OpensKey S.File.seen c.cache.now old.base c.key.now (reader_in r)
        (S.log old.store) (S.log new.store)
        × (new.clock ≡ old.clock) × (new.names ≡ old.names) × (new.base ≡ old.base) };

    fn make(self, env: &mut Env<S, C, N>) -> Result<Reader<S::File>> {
        let alloc = env.alloc;
        let reader = SyncReader::open(env, self.cache, self.key)?;
        Ok(Reader { reader, alloc })
    }
}

/// The future of `Reader::open`.
pub type ReaderOpenFuture<'a, S, C, N> = CallFuture<'a, S, C, N, ReaderOpenCall<'a>>;

/// What `open_async` is called with.
#[derive(Drop)]
pub struct OpenAsyncCall<'a> {
    cache: &'a str,
    sri: Integrity,
}

impl<'a, S: Store, C: Clock, N: Names> Call<S, C, N> for OpenAsyncCall<'a> {
    type Output = Reader<S::File>;

    ghost makes = { λ c old r new. OpensHash S.File.seen c.cache.now c.sri (reader_in r)
        (S.log old.store) (S.log new.store)
        × (new.clock ≡ old.clock) × (new.names ≡ old.names) × (new.base ≡ old.base) };

    fn make(self, env: &mut Env<S, C, N>) -> Result<Reader<S::File>> {
        let OpenAsyncCall { cache, sri } = self;
        let alloc = env.alloc;
        let reader = open_sync(env, cache, sri)?;
        Ok(Reader { reader, alloc })
    }
}

/// The future of `open_async`.
pub type OpenAsyncFuture<'a, S, C, N> = CallFuture<'a, S, C, N, OpenAsyncCall<'a>>;

/// The future of `Reader::open_hash`.
pub type ReaderOpenHashFuture<'a, S, C, N> = OpenAsyncFuture<'a, S, C, N>;

/// `content::read::open` as a future. Always call the reader's `check` at the end.
pub fn open_async<'a, S: Store, C: Clock, N: Names>(
    env: &'a mut Env<S, C, N>,
    cache: &'a str,
    sri: Integrity,
) -> OpenAsyncFuture<'a, S, C, N>
    ensures waits { Waits result env.entry
        (record { cache = cache.entry; sri = sri }) }
{
    CallFuture::new(env, OpenAsyncCall { cache, sri })
}

impl<F: OpenedFile> Reader<F> {
    /// `SyncReader::open` as a future. Always call `check` at the end.
    ///
    /// ```
    /// cacache::write_sync(&mut env, "my-cache", "key", b"my data")?;
    /// let mut reader = block_on(&rt, cacache::Reader::open(&mut env, "my-cache", "key"))??;
    /// let mut text = String::new(alloc);
    /// reader.read_to_string(&mut text)?; // text is "my data", which isn't checked yet
    /// let algorithm = reader.check()?; // Algorithm::Sha256
    /// ```
    pub fn open<'a, S: Store<File = F>, C: Clock, N: Names>(
        env: &'a mut Env<S, C, N>,
        cache: &'a str,
        key: &'a str,
    ) -> ReaderOpenFuture<'a, S, C, N>
        ensures waits { Waits result env.entry
            (record { cache = cache.entry; key = key.entry }) }
    {
        CallFuture::new(env, ReaderOpenCall { cache, key })
    }

    /// `SyncReader::open_hash` as a future. Always call `check` at the end. It is run and checked as in the example of
    /// `open`.
    pub fn open_hash<'a, S: Store<File = F>, C: Clock, N: Names>(
        env: &'a mut Env<S, C, N>,
        cache: &'a str,
        sri: Integrity,
    ) -> ReaderOpenHashFuture<'a, S, C, N>
        ensures waits { Waits result env.entry
            (record { cache = cache.entry; sri = sri }) }
    {
        open_async(env, cache, sri)
    }

    /// Reads some bytes into the front of `buf`, and answers how many: none only at the end of the content, or if `buf` is
    /// empty. It is always ready.
    ///
    /// `IoError` has the fault of the read; the reader stays at the same byte. `OutOfMemory` if there is no memory
    /// for its message.
    pub fn poll_read(&mut self, cx: &mut Context<'_>, buf: &mut [u8]) -> Poll<Result<usize>>
        ensures ready { OnPending result ⊥ }
        ensures kept { Keeps cx.old cx.new }
        ensures bytes { IfReady result (λ r. ReadConsumes (F.seen self.old.reader.file).bytes
            (F.seen self.new.reader.file).bytes r buf.new) }
        ensures left { IfReady result (λ r. LeftFalls (F.seen self.old.reader.file).left
            (F.seen self.new.reader.file).left r) }
        ensures earned { IfReady result (λ r. TellsRead F.reads self.old.reader.file
            (length buf.old) r self.new.reader.file) }
        ensures so_far { IfReady result (λ r.
            ReadsMore self.old.reader self.new.reader (passed r buf.new)) }
    {
        let _ = cx;
        match self.reader.read(buf) {
            Ok(count) => Poll::Ready(Ok(count)),
            Err(error) => Poll::Ready(Err(polling(self.alloc, Fault::from(error.kind())))),
        }
    }

    /// Whether the bytes that were read so far meet the integrity that the reader was opened with: Ok of its strongest
    /// algorithm. What wasn't read counts for nothing, so read to the end first. Only the error takes memory. The
    /// example of `open` calls it.
    ///
    /// `IntegrityError` has that integrity and the one of the bytes that were read.
    pub fn check(self) -> Result<Algorithm>
        ensures ok { (i : List Hash) (bytes : List ℕ) → HasRead self.reader i bytes
            → IfOk result (λ a. Meets i bytes × (strongest i ≡ Some a)) }
        ensures met { (i : List Hash) (bytes : List ℕ) → HasRead self.reader i bytes
            → Meets i bytes → IsOk result }
        ensures err { (i : List Hash) (bytes : List ℕ) → HasRead self.reader i bytes
            → IfErr result (IsCheckFailure i (actual i bytes)) }
    {
        let Reader { reader, alloc: _ } = self;
        reader.check()
    }
}

impl<F: OpenedFile> Read for Reader<F> {
    ghost remaining = { λ reader. (F.seen reader.reader.file).bytes };

    /// Reads some bytes into the front of `buf` and returns how many: none only at the end of the content, or if `buf` is
    /// empty. After an error the reader is at the same byte, and may go on.
    fn read(&mut self, buf: &mut [u8]) -> io::Result<usize>
        ensures bound { ReadsAtMost result buf.new }
        ensures bytes { ReadConsumes (F.seen self.old.reader.file).bytes
            (F.seen self.new.reader.file).bytes result buf.new }
        ensures left { LeftFalls (F.seen self.old.reader.file).left
            (F.seen self.new.reader.file).left result }
        ensures earned { F.reads self.old.reader.file (length buf.old) result self.new.reader.file }
        ensures so_far { (i : List Hash) (bytes : List ℕ) → HasRead self.old.reader i bytes
            → HasRead self.new.reader i (bytes ++ passed result buf.new) }
    {
        self.reader.read(buf)
    }

    /// Fills `buf`, in as many reads as that takes. A read that was interrupted is tried again.
    ///
    /// After an error a beginning of `buf` was read, perhaps nothing, and the reader goes on after it. `UnexpectedEof`
    /// says that the content has ended.
    fn read_exact(&mut self, buf: &mut [u8]) -> io::Result<()>
        ensures bytes { OnOk result (Consumes (F.seen self.old.reader.file).bytes
            (F.seen self.new.reader.file).bytes buf.new) }
        ensures so_far { OnOk result (ReadsMore self.old.reader self.new.reader buf.new) }
        ensures part { OnErr result (ReadsPart F.seen self.old.reader self.new.reader buf.new) }
        ensures retried { IfErr result IsRetried }
    {
        self.reader.read_exact(buf)
    }
}
