//! Contents that are written in pieces, with all options at their commit.
ghost use Rattle.std.specs.{Prelude.{◌≡◌, ℕ, List, Some, IfOk, IfErr, IsOk, OnOk, OnErr, length}, Io.{WritesAtMost, KnownBytes.{Appends, WriteAppends}}};
ghost use Rattle.cacache_calls.specs.{declared.reply.Reply.TheVariants.{Stored}, Promises.{Stores}, Runs.{reply_of}};
ghost use Rattle.cacache_sync.specs.{content.{OpenReads.{passed}, OpenWrites.{HasTaken, IsSameWriter, RemovesTemp, TriesToRemove, Takes, TakesPart, WholeFails, IsWriteError, IsRetried}}, put.KeyedWriters.{nothing_said, OpensAt, OpensKeyed, CommitsWriter, writer_commit}};

use crate::content::writer::{Writer, abandon, commit, open, write_or_abandon};
use crate::put::opts::WriteOpts;
use cacache_calls::Options;
use cacache_core::errors::Result;
use cacache_core::integrity::{Algorithm, Integrity};
use cacache_core::keeping::{beside, let_go};
use cacache_core::text::Text;
use cacache_jobs::moment_of;
use cacache_store::env::{Clock, Env, Names};
use cacache_store::store::{Store, TempFile};
use std::alloc::Global;
use std::io;
use std::io::Write;

/// A content that is being written, and what was said of it; nothing is saved before the commit. What is saved is a
/// content at its address, or an entry in the index: before it there is a temporary file, which no other call reads. A
/// writer that is dropped leaves its file to the store: on real folders it is removed, and on a disk in memory it stays
/// for `clear_sync`.
#[derive(Drop)]
pub struct SyncWriter<T> {
    writer: Writer<T>,
    key: Option<Text>,
    /// The entry's time, in milliseconds since 1970; the clock is asked if none was set.
    time: Option<u128>,
    options: Options,
}

/// Opens a writer with a temporary file of this number.
pub(crate) fn open_writer<S: Store>(
    alloc: Global,
    store: &mut S,
    cache: &str,
    number: u64,
    key: Option<Text>,
    opts: WriteOpts,
) -> Result<SyncWriter<S::Temp>>
    ensures { OpensAt S.Temp.seen cache.now key opts result
        (S.log store.old) (S.log store.new) number }
{
    let time = opts.set_time();
    let (options, key) = beside(opts.into_options(alloc), key)?;
    let writer = open(alloc, store, cache, options.algorithm, number);
    let (writer, (key, options)) = beside(writer, (key, options))?;
    Ok(SyncWriter {
        writer,
        key,
        time,
        options,
    })
}

impl<T: TempFile> SyncWriter<T> {
    /// Opens a writer that commits under the key, with the SHA-256 integrity. Nothing is saved before its `commit`. A
    /// number is asked once, before the first step.
    ///
    /// ```
    /// let mut writer = cacache::SyncWriter::create(&mut env, "my-cache", "key")?;
    /// writer.write_all(b"my ")?;
    /// writer.write_all(b"data")?;
    /// let sri = writer.commit(&mut env)?; // nothing was saved before
    /// let bytes = cacache::read_hash_sync(&mut env, "my-cache", &sri)?; // b"my data"
    /// ```
    ///
    /// `IoError` says which step failed. Contents and index stay as they were; folders may have been made.
    pub fn create<S: Store<Temp = T>, C: Clock, N: Names>(
        env: &mut Env<S, C, N>,
        cache: &str,
        key: &str,
    ) -> Result<SyncWriter<T>>
        ensures opens { OpensKeyed T.seen S.log N.given env.old env.new cache.now (Some key.now)
            nothing_said result }
    {
        WriteOpts::new().open_sync(env, cache, key)
    }

    /// What `create` does, with an algorithm of the caller's for the integrity. Nothing is saved before its `commit`.
    ///
    /// ```
    /// let algo = cacache::Algorithm::Sha512;
    /// let mut writer = cacache::SyncWriter::create_with_algo(&mut env, algo, "my-cache", "key")?;
    /// writer.write_all(b"my data")?;
    /// let sri = writer.commit(&mut env)?; // nothing was saved before
    /// let algorithm = sri.pick_algorithm(); // Algorithm::Sha512
    /// ```
    pub fn create_with_algo<S: Store<Temp = T>, C: Clock, N: Names>(
        env: &mut Env<S, C, N>,
        algo: Algorithm,
        cache: &str,
        key: &str,
    ) -> Result<SyncWriter<T>>
        ensures opens { OpensKeyed T.seen S.log N.given env.old env.new cache.now (Some key.now)
            (record nothing_said { algorithm = algo }) result }
    {
        WriteOpts::new().algorithm(algo).open_sync(env, cache, key)
    }

    /// Makes the bytes that the writer took a content, compares it with the expected integrity and then with the
    /// expected size, and with a key adds its entry; the entry's size is the count of the bytes. Answers the expected
    /// integrity if there is one and a key, and otherwise that of the bytes. With a key the clock is asked once,
    /// before the first step, if no time was set.
    ///
    /// `IntegrityError` and `SizeMismatch` leave the content there, without an entry. `SerdeError` if the entry can't be
    /// written, likewise. `IoError` says which step failed, or took only a part of the line. Then the content may have been
    /// stored or not, and the bucket may end in a beginning of the line, perhaps all of it. `OutOfMemory` may come after
    /// any step.
    pub fn commit<S: Store<Temp = T>, C: Clock, N: Names>(
        self,
        env: &mut Env<S, C, N>,
    ) -> Result<Integrity>
        ensures stored { (bytes : List ℕ) → HasTaken self.writer bytes
            → (moment : ℕ) × Stores (writer_commit self bytes moment) (reply_of Stored result) }
        ensures ran { (bytes : List ℕ) → HasTaken self.writer bytes → CommitsWriter T.seen S.log
            C.given env.old env.new self bytes (reply_of Stored result) }
        ensures names { env.new.names ≡ env.old.names }
        ensures base { env.new.base ≡ env.old.base }
    {
        let SyncWriter {
            writer,
            key,
            time,
            options,
        } = self;
        let moment = moment_of(&mut env.clock, &key, time);
        commit(env, writer, key, moment, options)
    }

    /// Hands all of the data to the file, as `write_all` does, and gives the writer back. If a write fails, the
    /// temporary file is removed, so that a `?` leaves nothing behind.
    ///
    /// ```
    /// let mut writer = cacache::SyncWriter::create(&mut env, "my-cache", "key")?;
    /// writer = writer.write_or_abandon(&mut env, b"my data")?;
    /// let sri = writer.commit(&mut env)?;
    /// ```
    ///
    /// `IoError` has a fault with which writes to such a file fail. Whether the file could be removed isn't reported. Contents and index
    /// stay as they were.
    pub fn write_or_abandon<S: Store<Temp = T>, C: Clock, N: Names>(
        self,
        env: &mut Env<S, C, N>,
        data: &[u8],
    ) -> Result<SyncWriter<T>>
        ensures bytes { IfOk result (λ w. Appends (T.seen self.writer.file).bytes
            (T.seen w.writer.file).bytes «data».now) }
        ensures takes { IfOk result (λ w. Takes self.writer w.writer «data».now) }
        ensures goes_on { IfOk result (λ w. IsSameWriter T.seen self.writer w.writer) }
        ensures said { IfOk result (λ w. w ≡ record self { writer = w.writer }) }
        ensures quiet { OnOk result (env.new.store ≡ env.old.store) }
        ensures removed { IfErr result
            (λ e. TriesToRemove self.writer.path e (S.log env.old.store) (S.log env.new.store)) }
        ensures earned { IfErr result (IsWriteError T.writes) }
        ensures clock { env.new.clock ≡ env.old.clock }
        ensures names { env.new.names ≡ env.old.names }
        ensures base { env.new.base ≡ env.old.base }
    {
        let SyncWriter {
            writer,
            key,
            time,
            options,
        } = self;
        let written = write_or_abandon(env.alloc, &mut env.store, writer, &key, data);
        let (writer, (key, options)) = beside(written, (key, options))?;
        Ok(SyncWriter {
            writer,
            key,
            time,
            options,
        })
    }

    /// Removes the temporary file, and commits nothing.
    ///
    /// `IoError` says that it couldn't be removed. Contents and index stay as they were.
    pub fn abandon<S: Store<Temp = T>, C: Clock, N: Names>(
        self,
        env: &mut Env<S, C, N>,
    ) -> Result<()>
        ensures removes { RemovesTemp self.writer.path result
            (S.log env.old.store) (S.log env.new.store) }
        ensures clock { env.new.clock ≡ env.old.clock }
        ensures names { env.new.names ≡ env.old.names }
        ensures base { env.new.base ≡ env.old.base }
    {
        let SyncWriter {
            writer,
            key,
            time: _,
            options,
        } = self;
        let_go((key, options));
        abandon(env.alloc, &mut env.store, writer)
    }
}

impl<T: TempFile> Write for SyncWriter<T> {
    ghost contents = { λ writer. (T.seen writer.writer.file).bytes };

    /// Hands some bytes from the front of `buf` to the file, and returns how many it took. After an error none was
    /// taken, and the writer goes on.
    fn write(&mut self, buf: &[u8]) -> io::Result<usize>
        ensures bound { WritesAtMost result buf.now }
        ensures bytes { WriteAppends (T.seen self.old.writer.file).bytes
            (T.seen self.new.writer.file).bytes result buf.now }
        ensures takes { Takes self.old.writer self.new.writer (passed result buf.now) }
        ensures goes_on { IsSameWriter T.seen self.old.writer self.new.writer }
        ensures said { self.new ≡ record self.old { writer = self.new.writer } }
        ensures earned { T.writes self.old.writer.file (length buf.now) result
            self.new.writer.file }
    {
        self.writer.write(buf)
    }

    /// Hands all of `buf` to the file, in as many writes as that takes. A write that was interrupted is tried again.
    ///
    /// After an error the file took a beginning of `buf`, perhaps nothing, and the writer goes on. `WriteZero` says that
    /// a write took nothing.
    fn write_all(&mut self, buf: &[u8]) -> io::Result<()>
        ensures bytes { OnOk result (Appends (T.seen self.old.writer.file).bytes
            (T.seen self.new.writer.file).bytes buf.now) }
        ensures takes { OnOk result (Takes self.old.writer self.new.writer buf.now) }
        ensures part { OnErr result
            (TakesPart T.seen self.old.writer self.new.writer buf.now) }
        ensures goes_on { IsSameWriter T.seen self.old.writer self.new.writer }
        ensures said { self.new ≡ record self.old { writer = self.new.writer } }
        ensures earned { IfErr result (WholeFails T.writes self.new.writer.file) }
        ensures retried { IfErr result IsRetried }
    {
        self.writer.write_all(buf)
    }

    /// Does nothing: each write goes to the file itself.
    fn flush(&mut self) -> io::Result<()>
        ensures bytes { (T.seen self.new.writer.file).bytes ≡ (T.seen self.old.writer.file).bytes }
        ensures same { self.new ≡ self.old }
        ensures done { IsOk result }
    {
        Ok(())
    }
}
