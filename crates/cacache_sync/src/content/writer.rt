//! Contents that are written in pieces, to a temporary file that a commit moves to its place.
ghost use Rattle.std.specs.{Prelude.{◌≡◌, ℕ, List, None, IfOk, IfErr, IsOk, OnOk, OnErr, length}, Io.{WritesAtMost, KnownBytes.{Appends, WriteAppends}}};
ghost use Rattle.cacache_core.specs.{Hashers.{algorithm_of}, Integrity.{integrity_under}};
ghost use Rattle.cacache_store.specs.declared.store.answer.Answer.TheVariants.{Done};
ghost use Rattle.cacache_calls.specs.{declared.reply.Reply.TheVariants.{Stored}, Promises.{Stores}, Runs.{reply_of}, SingleSteps.{Does, FailsAt}, Steps.{temp_path as temp_path_of}};
ghost use Rattle.cacache_sync.specs.content.{OpenReads.{passed}, OpenWrites.{HasTaken, IsSameWriter, MakesTemp, OpensTemp, OpensNumbered, EndsByCommit, EndsUnkeyed, RemovesTemp, TriesToRemove, given_up, Takes, TakesPart, WholeFails, IsWriteError, IsRetried, make_folder as making_folder, content_commit}};

use cacache_calls::answers::done_of;
use cacache_calls::{Commit, Options, Refusal};
use cacache_core::errors::{Error, Fault, Result};
use cacache_core::hasher::Hasher;
use cacache_core::integrity::{Algorithm, Integrity};
use cacache_core::keeping::let_go;
use cacache_core::text::Text;
use cacache_jobs::{commit_from, made_temp, messages, refused, temp_folder, temp_path};
use cacache_store::env::{Clock, Env, Names};
use cacache_store::store::{Step, Store, TempFile};
use std::alloc::{AllocError, Global};
use std::io;
use std::io::{ErrorKind, Write};

/// A content that is being written. Its bytes go to a temporary file as they come, and each is hashed once; `close`
/// makes the file the content, and before that nothing is saved. A writer that is dropped leaves its file to the store:
/// on real folders it is removed, and on a disk in memory it stays for `clear_sync`.
#[derive(Drop)]
pub struct Writer<T> {
    cache: Text,
    /// Where the temporary file is.
    path: Text,
    file: T,
    hasher: Hasher,
    /// How many bytes the file took; 2^64 - 1 stays as it is.
    count: usize,
}

/// Makes the folder of temporary files, which every writer does first.
///
/// `IoError` says that it couldn't be made. Contents and index stay as they were.
fn make_folder<S: Store>(alloc: Global, store: &mut S, cache: &str) -> Result<()>
    ensures made { IfOk result
        (λ _. Does (making_folder cache.now) Done (S.log store.old) (S.log store.new)) }
    ensures err { IfErr result
        (λ e. FailsAt (making_folder cache.now) e (S.log store.old) (S.log store.new)) }
{
    let folder = temp_folder(alloc, cache)?;
    match done_of(store.step(Step::MakeDirs(folder))) {
        Ok(()) => Ok(()),
        Err(refusal) => Err(refused(refusal, messages::making_temps(alloc, cache))),
    }
}

/// Makes a temporary file at this path, which is that of some number, after its folder.
///
/// `IoError` says which step failed. Contents and index stay as they were; folders may have been made.
pub fn make_temp<S: Store>(alloc: Global, store: &mut S, cache: &str, path: Text) -> Result<S::Temp>
    ensures { (number : ℕ) → path ≡ temp_path_of cache.now number
        → MakesTemp cache.now number S.Temp.seen result (S.log store.old) (S.log store.new) }
{
    make_folder(alloc, store, cache)?;
    made_temp(alloc, cache, store.step(Step::CreateTemp(path)))
}

/// Opens a writer with a temporary file of this number.
///
/// `IoError` says which step failed. Contents and index stay as they were; folders may have been made.
pub fn open<S: Store>(
    alloc: Global,
    store: &mut S,
    cache: &str,
    algorithm: Algorithm,
    number: u64,
) -> Result<Writer<S::Temp>>
    ensures { OpensTemp cache.now number S.Temp.seen algorithm result
        (S.log store.old) (S.log store.new) }
{
    let cache = Text::from_str(alloc, cache)?;
    let path = temp_path(alloc, cache.as_str(), number)?;
    let named = path.clone()?;
    let file = make_temp(alloc, store, cache.as_str(), named)?;
    Ok(Writer {
        cache,
        path,
        file,
        hasher: Hasher::new(algorithm),
        count: 0,
    })
}

/// Makes the writer's file a content, compares what was said of it, and with a key adds its entry.
///
/// `IntegrityError`, `SizeMismatch` and `SerdeError` leave the content there, without an entry. `IoError` says which step
/// failed, or took only a part of the line. `OutOfMemory` may come after any step.
pub fn commit<S: Store, C, N>(
    env: &mut Env<S, C, N>,
    writer: Writer<S::Temp>,
    key: Option<Text>,
    moment: u128,
    options: Options,
) -> Result<Integrity>
    ensures stored { (bytes : List ℕ) → HasTaken writer bytes
        → Stores (content_commit writer bytes key moment options) (reply_of Stored result) }
    ensures ran { EndsByCommit S.Temp.seen writer key moment options
        (reply_of Stored result) (S.log env.old.store) (S.log env.new.store) }
    ensures clock { env.new.clock ≡ env.old.clock }
    ensures names { env.new.names ≡ env.old.names }
    ensures base { env.new.base ≡ env.old.base }
{
    let Writer {
        cache,
        path: _path,
        file,
        hasher,
        count,
    } = writer;
    let computed = hasher.result(env.alloc)?;
    let commit = Commit {
        cache,
        key,
        computed,
        count,
        moment,
        options,
    };
    commit_from(env, commit, file).stored()
}

/// Removes the writer's file.
///
/// `IoError` says that it couldn't be removed. Contents and index stay as they were.
pub fn abandon<S: Store>(alloc: Global, store: &mut S, writer: Writer<S::Temp>) -> Result<()>
    ensures { RemovesTemp writer.path result (S.log store.old) (S.log store.new) }
{
    let Writer {
        cache: _cache,
        path,
        file: _file,
        hasher: _hasher,
        count: _,
    } = writer;
    let named = path.clone()?;
    match done_of(store.step(Step::RemoveFile(named))) {
        Ok(()) => Ok(()),
        Err(refusal) => {
            let message = removing(alloc, &path);
            Err(refused(refusal, message))
        }
    }
}

/// Hands all of the data to the writer's file, as `write_all` does, and gives the writer back. If a write fails, the
/// file is removed.
///
/// `IoError` has the fault of a write to some file of this type. Whether the file could be removed isn't reported.
/// Contents and index stay as they were.
#[tactic(auto, using(crate::proofs::content::Writes::given_up_tries, crate::proofs::content::Writes::given_up_earned))]
pub fn write_or_abandon<S: Store>(
    alloc: Global,
    store: &mut S,
    writer: Writer<S::Temp>,
    key: &Option<Text>,
    data: &[u8],
) -> Result<Writer<S::Temp>>
    ensures bytes { IfOk result (λ w. Appends (S.Temp.seen writer.file).bytes
        (S.Temp.seen w.file).bytes «data».now) }
    ensures takes { IfOk result (λ w. Takes writer w «data».now) }
    ensures goes_on { IfOk result (λ w. IsSameWriter S.Temp.seen writer w) }
    ensures quiet { OnOk result (store.new ≡ store.old) }
    ensures removed { IfErr result
        (λ e. TriesToRemove writer.path e (S.log store.old) (S.log store.new)) }
    ensures earned { IfErr result (IsWriteError S.Temp.writes) }
{
    let mut writer = writer;
    let Err(error) = writer.write_all(data) else {
        return Ok(writer);
    };
    let refusal = Refusal::Fault(Fault::from(error.kind()));
    let message = messages::writing(alloc, &writer.cache, key);
    let removed = abandon(alloc, store, writer);
    Err(given_up(removed, refused(refusal, message)))
}

/// Why a writer is given up if its write failed with this error: for want of memory if the removal found none.
fn given_up(removed: Result<()>, error: Error) -> Error
    ensures { result ≡ given_up removed error }
{
    match removed {
        Err(Error::OutOfMemory) => Error::OutOfMemory,
        other => {
            let_go(other);
            error
        }
    }
}

/// The file at the path wasn't removed.
fn removing(alloc: Global, path: &Text) -> std::result::Result<Text, AllocError> {
    Ok(Text::new(format!(in alloc; "Failed to remove temp file {path}")?))
}

impl<T: TempFile> Writer<T> {
    /// Opens a writer of a content without a key. A number is asked once, before the first step. `size` has no effect.
    ///
    /// `IoError` says which step failed. Contents and index stay as they were; folders may have been made.
    pub fn new<S: Store<Temp = T>, C: Clock, N: Names>(
        env: &mut Env<S, C, N>,
        cache: &str,
        algo: Algorithm,
        size: Option<usize>,
    ) -> Result<Writer<T>>
        ensures opens { OpensNumbered T.seen S.log N.given env.old env.new cache.now algo result }
        ensures clock { env.new.clock ≡ env.old.clock }
        ensures base { env.new.base ≡ env.old.base }
    {
        let _size = size;
        let number = env.names.fresh();
        open(env.alloc, &mut env.store, cache, algo, number)
    }

    /// Makes the file the content of its bytes, and answers their integrity.
    ///
    /// `IoError` says which step failed. Then the content may have been stored or not; no bucket changes. `OutOfMemory`
    /// may come after any step.
    pub fn close<S: Store<Temp = T>, C: Clock, N: Names>(
        self,
        env: &mut Env<S, C, N>,
    ) -> Result<Integrity>
        ensures stored { (bytes : List ℕ) → HasTaken self bytes
            → IfOk result (λ i. i ≡ integrity_under (algorithm_of self.hasher) bytes) }
        ensures ran { EndsUnkeyed T.seen self (reply_of Stored result)
            (S.log env.old.store) (S.log env.new.store) }
        ensures clock { env.new.clock ≡ env.old.clock }
        ensures names { env.new.names ≡ env.old.names }
        ensures base { env.new.base ≡ env.old.base }
    {
        let options = Options::blank(self.hasher.algorithm());
        commit(env, self, None, 0, options)
    }
}

impl<T: TempFile> Write for Writer<T> {
    ghost contents = { λ writer. (T.seen writer.file).bytes };

    /// Hands some bytes from the front of `buf` to the file, and returns how many it took. After an error none was
    /// taken, and the writer goes on.
    fn write(&mut self, buf: &[u8]) -> io::Result<usize>
        ensures bound { WritesAtMost result buf.now }
        ensures bytes { WriteAppends (T.seen self.old.file).bytes (T.seen self.new.file).bytes
            result buf.now }
        ensures takes { Takes self.old self.new (passed result buf.now) }
        ensures goes_on { IsSameWriter T.seen self.old self.new }
        ensures earned { T.writes self.old.file (length buf.now) result self.new.file }
    {
        let count = self.file.write_some(buf)?;
        self.hasher.update(&buf[..count]);
        self.count = self.count.saturating_add(count);
        Ok(count)
    }

    /// Hands all of `buf` to the file, in as many writes as that takes. A write that was interrupted is tried again.
    ///
    /// After an error the file took a beginning of `buf`, perhaps nothing, and the writer goes on. `WriteZero` says that
    /// a write took nothing.
    fn write_all(&mut self, buf: &[u8]) -> io::Result<()>
        ensures bytes { OnOk result (Appends (T.seen self.old.file).bytes
            (T.seen self.new.file).bytes buf.now) }
        ensures takes { OnOk result (Takes self.old self.new buf.now) }
        ensures part { OnErr result (TakesPart T.seen self.old self.new buf.now) }
        ensures goes_on { IsSameWriter T.seen self.old self.new }
        ensures earned { IfErr result (WholeFails T.writes self.new.file) }
        ensures retried { IfErr result IsRetried }
    {
        let size = buf.len();
        let mut done = 0;
        for _tries in 0..u64::MAX {
            if done == size {
                return Ok(());
            }
            match self.write(&buf[done..]) {
                Ok(0) => {
                    let message = "failed to write whole buffer";
                    return Err(io::Error::new(ErrorKind::WriteZero, message));
                }
                Ok(count) => done += count,
                Err(error) if error.kind() == ErrorKind::Interrupted => {}
                Err(error) => return Err(error),
            }
        }
        // the last write may have taken the rest
        if done == size {
            return Ok(());
        }
        Err(ErrorKind::TimedOut.into())
    }

    /// Does nothing: each write goes to the file itself.
    fn flush(&mut self) -> io::Result<()>
        ensures bytes { (T.seen self.new.file).bytes ≡ (T.seen self.old.file).bytes }
        ensures same { self.new ≡ self.old }
        ensures done { IsOk result }
    {
        Ok(())
    }
}
