//! Links whose target is read in pieces before they are made.
ghost use Rattle.std.specs.Prelude.{◌≡◌, ℕ, List, None, Some, IfOk};
ghost use Rattle.cacache_core.specs.declared.integrity.algorithm.Algorithm.TheVariants.{Sha256};
ghost use Rattle.cacache_calls.specs.{declared.reply.Reply.TheVariants.{Stored}, Runs.{reply_of}, Linking.{linked_to}, Common.{blank}};
ghost use Rattle.cacache_sync.specs.put.{OpenLinkers.{BeginsLink, CommitsLink, HasHashed, OpensLink, OpensLinker, OpensSized, OpensTarget, OpensWithSize, StoresWhole, asks_file, asks_size, linked_by, LinksRest}, KeyedWriters.{nothing_said, saying}};

mod reading;

use crate::put::opts::WriteOpts;
use crate::put::rest::read_rest;
use cacache_calls::{Options, Target};
use cacache_core::errors::{Error, Result};
use cacache_core::hasher::Hasher;
use cacache_core::integrity::{Algorithm, Integrity};
use cacache_core::keeping::{beside, let_go};
use cacache_core::text::Text;
use cacache_jobs::{link_from, moment, opened_file, told_size};
use cacache_store::env::{Clock, Env, Names};
use cacache_store::store::{OpenedFile, Step, Store};
use std::alloc::{AllocError, Global};

/// A file that is to be linked to; if the entry's time isn't set, the commit asks the clock for it.
pub(crate) type LinkTarget = Target<Option<u128>>;

/// An open file that is to become a content by a link to it. It may be read in pieces; `commit` reads the rest, and
/// nothing is saved before it. Each byte is hashed once.
#[derive(Drop)]
pub struct SyncToLinker<F> {
    linked: LinkTarget,
    hasher: Hasher,
    /// How many bytes were read, or `usize::MAX` if there are more.
    count: usize,
    file: F,
}

/// What is to be linked in the cache; a target without a `/` in front starts at the base folder.
pub(crate) fn new_target(
    alloc: Global,
    base: &str,
    cache: &str,
    key: Option<Text>,
    target: &str,
    time: Option<u128>,
    options: Options,
) -> std::result::Result<LinkTarget, AllocError>
    ensures { IfOk result
        (λ l. l ≡ linked_to base.now cache.now key target.now time options) }
{
    let (target, (key, options)) = beside(Text::from_str(alloc, target), (key, options))?;
    Target::new(alloc, base, cache, key, target, time, options)
}

/// Opens the target.
pub(crate) fn open_target<S: Store>(
    alloc: Global,
    store: &mut S,
    linked: LinkTarget,
) -> Result<SyncToLinker<S::File>>
    ensures opens { OpensTarget S.File.seen linked result (S.log store.old) (S.log store.new) }
    ensures begins { OpensLinker S.File.seen linked.moment (asks_file linked) result
        (S.log store.old) (S.log store.new) }
{
    let path = linked.path.clone()?;
    match opened_file(alloc, &linked.path, store.step(Step::Open(path))) {
        Ok(file) => {
            let hasher = Hasher::new(linked.options.algorithm);
            Ok(SyncToLinker {
                linked,
                hasher,
                count: 0,
                file,
            })
        }
        Err(error) => Err(error),
    }
}

/// Asks the target's size, which the link is to have, and opens it.
fn ask_size_and_open<S: Store>(
    alloc: Global,
    store: &mut S,
    linked: LinkTarget,
) -> Result<SyncToLinker<S::File>>
    ensures opens { OpensSized S.File.seen linked result (S.log store.old) (S.log store.new) }
    ensures begins { OpensLinker S.File.seen linked.moment (asks_size linked) result
        (S.log store.old) (S.log store.new) }
{
    let path = linked.path.clone()?;
    match told_size(alloc, &linked.path, store.step(Step::Size(path))) {
        Ok(size) => open_target(alloc, store, linked.with_size(size as usize)),
        Err(error) => Err(error),
    }
}

/// Asks the size of a target that has blank options, and opens it.
fn open_blank<S: Store, C, N>(
    env: &mut Env<S, C, N>,
    cache: &str,
    key: Option<Text>,
    target: &str,
    time: Option<u128>,
) -> Result<SyncToLinker<S::File>>
    ensures opens { OpensWithSize S.File.seen S.log env.old env.new
        (linked_to env.old.base cache.now key target.now time (blank Sha256)) result }
    ensures begins { BeginsLink S.File.seen S.log env.old env.new asks_size
        (linked_to env.old.base cache.now key target.now time (blank Sha256)) result }
{
    let alloc = env.alloc;
    let base = env.base.as_str();
    let options = Options::blank(Algorithm::Sha256);
    let linked = new_target(alloc, base, cache, key, target, time, options)?;
    ask_size_and_open(alloc, &mut env.store, linked)
}

/// Reads the rest of the target after so many bytes that were hashed, and makes the link.
fn link_rest<S: Store, C, N>(
    env: &mut Env<S, C, N>,
    target: Target<u128>,
    hasher: Hasher,
    count: usize,
    file: S::File,
) -> Result<Integrity>
    ensures ran { LinksRest target hasher count (S.File.seen file) (reply_of Stored result)
        (S.log env.old.store) (S.log env.new.store) }
    ensures clock { env.new.clock ≡ env.old.clock }
    ensures names { env.new.names ≡ env.old.names }
    ensures base { env.new.base ≡ env.old.base }
{
    let mut hasher = hasher;
    match read_rest(env.alloc, &mut env.store, file, &mut hasher, count) {
        Ok(whole) => match hasher.result(env.alloc) {
            Ok(computed) => {
                let (commit, path) = target.into_commit(computed, whole);
                link_from(env, commit, path).stored()
            }
            Err(error) => Err(error),
        },
        Err(error) => Err(error),
    }
}

impl<F: OpenedFile> SyncToLinker<F> {
    /// Opens the target of a link without a key, with an integrity that is to be under this algorithm. A target
    /// without a `/` in front starts at the base folder of `env`. Nothing is saved before its `commit`.
    ///
    /// `IoError` says that the target couldn't be opened. Nothing changes.
    pub fn new<S: Store<File = F>, C: Clock, N: Names>(
        env: &mut Env<S, C, N>,
        cache: &str,
        algo: Algorithm,
        target: &str,
    ) -> Result<SyncToLinker<F>>
        ensures opens { OpensLink F.seen S.log env.old env.new (linked_by env.old.base cache.now
            None target.now (saying algo)) result }
        ensures begins { BeginsLink F.seen S.log env.old env.new asks_file
            (linked_to env.old.base cache.now None target.now (Some 0) (blank algo)) result }
    {
        WriteOpts::new()
            .algorithm(algo)
            .link_to_hash_sync(env, cache, target)
    }

    /// Opens the target of a link under the key. Its size is asked first, and is the one that the link is to have. A
    /// target without a `/` in front starts at the base folder of `env`. Nothing is saved before its `commit`.
    ///
    /// ```
    /// let mut linker = cacache::SyncToLinker::open(&mut env, "my-cache", "key", "/my-file")?;
    /// let mut bytes = Vec::new(alloc);
    /// linker.read_to_end(&mut bytes)?; // bytes are those of /my-file
    /// let sri = linker.commit(&mut env)?; // nothing was saved before
    /// ```
    ///
    /// `IoError` says whether the size couldn't be had or the target couldn't be opened. Nothing changes.
    pub fn open<S: Store<File = F>, C: Clock, N: Names>(
        env: &mut Env<S, C, N>,
        cache: &str,
        key: &str,
        target: &str,
    ) -> Result<SyncToLinker<F>>
        ensures opens { OpensWithSize F.seen S.log env.old env.new (linked_by env.old.base cache.now
            (Some key.now) target.now nothing_said) result }
        ensures begins { BeginsLink F.seen S.log env.old env.new asks_size (linked_to
            env.old.base cache.now (Some key.now) target.now None (blank Sha256)) result }
    {
        let key = Some(Text::from_str(env.alloc, key)?);
        open_blank(env, cache, key, target, None)
    }

    /// What `open` does, without a key.
    ///
    /// ```
    /// let linker = cacache::SyncToLinker::open_hash(&mut env, "my-cache", "/my-file")?;
    /// let sri = linker.commit(&mut env)?; // nothing was saved before
    /// ```
    pub fn open_hash<S: Store<File = F>, C: Clock, N: Names>(
        env: &mut Env<S, C, N>,
        cache: &str,
        target: &str,
    ) -> Result<SyncToLinker<F>>
        ensures opens { OpensWithSize F.seen S.log env.old env.new (linked_by env.old.base cache.now
            None target.now nothing_said) result }
        ensures begins { BeginsLink F.seen S.log env.old env.new asks_size
            (linked_to env.old.base cache.now None target.now (Some 0) (blank Sha256)) result }
    {
        open_blank(env, cache, None, target, Some(0))
    }

    /// Reads the rest of the target, makes a link to it the content of its bytes, and with a key adds an entry.
    /// Answers the integrity of the whole target, or with a key the expected one, if one was given. The entry has the
    /// time that was set; if none was, the clock is asked for it once, before the first step.
    ///
    /// `IoError` says which step failed, or took only a part of the line. `IntegrityError` if the expected integrity
    /// doesn't list the target's, `SizeMismatch` if the target has another size than expected, `SerdeError` if the
    /// entry can't be written: then the link is there. After other errors it may be there or not, and the bucket may
    /// end in a beginning of the line, perhaps all of it. `OutOfMemory` may come after any step.
    pub fn commit<S: Store<File = F>, C: Clock, N: Names>(
        self,
        env: &mut Env<S, C, N>,
    ) -> Result<Integrity>
        ensures whole { (bytes : List ℕ) → HasHashed self bytes → IfOk result
            (λ i. StoresWhole F.seen self bytes i (S.log env.old.store) (S.log env.new.store)) }
        ensures ran { (bytes : List ℕ) → HasHashed self bytes
            → CommitsLink F.seen S.log C.given env.old env.new self bytes (reply_of Stored result) }
    {
        let SyncToLinker {
            linked,
            hasher,
            count,
            file,
        } = self;
        let moment = moment(&mut env.clock, linked.moment);
        // a longer target has no size that could be given
        if count == usize::MAX {
            let_go((linked, hasher, file));
            return Err(Error::OutOfMemory);
        }
        link_rest(env, linked.at(moment), hasher, count, file)
    }
}
