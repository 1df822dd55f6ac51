//! A cache over another one, which is only read.
ghost use Rattle.std.specs.Prelude.{◌≡◌};
ghost use Rattle.cacache_core.specs.Integrity.{IsIntegrity};
ghost use Rattle.cacache_sync.specs.Layers.{AsksHash, AsksLayers, FindsKey, ReadsHash, ReadsKey, finds_none, lacks_content, lacks_entry, says_no};

use crate::index::find;
use crate::reading::{exists_sync, read_hash_sync, read_sync};
use cacache_core::errors::{Error, Fault, Result};
use cacache_core::integrity::Integrity;
use cacache_core::keeping::let_go;
use cacache_entry::Metadata;
use cacache_store::env::{Clock, Env, Names};
use cacache_store::store::Store;

/// The paths of two caches: what the upper one lacks is sought in the lower one. Each method reads, and changes nothing in
/// either. Write to the upper cache by its path. A tombstone there is no entry, so it hides no key of the lower one.
#[derive(Clone, Copy)]
pub struct Layered<'a> {
    /// The cache that is asked first.
    pub upper: &'a str,
    /// The cache that is asked if the upper one lacks something.
    pub lower: &'a str,
}

fn lacks_entry(answer: &Result<Vec<u8>>) -> bool
    ensures { result ≡ lacks_entry answer.now }
{
    matches!(answer, Err(Error::EntryNotFound(_, _)))
}

fn lacks_content(answer: &Result<Vec<u8>>) -> bool
    ensures { result ≡ lacks_content answer.now }
{
    matches!(answer, Err(Error::IoError(Fault::NotFound, _)))
}

fn finds_none(answer: &Result<Option<Metadata>>) -> bool
    ensures { result ≡ finds_none answer.now }
{
    matches!(answer, Ok(None))
}

fn says_no(answer: &Result<bool>) -> bool
    ensures { result ≡ says_no answer.now }
{
    matches!(answer, Ok(false))
}

impl Layered<'_> {
    /// The bytes of the key, as `read_sync` gives them, from the upper cache if that has an entry of the key, and otherwise
    /// from the lower one.
    ///
    /// Errors are those of `read_sync`. `EntryNotFound` names the lower cache, and says that neither has an entry.
    pub fn read_sync<S: Store, C: Clock, N: Names>(
        &self,
        env: &mut Env<S, C, N>,
        key: &str,
    ) -> Result<Vec<u8>>
        ensures { AsksLayers self.now (ReadsKey S.log key.now) lacks_entry env.old env.new result }
    {
        let first = read_sync(env, self.upper, key);
        if !lacks_entry(&first) {
            return first;
        }
        let_go(first);
        read_sync(env, self.lower, key)
    }

    /// The bytes of the integrity, as `read_hash_sync` gives them, from the upper cache if the content is there, and
    /// otherwise from the lower one.
    ///
    /// Errors are those of `read_hash_sync`. `IoError` with `NotFound` says that neither has the content.
    pub fn read_hash_sync<S: Store, C: Clock, N: Names>(
        &self,
        env: &mut Env<S, C, N>,
        sri: &Integrity,
    ) -> Result<Vec<u8>>
        ensures { AsksLayers self.now (ReadsHash S.log sri.now) lacks_content
            env.old env.new result }
    {
        let first = read_hash_sync(env, self.upper, sri);
        if !lacks_content(&first) {
            return first;
        }
        let_go(first);
        read_hash_sync(env, self.lower, sri)
    }

    /// What the index of the upper cache has of the key, or if it has nothing, what that of the lower one has, as
    /// `metadata_sync` gives it. An entry of the upper cache doesn't mean that its content is there.
    ///
    /// `IoError` says that a bucket couldn't be read.
    pub fn metadata_sync<S: Store, C: Clock, N: Names>(
        &self,
        env: &mut Env<S, C, N>,
        key: &str,
    ) -> Result<Option<Metadata>>
        ensures { AsksLayers self.now (FindsKey S.log key.now) finds_none env.old env.new result }
    {
        let first = find(env, self.upper, key);
        if !finds_none(&first) {
            return first;
        }
        let_go(first);
        find(env, self.lower, key)
    }

    /// Whether the content of the integrity is in one of the caches, as `exists_sync` says it.
    ///
    /// `OutOfMemory` is the only error.
    pub fn exists_sync<S: Store, C: Clock, N: Names>(
        &self,
        env: &mut Env<S, C, N>,
        sri: &Integrity,
    ) -> Result<bool>
        ensures { AsksLayers self.now (AsksHash S.log sri.now) says_no env.old env.new result }
    {
        let first = exists_sync(env, self.upper, sri);
        if !says_no(&first) {
            return first;
        }
        let_go(first);
        exists_sync(env, self.lower, sri)
    }
}
