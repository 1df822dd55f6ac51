//! The target of a link, and the commit that it becomes.
ghost use Rattle.std.specs.Prelude.{◌≡◌, ℕ, List, IfOk, length};
ghost use Rattle.cacache_core.specs.Integrity.{integrity_under};
ghost use Rattle.cacache_calls.specs.Linking.{OnceRead, based as based_of, commit_for, linked_to, target_at, with_size as with_size_of};

use crate::carried::Commit;
use crate::command::Options;
use cacache_core::integrity::Integrity;
use cacache_core::keeping::beside;
use cacache_core::paths;
use cacache_core::text::Text;
use std::alloc::{AllocError, Global};

/// A file to link to, and the options of the link.
pub struct Target<M> {
    /// The cache's folder.
    pub cache: Text,
    /// The key of the entry that is added afterwards. Without a key no entry is added.
    pub key: Option<Text>,
    /// The file's path.
    pub path: Text,
    /// The entry's time, in milliseconds since 1970. An open linker has none yet if its commit is to ask the clock.
    pub moment: M,
    /// The options of the link and of its entry.
    pub options: Options,
}

// Written out, so that dropping a target is a call of its own: the proof of a function that drops one doesn't go
// through its fields.
impl<M: Drop> Drop for Target<M> {
    fn drop(self) {
        let Target {
            cache: _cache,
            key: _key,
            path: _path,
            moment: _moment,
            options: _options,
        } = self;
    }
}

impl<M: Drop> Target<M> {
    /// A link to be made in this cache. A target without a leading `/` is resolved against the base folder.
    pub fn new(
        alloc: Global,
        base: &str,
        cache: &str,
        key: Option<Text>,
        target: Text,
        moment: M,
        options: Options,
    ) -> Result<Target<M>, AllocError>
        ensures { IfOk result
            (λ t. t ≡ linked_to base.now cache.now key target moment options) }
    {
        let kept = (key, target, moment, options);
        let (cache, (key, target, moment, options)) = beside(Text::from_str(alloc, cache), kept)?;
        let (path, (cache, key, moment, options)) = beside(
            based(alloc, base, target),
            (cache, key, moment, options),
        )?;
        Ok(Target {
            cache,
            key,
            path,
            moment,
            options,
        })
    }

    /// The same target with the size that the link is expected to have.
    pub fn with_size(self, size: usize) -> Target<M>
        ensures { result ≡ with_size_of self size }
    {
        let Target {
            cache,
            key,
            path,
            moment,
            options,
        } = self;
        Target {
            cache,
            key,
            path,
            moment,
            options: options.with_size(size),
        }
    }

    /// The same target with this time.
    pub fn at(self, moment: u128) -> Target<u128>
        ensures { result ≡ target_at self moment }
    {
        let Target {
            cache,
            key,
            path,
            moment: _before,
            options,
        } = self;
        Target {
            cache,
            key,
            path,
            moment,
            options,
        }
    }
}

impl Target<u128> {
    /// Two results: the commit of a link to the target, with the integrity and the size that were read; and the
    /// target's path. The commit is never durable.
    pub fn into_commit(self, computed: Integrity, count: usize) -> (Commit, Text)
        ensures commit { OnceRead self.options.algorithm computed count
            (λ bytes. result.0 ≡ commit_for self bytes) }
        ensures path { result.1 ≡ self.path }
    {
        let Target {
            cache,
            key,
            path,
            moment,
            mut options,
        } = self;
        options.durable = false;
        let commit = Commit {
            cache,
            key,
            computed,
            count,
            moment,
            options,
        };
        (commit, path)
    }
}

/// The path of a target. A target that doesn't begin with `/` is resolved against the base folder.
pub fn based(alloc: Global, base: &str, target: Text) -> Result<Text, AllocError>
    ensures { IfOk result (λ path. path ≡ based_of base.now target) }
{
    match target.as_str().as_bytes() {
        [b'/', ..] => Ok(target),
        _ => paths::join(alloc, base, target.as_str()),
    }
}
