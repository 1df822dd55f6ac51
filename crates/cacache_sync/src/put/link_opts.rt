//! Links that are opened with options.
ghost use Rattle.std.specs.Prelude.{None, Some};
ghost use Rattle.cacache_sync.specs.put.{OpenLinkers.{BeginsLink, OpensLink, asks_file, linked_by}, KeyedWriters.{options_of}};
ghost use Rattle.cacache_calls.specs.Linking.{linked_to};

use crate::put::linker::{SyncToLinker, new_target, open_target};
use crate::put::opts::WriteOpts;
use cacache_core::errors::Result;
use cacache_core::keeping::beside;
use cacache_core::text::Text;
use cacache_store::env::{Clock, Env, Names};
use cacache_store::store::Store;

impl WriteOpts {
    /// Opens the target of a link under the key, with these options. A target without a `/` in front starts at the base
    /// folder of `env`. Nothing is saved before the linker's `commit`.
    ///
    /// `IoError` says that the target couldn't be opened. Nothing changes.
    pub fn link_to_sync<S: Store, C: Clock, N: Names>(
        self,
        env: &mut Env<S, C, N>,
        cache: &str,
        key: &str,
        target: &str,
    ) -> Result<SyncToLinker<S::File>>
        ensures opens { OpensLink S.File.seen S.log env.old env.new (linked_by env.old.base
            cache.now (Some key.now) target.now self) result }
        ensures begins { BeginsLink S.File.seen S.log env.old env.new asks_file (linked_to
            env.old.base cache.now (Some key.now) target.now self.time (options_of self)) result }
    {
        let alloc = env.alloc;
        let time = self.set_time();
        let (key, opts) = beside(Text::from_str(alloc, key), self)?;
        let (options, key) = beside(opts.into_options(alloc), Some(key))?;
        let linked = new_target(alloc, env.base.as_str(), cache, key, target, time, options)?;
        open_target(alloc, &mut env.store, linked)
    }

    /// What `link_to_sync` does, without a key.
    pub fn link_to_hash_sync<S: Store, C: Clock, N: Names>(
        self,
        env: &mut Env<S, C, N>,
        cache: &str,
        target: &str,
    ) -> Result<SyncToLinker<S::File>>
        ensures opens { OpensLink S.File.seen S.log env.old env.new (linked_by env.old.base
            cache.now None target.now self) result }
        ensures begins { BeginsLink S.File.seen S.log env.old env.new asks_file
            (linked_to env.old.base cache.now None target.now (Some 0) (options_of self)) result }
    {
        let alloc = env.alloc;
        let options = self.into_options(alloc)?;
        let base = env.base.as_str();
        let linked = new_target(alloc, base, cache, None, target, Some(0), options)?;
        open_target(alloc, &mut env.store, linked)
    }
}
