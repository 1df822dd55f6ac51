//! What the caller says about a content that is written by polls.
ghost use Rattle.std.specs.Prelude.{◌≡◌, IfOk};
ghost use Rattle.cacache_writers.specs.Opening.{commit_about, IsAbout};

use cacache_calls::{Commit, Options};
use cacache_core::integrity::Integrity;
use cacache_core::keeping::beside;
use cacache_core::text::Text;
use cacache_sync::put::opts::WriteOpts;
use std::alloc::{AllocError, Global};

/// What the caller said about a content that is being written.
pub struct About {
    pub cache: Text,
    pub key: Option<Text>,
    /// The entry's time, in milliseconds since 1970; the clock is asked if none was set.
    pub time: Option<u128>,
    pub options: Options,
}

// Written out, so that it is a call of its own: whoever lets one go has a proof that doesn't go through its fields.
impl Drop for About {
    fn drop(self) {
        let About {
            cache: _cache,
            key: _key,
            time: _,
            options: _options,
        } = self;
    }
}

impl About {
    /// What these options say about a content of the cache under the key.
    pub(crate) fn new(
        alloc: Global,
        cache: &str,
        key: Option<Text>,
        opts: WriteOpts,
    ) -> Result<About, AllocError>
        ensures { IfOk result (IsAbout cache.now key opts) }
    {
        let time = opts.set_time();
        let (options, key) = beside(opts.into_options(alloc), key)?;
        let (cache, (key, options)) = beside(Text::from_str(alloc, cache), (key, options))?;
        Ok(About {
            cache,
            key,
            time,
            options,
        })
    }

    /// The commit of so many bytes with this integrity.
    pub(crate) fn into_commit(self, computed: Integrity, count: usize, moment: u128) -> Commit
        ensures { result ≡ commit_about self computed count moment }
    {
        let About {
            cache,
            key,
            time: _,
            options,
        } = self;
        Commit {
            cache,
            key,
            computed,
            count,
            moment,
            options,
        }
    }
}
