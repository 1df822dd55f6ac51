//! Futures of exports that go the cheapest way that is open.
ghost use Rattle.std.specs.Prelude.{◌≡◌, ◌≢◌, IfOk};
ghost use Rattle.cacache_sync.specs.{declared.{exporting.Named.TheVariants.{Key, Hash}, ways.{ExportMode.TheVariants.{Own}, Exported.TheVariants.{HardLinked}}}, Exports.{named_source, IsFormed, ExportsTo}};
ghost use Rattle.cacache_async.specs.Futures.{Waits};

use crate::call::Call;
use crate::future::CallFuture;
use cacache_core::errors::Result;
use cacache_core::integrity::Integrity;
use cacache_store::env::{Clock, Env, Names};
use cacache_store::store::Store;
use cacache_sync::{ExportMode, Exported, Named, export_content};

/// What an export is called with: a cache, what names the content, a path, and what that may have in common with the
/// cache.
#[derive(Clone, Copy)]
pub struct ExportCall<'a> {
    cache: &'a str,
    named: Named<'a>,
    to: &'a str,
    mode: ExportMode,
}

impl<'a> ExportCall<'a> {
    fn of(cache: &'a str, named: Named<'a>, to: &'a str, mode: ExportMode) -> ExportCall<'a>
        ensures { result
            ≡ record { cache = cache.entry; named = named.entry; to = to.entry; mode = mode } }
    {
        ExportCall {
            cache,
            named,
            to,
            mode,
        }
    }
}

impl<'a, S: Store, C: Clock, N: Names> Call<S, C, N> for ExportCall<'a> {
    type Output = Exported;

    ghost makes = { λ c old r new. IsFormed c.named
        × ExportsTo S.log c.cache.now (named_source c.named) c.to.now c.mode old new r
        × (c.mode ≡ Own → IfOk r (λ e. e ≢ HardLinked)) };

    fn make(self, env: &mut Env<S, C, N>) -> Result<Exported> {
        export_content(env, self.cache, self.named, self.to, self.mode)
    }
}

/// The future of `export`.
pub type ExportFuture<'a, S, C, N> = CallFuture<'a, S, C, N, ExportCall<'a>>;

/// The future of `export_hash`.
pub type ExportHashFuture<'a, S, C, N> = CallFuture<'a, S, C, N, ExportCall<'a>>;

/// `export_sync` as a future, run as in the example of `read`.
pub fn export<'a, S: Store, C: Clock, N: Names>(
    env: &'a mut Env<S, C, N>,
    cache: &'a str,
    key: &'a str,
    to: &'a str,
    mode: ExportMode,
) -> ExportFuture<'a, S, C, N>
    ensures waits { Waits result env.entry
        (record { cache = cache.entry; named = Key key.entry; to = to.entry; mode = mode }) }
{
    CallFuture::new(env, ExportCall::of(cache, Named::Key(key), to, mode))
}

/// `export_hash_sync` as a future, run as in the example of `read`.
pub fn export_hash<'a, S: Store, C: Clock, N: Names>(
    env: &'a mut Env<S, C, N>,
    cache: &'a str,
    sri: &'a Integrity,
    to: &'a str,
    mode: ExportMode,
) -> ExportHashFuture<'a, S, C, N>
    ensures waits { Waits result env.entry
        (record { cache = cache.entry; named = Hash sri.entry; to = to.entry; mode = mode }) }
{
    CallFuture::new(env, ExportCall::of(cache, Named::Hash(sri), to, mode))
}
