//! Futures of the exports: of the content that a key names, and of that of an integrity.
ghost use Rattle.std.specs.Prelude.{◌≡◌, true, false, IfOk};
ghost use Rattle.cacache_calls.specs.{declared.{command.How.TheVariants.{Copy, Reflink, HardLink}, reply.Reply.TheVariants.{Copied, Done}}, Replies.{done}, Runs.{reply_of}};
ghost use Rattle.cacache_jobs.specs.{ReadFirst.{Verified}, Environment.{Calls}};
ghost use Rattle.cacache_sync.specs.{declared.exporting.Named.TheVariants.{Key, Hash}, Exports.{exporting, named_source, IsFormed}};
ghost use Rattle.cacache_async.specs.Futures.{Waits};

use crate::call::Call;
use crate::future::CallFuture;
use cacache_calls::How;
use cacache_core::errors::Result;
use cacache_core::integrity::Integrity;
use cacache_store::env::{Clock, Env, Names};
use cacache_store::store::Store;
use cacache_sync::{Named, copy_content, link_content};

/// What a copy is called with: a cache, what names the content, whether it is verified first, and a path.
#[derive(Clone, Copy)]
pub struct CopyCall<'a> {
    cache: &'a str,
    named: Named<'a>,
    checked: bool,
    to: &'a str,
}

impl<'a> CopyCall<'a> {
    fn of(cache: &'a str, named: Named<'a>, checked: bool, to: &'a str) -> CopyCall<'a>
        ensures { result
            ≡ record { cache = cache.entry; named = named.entry; checked = checked; to = to.entry } }
    {
        CopyCall {
            cache,
            named,
            checked,
            to,
        }
    }
}

impl<'a, S: Store, C: Clock, N: Names> Call<S, C, N> for CopyCall<'a> {
    type Output = u64;

    ghost makes = { λ c old r new. IsFormed c.named
        × (c.checked ≡ true → IfOk r (λ count. Verified c.cache.now (named_source c.named)
        (Copied count) (S.log old.store) (S.log new.store)))
        × Calls S.log old new c.cache.now
        (exporting Copy c.checked (named_source c.named) c.to.now) (reply_of Copied r) };

    fn make(self, env: &mut Env<S, C, N>) -> Result<u64> {
        copy_content(env, self.cache, self.named, self.checked, self.to)
    }
}

/// What a reflink is called with: a cache, what names the content, whether it is verified first, and a path.
#[derive(Clone, Copy)]
pub struct ReflinkCall<'a> {
    cache: &'a str,
    named: Named<'a>,
    checked: bool,
    to: &'a str,
}

impl<'a> ReflinkCall<'a> {
    fn of(cache: &'a str, named: Named<'a>, checked: bool, to: &'a str) -> ReflinkCall<'a>
        ensures { result
            ≡ record { cache = cache.entry; named = named.entry; checked = checked; to = to.entry } }
    {
        ReflinkCall {
            cache,
            named,
            checked,
            to,
        }
    }
}

impl<'a, S: Store, C: Clock, N: Names> Call<S, C, N> for ReflinkCall<'a> {
    type Output = ();

    ghost makes = { λ c old r new. IsFormed c.named
        × (c.checked ≡ true → IfOk r (λ _. Verified c.cache.now (named_source c.named) Done
        (S.log old.store) (S.log new.store)))
        × Calls S.log old new c.cache.now
        (exporting Reflink c.checked (named_source c.named) c.to.now) (reply_of done r) };

    fn make(self, env: &mut Env<S, C, N>) -> Result<()> {
        let how = How::Reflink;
        link_content(env, self.cache, self.named, how, self.checked, self.to)
    }
}

/// What a hard link is called with: a cache, what names the content, which is verified first, and a path.
#[derive(Clone, Copy)]
pub struct HardLinkCall<'a> {
    cache: &'a str,
    named: Named<'a>,
    to: &'a str,
}

impl<'a, S: Store, C: Clock, N: Names> Call<S, C, N> for HardLinkCall<'a> {
    type Output = ();

    ghost makes = { λ c old r new. IsFormed c.named
        × IfOk r (λ _. Verified c.cache.now (named_source c.named) Done
        (S.log old.store) (S.log new.store))
        × Calls S.log old new c.cache.now
        (exporting HardLink true (named_source c.named) c.to.now) (reply_of done r) };

    fn make(self, env: &mut Env<S, C, N>) -> Result<()> {
        link_content(env, self.cache, self.named, How::HardLink, true, self.to)
    }
}

/// The future of `copy`.
pub type CopyFuture<'a, S, C, N> = CallFuture<'a, S, C, N, CopyCall<'a>>;

/// The future of `copy_hash`.
pub type CopyHashFuture<'a, S, C, N> = CallFuture<'a, S, C, N, CopyCall<'a>>;

/// The future of `copy_unchecked`.
pub type CopyUncheckedFuture<'a, S, C, N> = CallFuture<'a, S, C, N, CopyCall<'a>>;

/// The future of `copy_hash_unchecked`.
pub type CopyHashUncheckedFuture<'a, S, C, N> = CallFuture<'a, S, C, N, CopyCall<'a>>;

/// The future of `reflink`.
pub type ReflinkFuture<'a, S, C, N> = CallFuture<'a, S, C, N, ReflinkCall<'a>>;

/// The future of `reflink_hash`.
pub type ReflinkHashFuture<'a, S, C, N> = CallFuture<'a, S, C, N, ReflinkCall<'a>>;

/// The future of `reflink_unchecked`.
pub type ReflinkUncheckedFuture<'a, S, C, N> = CallFuture<'a, S, C, N, ReflinkCall<'a>>;

/// The future of `hard_link`.
pub type HardLinkFuture<'a, S, C, N> = CallFuture<'a, S, C, N, HardLinkCall<'a>>;

/// The future of `hard_link_hash`.
pub type HardLinkHashFuture<'a, S, C, N> = CallFuture<'a, S, C, N, HardLinkCall<'a>>;

/// `copy_sync` as a future, run as in the example of `read`.
pub fn copy<'a, S: Store, C: Clock, N: Names>(
    env: &'a mut Env<S, C, N>,
    cache: &'a str,
    key: &'a str,
    to: &'a str,
) -> CopyFuture<'a, S, C, N>
    ensures waits { Waits result env.entry
        (record { cache = cache.entry; named = Key key.entry; checked = true; to = to.entry }) }
{
    CallFuture::new(env, CopyCall::of(cache, Named::Key(key), true, to))
}

/// `copy_hash_sync` as a future, run as in the example of `read`.
pub fn copy_hash<'a, S: Store, C: Clock, N: Names>(
    env: &'a mut Env<S, C, N>,
    cache: &'a str,
    sri: &'a Integrity,
    to: &'a str,
) -> CopyHashFuture<'a, S, C, N>
    ensures waits { Waits result env.entry
        (record { cache = cache.entry; named = Hash sri.entry; checked = true; to = to.entry }) }
{
    CallFuture::new(env, CopyCall::of(cache, Named::Hash(sri), true, to))
}

/// `copy_unchecked_sync` as a future, run as in the example of `read`.
pub fn copy_unchecked<'a, S: Store, C: Clock, N: Names>(
    env: &'a mut Env<S, C, N>,
    cache: &'a str,
    key: &'a str,
    to: &'a str,
) -> CopyUncheckedFuture<'a, S, C, N>
    ensures waits { Waits result env.entry
        (record { cache = cache.entry; named = Key key.entry; checked = false; to = to.entry }) }
{
    CallFuture::new(env, CopyCall::of(cache, Named::Key(key), false, to))
}

/// `copy_hash_unchecked_sync` as a future, run as in the example of `read`.
pub fn copy_hash_unchecked<'a, S: Store, C: Clock, N: Names>(
    env: &'a mut Env<S, C, N>,
    cache: &'a str,
    sri: &'a Integrity,
    to: &'a str,
) -> CopyHashUncheckedFuture<'a, S, C, N>
    ensures waits { Waits result env.entry
        (record { cache = cache.entry; named = Hash sri.entry; checked = false; to = to.entry }) }
{
    CallFuture::new(env, CopyCall::of(cache, Named::Hash(sri), false, to))
}

/// `reflink_sync` as a future, run as in the example of `read`. Real folders make no reflinks: there its last step
/// always fails with `Unsupported`.
pub fn reflink<'a, S: Store, C: Clock, N: Names>(
    env: &'a mut Env<S, C, N>,
    cache: &'a str,
    key: &'a str,
    to: &'a str,
) -> ReflinkFuture<'a, S, C, N>
    ensures waits { Waits result env.entry
        (record { cache = cache.entry; named = Key key.entry; checked = true; to = to.entry }) }
{
    CallFuture::new(env, ReflinkCall::of(cache, Named::Key(key), true, to))
}

/// `reflink_hash_sync` as a future, run as in the example of `read`. Real folders make no reflinks: there its last step
/// always fails with `Unsupported`.
pub fn reflink_hash<'a, S: Store, C: Clock, N: Names>(
    env: &'a mut Env<S, C, N>,
    cache: &'a str,
    sri: &'a Integrity,
    to: &'a str,
) -> ReflinkHashFuture<'a, S, C, N>
    ensures waits { Waits result env.entry
        (record { cache = cache.entry; named = Hash sri.entry; checked = true; to = to.entry }) }
{
    CallFuture::new(env, ReflinkCall::of(cache, Named::Hash(sri), true, to))
}

/// `reflink_unchecked_sync` as a future, run as in the example of `read`. Real folders make no reflinks: there its last
/// step always fails with `Unsupported`.
pub fn reflink_unchecked<'a, S: Store, C: Clock, N: Names>(
    env: &'a mut Env<S, C, N>,
    cache: &'a str,
    key: &'a str,
    to: &'a str,
) -> ReflinkUncheckedFuture<'a, S, C, N>
    ensures waits { Waits result env.entry
        (record { cache = cache.entry; named = Key key.entry; checked = false; to = to.entry }) }
{
    CallFuture::new(env, ReflinkCall::of(cache, Named::Key(key), false, to))
}

/// `hard_link_sync` as a future. On real folders both names are one file: whoever changes it through this one damages
/// the cache.
pub fn hard_link<'a, S: Store, C: Clock, N: Names>(
    env: &'a mut Env<S, C, N>,
    cache: &'a str,
    key: &'a str,
    to: &'a str,
) -> HardLinkFuture<'a, S, C, N>
    ensures waits { Waits result env.entry
        (record { cache = cache.entry; named = Key key.entry; to = to.entry }) }
{
    let named = Named::Key(key);
    CallFuture::new(env, HardLinkCall { cache, named, to })
}

/// `hard_link_hash_sync` as a future. On real folders both names are one file: whoever changes it through this one
/// damages the cache.
pub fn hard_link_hash<'a, S: Store, C: Clock, N: Names>(
    env: &'a mut Env<S, C, N>,
    cache: &'a str,
    sri: &'a Integrity,
    to: &'a str,
) -> HardLinkHashFuture<'a, S, C, N>
    ensures waits { Waits result env.entry
        (record { cache = cache.entry; named = Hash sri.entry; to = to.entry }) }
{
    let named = Named::Hash(sri);
    CallFuture::new(env, HardLinkCall { cache, named, to })
}
