//! A bucket that is compacted: it is read, and written anew if that changes it. A durable compaction syncs another.
ghost use Rattle.std.specs.Prelude.{◌≡◌, ◌-◌, IfOk, IfErr, IfSome, OnOk, length, option_map};
ghost use Rattle.cacache_core.specs.declared.errors.Error.TheVariants.{OutOfMemory};
ghost use Rattle.cacache_store.specs.declared.store.answer.Answer.TheVariants as answers;
ghost use Rattle.cacache_store.specs.declared.store.step.Step.TheVariants as steps;
ghost use Rattle.cacache_calls.specs.SingleSteps.{Does, FailsAt};
ghost use Rattle.cacache_keep.specs.{Compacting.{Changes, CompactsAt, Settles, StopsBucket, StopsSettling, lean_view, same_bytes}, Rewriting.{Rewrites, StopsRewriting}};

use crate::lines::compact_text;
use crate::rewriting::{rewrite, sync_bucket};
use cacache_calls::answers::bytes_of;
use cacache_core::bytes::Bytes;
use cacache_core::errors::Result;
use cacache_core::text::Text;
use cacache_jobs::refused;
use cacache_store::env::{Clock, Env, Names};
use cacache_store::store::{Step, Store};
use std::alloc::{AllocError, Global};

/// The bucket wasn't read.
fn unread(alloc: Global, path: &Text) -> std::result::Result<Text, AllocError> {
    Ok(Text::new(format!(in alloc; "Failed to read index bucket entries from {path}")?))
}

/// The bytes of the bucket at the path.
pub(crate) fn read<S: Store>(alloc: Global, store: &mut S, path: &Text) -> Result<Bytes>
    ensures reads { IfOk result (λ bytes. Does (steps.ReadAll path.now) (answers.Bytes bytes)
        (S.log store.old) (S.log store.new)) }
    ensures stops { IfErr result
        (λ e. FailsAt (steps.ReadAll path.now) e (S.log store.old) (S.log store.new)) }
{
    let place = path.clone()?;
    match bytes_of(store.step(Step::ReadAll(place))) {
        Ok(bytes) => Ok(bytes),
        Err(refusal) => Err(refused(refusal, unread(alloc, path))),
    }
}

/// The bytes of a bucket that is compacted, and how many that saves.
#[derive(Drop)]
struct Lean {
    text: Vec<u8>,
    saved: u64,
}

/// Whether these are the same bytes.
fn is_same(text: &[u8], bytes: &[u8]) -> bool
    ensures { result ≡ same_bytes text.now bytes.now }
{
    text == bytes
}

/// The bytes of a bucket that is compacted, if that changes it.
fn changed(alloc: Global, durable: bool, bytes: &[u8]) -> Result<Option<Lean>>
    ensures changed { IfOk result
        (λ lean. Changes durable bytes.now (option_map (λ l. l.text.items) lean)) }
    ensures saves { IfOk result (λ lean. IfSome lean
        (λ l. l.saved ≡ length bytes.now - length l.text.items)) }
    ensures memory { IfErr result (λ e. e ≡ OutOfMemory) }
{
    let text = compact_text(alloc, durable, bytes)?;
    if is_same(text.as_slice(), bytes) {
        return Ok(None);
    }
    let saved = bytes.len().saturating_sub(text.len()) as u64;
    Ok(Some(Lean { text, saved }))
}

/// Writes the bucket at the path anew.
fn write_anew<S: Store, C: Clock, N: Names>(
    env: &mut Env<S, C, N>,
    durable: bool,
    cache: &str,
    path: &Text,
    text: Vec<u8>,
) -> Result<()>
    ensures rewrites { OnOk result (Rewrites durable cache.now path.now text.items
        (S.log env.old.store) (S.log env.new.store)) }
    ensures stops { IfErr result (λ e. StopsRewriting durable cache.now path.now text.items e
        (S.log env.old.store) (S.log env.new.store)) }
    ensures clock { env.new.clock ≡ env.old.clock }
    ensures base { env.new.base ≡ env.old.base }
{
    let bytes = Bytes::new(env.alloc, text)?;
    let number = env.names.fresh();
    rewrite(
        env.alloc,
        &mut env.store,
        durable,
        cache,
        number,
        path,
        bytes,
    )
}

/// Writes the bucket at the path anew if it changes, and otherwise syncs it if the compaction is durable. Gives how
/// many bytes the first saved.
fn settle<S: Store, C: Clock, N: Names>(
    env: &mut Env<S, C, N>,
    durable: bool,
    cache: &str,
    path: &Text,
    lean: Option<Lean>,
) -> Result<Option<u64>>
    ensures settles { IfOk result (λ saving. Settles durable cache.now path.now (lean_view lean)
        saving (S.log env.old.store) (S.log env.new.store)) }
    ensures stops { IfErr result (λ e. StopsSettling durable cache.now path.now (lean_view lean) e
        (S.log env.old.store) (S.log env.new.store)) }
    ensures clock { env.new.clock ≡ env.old.clock }
    ensures base { env.new.base ≡ env.old.base }
{
    match lean {
        Some(lean) => {
            let Lean { text, saved } = lean;
            match write_anew(env, durable, cache, path, text) {
                Ok(()) => Ok(Some(saved)),
                Err(error) => Err(error),
            }
        }
        None => match sync_bucket(env.alloc, &mut env.store, durable, path) {
            Ok(()) => Ok(None),
            Err(error) => Err(error),
        },
    }
}

/// Compacts the bucket at the path. Gives how many bytes that saved, if it changed.
pub(crate) fn compact_bucket<S: Store, C: Clock, N: Names>(
    env: &mut Env<S, C, N>,
    durable: bool,
    cache: &str,
    path: &Text,
) -> Result<Option<u64>>
    ensures compacts { IfOk result (λ saving. CompactsAt durable cache.now path.now saving
        (S.log env.old.store) (S.log env.new.store)) }
    ensures stops { IfErr result (λ e. StopsBucket durable cache.now path.now e
        (S.log env.old.store) (S.log env.new.store)) }
    ensures clock { env.new.clock ≡ env.old.clock }
    ensures base { env.new.base ≡ env.old.base }
{
    let bytes = read(env.alloc, &mut env.store, path)?;
    let lean = changed(env.alloc, durable, bytes.as_slice())?;
    settle(env, durable, cache, path, lean)
}
