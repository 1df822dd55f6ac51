//! The call that says what a collection would remove.
ghost use Rattle.std.specs.Prelude.{◌≡◌, IfOk, IfErr, map};
ghost use Rattle.cacache_jobs.specs.{Environment.{KeepsRest}, JobStates.{site_of}};
ghost use Rattle.cacache_keep.specs.{Planning.{HidesSize, StopsPlanning, StopsTelling, TellsSize, TellsSizes, sized_of}, Told.{PlansAs}};

use crate::choosing::{Chosen, choose};
use crate::reading::says_gone;
use cacache_calls::answers::length_of;
use cacache_core::errors::Result;
use cacache_core::integrity::Integrity;
use cacache_core::text::Text;
use cacache_jobs::{content_path, refused};
use cacache_store::env::{Clock, Env, Names};
use cacache_store::store::{Step, Store};
use std::alloc::{AllocError, Global};

/// A content that no entry has.
#[derive(Debug, Drop)]
pub struct Unused {
    /// Its address.
    pub address: Integrity,
    /// How many bytes it has. A link has those of its target, and none if it leads to nothing.
    pub bytes: u64,
}

/// What a collection would do.
#[derive(Debug, Drop)]
pub struct Planned {
    /// How many contents it would leave.
    pub kept: u64,
    /// The contents that it would remove.
    pub unused: Vec<Unused>,
    /// The paths of the buckets with odd lines, in the order in which the index is read. If there is one, `collect` ends
    /// with an error that names the first.
    pub odd: Vec<Text>,
}

/// The content didn't give its size.
fn hidden(
    alloc: Global,
    cache: &str,
    address: &Integrity,
) -> std::result::Result<Text, AllocError> {
    let path = content_path(alloc, cache, address)?;
    Ok(Text::new(format!(in alloc; "Failed to get the size of cache file {path}")?))
}

/// How many bytes the content has.
pub(crate) fn size_of<S: Store>(
    alloc: Global,
    store: &mut S,
    cache: &str,
    address: &Integrity,
) -> Result<u64>
    ensures tells { IfOk result
        (λ size. TellsSize cache.now address.now size (S.log store.old) (S.log store.new)) }
    ensures stops { IfErr result
        (λ e. HidesSize cache.now address.now e (S.log store.old) (S.log store.new)) }
{
    let path = content_path(alloc, cache, address)?;
    match length_of(store.step(Step::Size(path))) {
        Ok(size) => Ok(size),
        Err(refusal) => {
            if says_gone(refusal) {
                return Ok(0);
            }
            Err(refused(refusal, hidden(alloc, cache, address)))
        }
    }
}

/// These contents with their sizes.
fn sizes_of<S: Store>(
    alloc: Global,
    store: &mut S,
    cache: &str,
    addresses: Vec<Integrity>,
) -> Result<Vec<Unused>>
    ensures each { IfOk result (λ unused. map (λ u. u.address) unused.items ≡ addresses.items) }
    ensures tells { IfOk result (λ unused. TellsSizes cache.now (map sized_of unused.items)
        (S.log store.old) (S.log store.new)) }
    ensures stops { IfErr result (λ e. StopsTelling cache.now addresses.items e
        (S.log store.old) (S.log store.new)) }
{
    let mut unused = Vec::new(alloc);
    for address in addresses {
        let bytes = size_of(alloc, store, cache, &address)?;
        unused.push(Unused { address, bytes })?;
    }
    Ok(unused)
}

/// Plans a collection as `plan` does, and leaves the walk open.
fn plan_open<S: Store, C: Clock, N: Names>(env: &mut Env<S, C, N>, cache: &str) -> Result<Planned>
    ensures plans { IfOk result (λ p. PlansAs (site_of cache.now env.old.base 0) p
        (S.log env.old.store) (S.log env.new.store)) }
    ensures stops { IfErr result (λ e. StopsPlanning (site_of cache.now env.old.base 0) e
        (S.log env.old.store) (S.log env.new.store)) }
    ensures rest { KeepsRest env.old env.new }
{
    let Chosen { kept, dropped, odd } = choose(env, cache)?;
    let unused = sizes_of(env.alloc, &mut env.store, cache, dropped)?;
    Ok(Planned { kept, unused, odd })
}

/// Tells which contents a `collect` would remove, each with its bytes, and how many it would leave.
/// Nothing changes. What a later `collect` removes is the same while nobody writes in between. It ends with an error if a
/// bucket has a line that this crate can't read and another reader may: the plan names these buckets.
///
/// Errors are those of `content::read::list`, the first error that `ls` gives, as for a link in the index to a folder, and
/// an `IoError` if a content didn't give its size, such as a link to a folder. `OutOfMemory` may come at any time.
pub fn plan<S: Store, C: Clock, N: Names>(env: &mut Env<S, C, N>, cache: &str) -> Result<Planned>
    ensures plans { IfOk result (λ p. PlansAs (site_of cache.now env.old.base 0) p
        (S.log env.old.store) (S.log env.new.store)) }
    ensures stops { IfErr result (λ e. StopsPlanning (site_of cache.now env.old.base 0) e
        (S.log env.old.store) (S.log env.new.store)) }
    ensures clock { env.new.clock ≡ env.old.clock }
    ensures names { env.new.names ≡ env.old.names }
    ensures base { env.new.base ≡ env.old.base }
{
    let answer = plan_open(env, cache);
    env.store.end_walks();
    answer
}
