//! Entries whose content isn't there.
ghost use Rattle.std.specs.Prelude.{IfOk, IfErr};
ghost use Rattle.cacache_jobs.specs.{Environment.{KeepsRest}, JobStates.{site_of}};
ghost use Rattle.cacache_keep.specs.{Calls.{StopsQuestions}, Told.{AsksAs}};

use cacache_calls::Found;
use cacache_core::errors::Result;
use cacache_entry::Metadata;
use cacache_store::env::{Clock, Env, Names};
use cacache_store::store::Store;
use cacache_sync::exists_sync;

/// The entries among these whose content isn't there.
pub(crate) fn dangling_of<S: Store, C: Clock, N: Names>(
    env: &mut Env<S, C, N>,
    cache: &str,
    entries: Vec<Found>,
) -> Result<Vec<Metadata>>
    ensures asks { IfOk result (λ dangling. AsksAs (site_of cache.now env.old.base 0)
        entries.items dangling.items (S.log env.old.store) (S.log env.new.store)) }
    ensures stops { IfErr result (λ e. StopsQuestions (site_of cache.now env.old.base 0) e
        (S.log env.old.store) (S.log env.new.store)) }
    ensures rest { KeepsRest env.old env.new }
{
    let mut dangling = Vec::new(env.alloc);
    for found in entries {
        if !exists_sync(env, cache, &found.as_metadata().integrity)? {
            dangling.push(found.into_metadata())?;
        }
    }
    Ok(dangling)
}
