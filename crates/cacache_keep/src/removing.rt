//! Contents that are removed, one after another.
ghost use Rattle.std.specs.Prelude.{OnOk, IfErr, map};
ghost use Rattle.cacache_jobs.specs.{Environment.{KeepsRest}, JobStates.{site_of}};
ghost use Rattle.cacache_keep.specs.Calls.{MadeCalls, StopsRemoving, removal};

use cacache_core::errors::Result;
use cacache_core::integrity::Integrity;
use cacache_store::env::{Clock, Env, Names};
use cacache_store::store::Store;
use cacache_sync::rm::remove_hash_sync;

/// Removes the contents of these addresses.
pub(crate) fn remove_each<S: Store, C: Clock, N: Names>(
    env: &mut Env<S, C, N>,
    cache: &str,
    addresses: &[Integrity],
) -> Result<()>
    ensures removes { OnOk result (MadeCalls (site_of cache.now env.old.base 0)
        (map removal addresses.now) (S.log env.old.store) (S.log env.new.store)) }
    ensures stops { IfErr result (λ e. StopsRemoving (site_of cache.now env.old.base 0)
        addresses.now e (S.log env.old.store) (S.log env.new.store)) }
    ensures rest { KeepsRest env.old env.new }
{
    for sri in addresses {
        remove_hash_sync(env, cache, sri)?;
    }
    Ok(())
}
