//! A count of entries, over any store.
ghost use Rattle.std.specs.Prelude.{◌≡◌, OnOk};
ghost use Rattle.cacache.specs.Laws.{FailsForMemory};

use cacache::env::{Clock, Env, Names};
use cacache::store::Store;
use cacache::{Result, list_sync};

/// How many entries the cache lists; what can't be read is passed over. The listing is closed, so that its caller knows
/// that clock, numbers and base folder are as before. Only memory fails it.
pub fn count<S: Store, C: Clock, N: Names>(env: &mut Env<S, C, N>, cache: &str) -> Result<u64>
    ensures clock { OnOk result (env.new.clock ≡ env.old.clock) }
    ensures names { OnOk result (env.new.names ≡ env.old.names) }
    ensures base { OnOk result (env.new.base ≡ env.old.base) }
    ensures memory { FailsForMemory result }
{
    let mut listing = list_sync(env, cache)?;
    let mut count: u64 = 0;
    'items: while let Some(item) = listing.next() {
        if item.is_ok() {
            count = count.saturating_add(1);
        }
    }
    let _env = listing.close();
    Ok(count)
}
