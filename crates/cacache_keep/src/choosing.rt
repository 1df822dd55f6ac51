//! The contents that no entry has.
ghost use Rattle.std.specs.Prelude.{IfOk, IfErr};
ghost use Rattle.cacache_jobs.specs.{Environment.{KeepsRest}, JobStates.{site_of}};
ghost use Rattle.cacache_keep.specs.Keeping.{ChoosesAs, StopsEarly};

use crate::index::{Index, read_index};
use crate::live::unused;
use cacache_core::errors::Result;
use cacache_core::integrity::Integrity;
use cacache_core::keeping::let_go;
use cacache_core::text::Text;
use cacache_store::env::{Clock, Env, Names};
use cacache_store::store::Store;
use cacache_walks::{Contents, list};

/// The contents that no entry has, how many others there are, and the paths of the buckets with odd lines.
#[derive(Drop)]
pub(crate) struct Chosen {
    pub(crate) kept: u64,
    pub(crate) dropped: Vec<Integrity>,
    pub(crate) odd: Vec<Text>,
}

/// Lists the contents and then the index, and chooses the contents that no entry has.
pub(crate) fn choose<S: Store, C: Clock, N: Names>(
    env: &mut Env<S, C, N>,
    cache: &str,
) -> Result<Chosen>
    ensures chooses { IfOk result (λ c. ChoosesAs (site_of cache.now env.old.base 0)
        c.kept c.dropped.items c.odd.items (S.log env.old.store) (S.log env.new.store)) }
    ensures stops { IfErr result (λ e. StopsEarly (site_of cache.now env.old.base 0) e
        (S.log env.old.store) (S.log env.new.store)) }
    ensures rest { KeepsRest env.old env.new }
{
    let Contents { addresses, strange } = list(env, cache)?;
    let_go(strange);
    let Index { entries, odd } = read_index(env.alloc, &mut env.store, cache)?;
    let count = addresses.len();
    let dropped = unused(env.alloc, addresses, entries.as_slice())?;
    let_go(entries);
    let kept = (count - dropped.len()) as u64;
    Ok(Chosen { kept, dropped, odd })
}
