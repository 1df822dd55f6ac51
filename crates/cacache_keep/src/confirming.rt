//! Makes sure that keys lead to their entries of the index.
ghost use Rattle.std.specs.Prelude.{◌≡◌, IfErr, OnOk, map, option_map};
ghost use Rattle.cacache_entry.specs.View.{found_view};
ghost use Rattle.cacache_jobs.specs.{Environment.{KeepsRest}, JobStates.{site_of}};
ghost use Rattle.cacache_keep.specs.Confirming.{Confirms, StopsConfirming, is_led as is_led_of};

use cacache_calls::Refusal;
use cacache_core::errors::{Fault, Result};
use cacache_core::text::Text;
use cacache_entry::Metadata;
use cacache_jobs::refused;
use cacache_store::env::{Clock, Env, Names};
use cacache_store::store::Store;
use cacache_sync::index::find;
use std::alloc::{AllocError, Global};

/// The key leads to another entry or to none.
fn astray(alloc: Global, key: &str) -> std::result::Result<Text, AllocError> {
    Ok(Text::new(format!(in alloc; "Key {key:?} doesn't lead to its listed entry")?))
}

/// Whether what a lookup found is this entry of the index: it has the same moment, size and content.
pub(crate) fn is_led(found: Option<Metadata>, entry: &Metadata) -> bool
    ensures { result ≡ is_led_of (found_view entry.now) (option_map found_view found) }
{
    match found {
        Some(found) => {
            found.time == entry.time
                && found.size == entry.size
                && found.integrity == entry.integrity
        }
        None => false,
    }
}

/// Makes sure that the lookup of the key of each of these entries finds the entry, one after another. The error names the
/// first key that leads to another one, or to none.
pub(crate) fn confirm<S: Store, C: Clock, N: Names>(
    env: &mut Env<S, C, N>,
    cache: &str,
    entries: &[Metadata],
) -> Result<()>
    ensures confirms { OnOk result (Confirms (site_of cache.now env.old.base 0)
        (map found_view entries.now) (S.log env.old.store) (S.log env.new.store)) }
    ensures stops { IfErr result (λ e. StopsConfirming (site_of cache.now env.old.base 0)
        (map found_view entries.now) e (S.log env.old.store) (S.log env.new.store)) }
    ensures rest { KeepsRest env.old env.new }
{
    for entry in entries {
        let found = find(env, cache, entry.key.as_str())?;
        if !is_led(found, entry) {
            let refusal = Refusal::Fault(Fault::Unsupported);
            return Err(refused(refusal, astray(env.alloc, entry.key.as_str())));
        }
    }
    Ok(())
}
