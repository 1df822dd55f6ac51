//! What the time of a content's last change makes of it in a collection.
ghost use Rattle.std.specs.Prelude.{◌≡◌};
ghost use Rattle.cacache_keep.specs.Grace.{JudgedBy, LimitedBy, fate_by};

use cacache_core::errors::Fault;
use cacache_core::text::Text;
use cacache_store::env::Clock;
use cacache_store::store::Stamps;

/// What becomes of a content that nothing names.
#[derive(Clone, Copy, Debug, PartialEq, Eq)]
pub(crate) enum Fate {
    /// It is removed.
    Dropped,
    /// It stays for its age.
    Young,
    /// It was gone when its turn came.
    Gone,
}

/// The moment from which on a change is young: the clock's time less the grace, in milliseconds since 1970. Without a
/// grace there is none, and the clock isn't asked.
pub(crate) fn limit_by<C: Clock>(clock: &mut C, grace: Option<u64>) -> Option<u64>
    ensures { LimitedBy C.given grace clock.old clock.new result }
{
    match grace {
        Some(grace) => Some(clock.now().saturating_sub(grace)),
        None => None,
    }
}

/// What becomes of a content whose file changed then. If the store doesn't know when, it stays.
fn fate_of(limit: u64, changed: Result<u64, Fault>) -> Fate
    ensures { result ≡ fate_by limit changed }
{
    match changed {
        Ok(stamp) => {
            if stamp >= limit {
                return Fate::Young;
            }
            Fate::Dropped
        }
        Err(Fault::NotFound) => Fate::Gone,
        Err(_) => Fate::Young,
    }
}

/// What is to become of the content at the path. Without a limit it goes, and the store isn't asked.
pub(crate) fn judge_age<S: Stamps>(store: &mut S, limit: Option<u64>, path: &Text) -> Fate
    ensures judged { JudgedBy limit result }
    ensures logged { S.log store.new ≡ S.log store.old }
{
    match limit {
        Some(limit) => fate_of(limit, store.changed(path.as_str())),
        None => Fate::Dropped,
    }
}
