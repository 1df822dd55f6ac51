//! The moments of entries.
ghost use Rattle.cacache_jobs.specs.Environment.{HasMoment, MomentOf};

use cacache_core::text::Text;
use cacache_store::env::Clock;

/// The moment that was set. If none was set, asks the clock for it, once.
pub fn moment<C: Clock>(clock: &mut C, time: Option<u128>) -> u128
    ensures { HasMoment C.given time clock.old clock.new result }
{
    match time {
        Some(time) => time,
        None => u128::from(clock.now()),
    }
}

/// The moment of a commit. Without a key there is no entry, so the clock isn't asked.
pub fn moment_of<C: Clock>(clock: &mut C, key: &Option<Text>, time: Option<u128>) -> u128
    ensures { MomentOf C.given key.now time clock.old clock.new result }
{
    match key {
        Some(_) => moment(clock, time),
        None => 0,
    }
}
