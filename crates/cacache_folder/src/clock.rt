//! The system's time.
ghost use Rattle.std.specs.{Prelude.{◌≡◌, ◌-◌, ◌/◌, ◌^◌, MatchResult, min}, Duration.{as_nanos}};

use cacache_store::env::Clock;
use std::io;
use std::time::{Clock as SystemTimes, Duration};

/// The time in milliseconds that the system's answer says.
fn millis_of(answer: io::Result<Duration>) -> u64
    ensures { MatchResult answer
        (λ since. result ≡ min (as_nanos since / 1_000_000) (2 ^ 64 - 1)) (λ _. result ≡ 0) }
{
    match answer {
        Ok(since) => u64::try_from(since.as_millis()).unwrap_or(u64::MAX),
        Err(_) => 0,
    }
}

/// The system's clock. It answers 0 if the system has no time or one before 1970, and 2^64 - 1 milliseconds if there
/// are more.
#[derive(Drop)]
pub struct SystemClock<R> {
    rt: R,
}

impl<R: SystemTimes + Drop> SystemClock<R> {
    /// The clock of a runtime.
    pub fn new(rt: R) -> SystemClock<R>
        ensures { result.rt ≡ rt }
    {
        SystemClock { rt }
    }
}

impl<R: Copy> SystemClock<R> {
    /// The runtime whose time it is.
    pub fn runtime(&self) -> R
        ensures { result ≡ self.now.rt }
    {
        self.rt
    }
}

impl<R: SystemTimes + Drop> Clock for SystemClock<R> {
    fn now(&mut self) -> u64 {
        millis_of(self.rt.since_1970())
    }
}
