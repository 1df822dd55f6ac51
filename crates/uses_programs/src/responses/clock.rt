//! A clock that the program sets, so that it prints the same at each run. A server takes `SystemClock` instead.
use cacache::env::Clock;

/// A clock that stays at the second that it was set to.
#[derive(Drop)]
pub(crate) struct SetClock {
    pub(crate) second: u64,
}

impl Clock for SetClock {
    fn now(&mut self) -> u64 {
        self.second.saturating_mul(1000)
    }
}
