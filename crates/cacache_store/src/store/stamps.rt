//! Stores that know when a file changed.
ghost use Rattle.std.specs.Prelude.{◌≡◌};

use crate::store::Store;
use cacache_core::errors::Fault;

/// A store that may know when a file changed. To ask is no step, and leaves the log as it was.
pub trait Stamps: Store {
    /// When what stands at the path was last written, moved, or given other rights: the latest of these, in
    /// milliseconds since the start of 1970 (UTC). A link itself is asked for, not its target.
    ///
    /// # Errors
    ///
    /// `NotFound` if nothing is there, `Unsupported` if the store keeps no times, or the fault that the system reports.
    fn changed(&mut self, path: &str) -> Result<u64, Fault>
        ensures logged { Self.log self.new ≡ Self.log self.old };
}
