//! What is damaged or missing in a cache, and the removal of contents that no entry has.
//!
//! A store of real folders holds the folders of a call open, eight at most. Each call ends its walk when it is over.
#![tactic(auto)]

mod asking;
mod buckets;
mod burying;
mod checking;
mod choosing;
mod collecting;
mod compacting;
mod confirming;
mod dropping;
mod emptying;
mod grace;
mod index;
mod later;
mod laws;
mod limits;
mod lines;
mod live;
mod missing;
mod odd;
mod parting;
mod planning;
mod pruning;
mod reading;
mod removing;
mod repairing;
mod rewriting;
mod roots;
mod settling;
mod sparing;
mod sweeping;
mod syncing;
mod touched;
mod touching;
mod verifying;
mod walking;
mod weighing;

pub use cacache_store::store::Stamps;
pub use checking::OddLines;
pub use collecting::{CollectOpts, Collected, Collection, collect};
pub use compacting::{CompactOpts, Compacted, compact};
pub use later::later_laws;
pub use laws::keep_laws;
pub use limits::Limits;
pub use planning::{Planned, Unused, plan};
pub use pruning::{PrunePlan, Pruned, plan_prune, prune};
pub use repairing::{Repaired, repair, repair_with};
pub use sparing::prune_laws;
pub use sweeping::{Swept, sweep};
pub use touched::after_touch;
pub use touching::touch;
pub use verifying::{Verdict, verify};
