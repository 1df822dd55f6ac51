//! Calls of many callers on one disk in memory, step by step, with failures and stops: the claim is proved of it. Threads
//! share it under one lock.
pub use cacache_history::{Record, history_laws};
pub use cacache_loss::Loss;
pub use cacache_shared::{Blank, Seat, SharedWorld, Storm, StormFault, Went, storm};
pub use cacache_world::{Event, Move, World, WorldFault};
