//! What of a cache survives a loss of power: definitions, their laws, and a disk that runs on and
//! loses power as they say.
#![tactic(auto)]

mod effect;
mod fixing;
mod laws;
mod left;
mod loss;
mod reached;
mod running;
mod syncs;

pub use fixing::{Fixing, Place};
pub use laws::{folder_laws, loss_cases, loss_history_laws, loss_laws, tree_laws, value_laws};
pub use loss::Loss;
pub use running::Running;
