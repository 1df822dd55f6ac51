//! What programs of rows share that try calls over stores: an environment in which a row is tried, what somebody else
//! does there besides the calls, a store with files that fail, and what a store hears of walks.
#![tactic(auto)]

mod faulty;
mod place;
pub mod planting;
mod walks;

pub use faulty::{Failing, Faulty, Mishaps, Short};
pub use place::{MOMENT, Numbers, On, Still, in_both, in_folders, in_memory, on};
pub use walks::Walks;
