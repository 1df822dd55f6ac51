//! A world: callers with calls that take turns on one disk in memory, and the history of all that
//! happened. What `cacache_history` proves of every legal history holds of each world's.
#![tactic(auto)]

mod admitting;
mod callers;
mod event;
mod losing;
mod names;
mod outside;
mod playing;
mod starting;
mod turn;
mod world;

pub use cacache_history::{Record, history_laws};
pub use event::{Event, Move, WorldFault};
pub use world::World;
