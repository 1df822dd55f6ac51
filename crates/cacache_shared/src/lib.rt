//! A world that threads share, with one lock and a seat for each caller, and a storm of threads.
#![tactic(auto)]

mod agreeing;
mod blank;
mod closing;
mod counting;
mod inside;
mod laws;
mod lines;
mod listing;
mod outcome;
mod running;
mod seat;
mod shared;
mod storming;
mod turns;

pub use blank::Blank;
pub use laws::seat_laws;
pub use outcome::{Storm, StormFault};
pub use seat::{Seat, Went};
pub use shared::SharedWorld;
pub use storming::storm;
