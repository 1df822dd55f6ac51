//! The steps of a store and their answers, and the environment of a call: a store, a clock and numbers.
#![tactic(auto)]

pub mod env;
pub mod store;
