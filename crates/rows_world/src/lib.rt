//! Rows on what a loss of power leaves in a world, by a plain model of what is fixed. The head of `losses.rt` says what
//! they are.
#![tactic(auto)]

pub mod losses;
