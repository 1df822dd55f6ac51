//! Tries rows on what is polled: the core of a writer, writers with their workers, readers and linkers. Each row is
//! an act, what it is made on, its steps, and what each of them gives:
//!
//!     ACT GIVEN: STEP; STEP; .. | ANSWER; ANSWER; ..
//!
//! A row holds if the steps give these answers. The rows of a group that hold are counted, and each other row is printed
//! with what was wanted and what came.
#![tactic(auto)]

mod acts;
mod answers;
mod cores;
mod ending;
mod gates;
mod linkers;
mod opening;
mod places;
mod polls;
mod readers;
mod steps;
mod wholes;
mod writers;

use places::Places;
use std::alloc::AllocGlobal;
use std::io;
use std::os::fd::AsRawFd;
use std::random::RandomSource;
use std::rt::Files;
use std::sync::Wait;

/// Tries rows, prints how they went, and returns whether each of them holds.
pub fn all_hold<R>(rt: &R, rows: &str) -> io::Result<bool>
where
    R: Wait + RandomSource + Files + AllocGlobal + Print + Clone + Drop,
    R::File: AsRawFd,
{
    let mut places = Places::new(rt)?;
    rows::all_hold(rt, rows, &mut places)
}
