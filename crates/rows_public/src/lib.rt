//! Tries rows on the public calls and on the program, each on a disk in memory, on real folders, and as a future if
//! the call has one. Each row has three columns with bars between them:
//!
//!     ACT | INPUT | RESULT
//!
//! A row holds if the act with this input gives this result at each place, and the future logs what the call logs. The rows
//! of a group that hold are counted, and each other row is printed with what was wanted and what came.
#![tactic(auto)]

mod acts;
mod awaited;
mod calls;
mod exports;
mod failing;
mod layers;
mod lines;
mod linkers;
mod options;
mod places;
mod polled;
mod polled_exports;
mod program;
mod puts;
mod readers;
mod row;
mod streams;
mod told;
mod trials;
mod writers;

use places::{Places, outcome};
use rows::{Line, Report};
use std::alloc::AllocGlobal;
use std::io;
use std::random::RandomSource;
use std::sync::Wait;
use std::thread::Threads;
use std::time::Clock;

/// Does what a line says.
fn take<R: Threads + Wait + Clock + RandomSource + AllocGlobal + Print + Sync>(
    rt: &R,
    report: &mut Report,
    places: &mut Places,
    line: &str,
) -> io::Result<()> {
    match report.read(rt, line)? {
        Line::Other => Ok(()),
        Line::Group => {
            places.begin();
            Ok(())
        }
        Line::Row(row) => {
            let tried = outcome(rt, places, row.as_str());
            report.count(rt, row.as_str(), tried)
        }
    }
}

/// Tries rows at these places, and returns whether each holds.
fn all_hold_at<R: Threads + Wait + Clock + RandomSource + AllocGlobal + Print + Sync>(
    rt: &R,
    places: &mut Places,
    rows: &str,
) -> io::Result<bool> {
    let mut report = Report::new(rt.alloc());
    for line in rows.lines() {
        take(rt, &mut report, places, line)?;
    }
    report.end(rt)
}

/// Tries rows, prints how they went, and returns whether each of them holds. `rt` waits and starts threads, and
/// `host` is the same runtime.
pub fn all_hold<R: Threads + Wait + Clock + RandomSource + AllocGlobal + Print + Sync>(
    rt: &R,
    host: &HostRuntime,
    rows: &str,
) -> io::Result<bool> {
    let mut places = Places::new(host)?;
    all_hold_at(rt, &mut places, rows)
}
