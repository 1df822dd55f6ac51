//! Tries the rows of files. Each word of the command line is the path of a file of rows, such as `core.rows`; its
//! name says which library tries them. They are tried in the order of the words. For each file the rows of a group
//! that hold are counted, and each other row is printed with what was wanted and what came. The status is 0 if each
//! row holds, and otherwise 1.
//!
//! Some rows use real folders, those below the one where the program runs. What they leave there is removed after
//! each file, so that the next one doesn't meet it.
#![tactic(auto)]

mod leavings;

use leavings::{names_here, remove_others};
use std::alloc::AllocGlobal;
use std::env::args;
use std::os::fd::AsRawFd;
use std::process::ExitCode;
use std::random::RandomSource;
use std::rt::Files;
use std::sync::Wait;
use std::thread::Threads;
use std::time::Clock;
use std::{fs, io};

/// The name that a file of rows has, without the folders above it and without `.rows`.
fn name_of(path: &str) -> &str {
    let (_, file) = path.rsplit_once('/').unwrap_or(("", path));
    file.strip_suffix(".rows").unwrap_or(file)
}

/// Tries the rows of a name, and returns whether each of them holds. `rt` waits and starts threads, and `host` is the
/// same runtime.
fn all_hold<R>(rt: &R, host: &HostRuntime, name: &str, rows: &str) -> io::Result<bool>
where
    R: Threads + Wait + Clock + RandomSource + Files + AllocGlobal + Print + Clone + Drop + Sync,
    R::File: AsRawFd,
{
    match name {
        "core" => rows_steps::values::all_hold(host, rows),
        "folder" => rows_folder::all_hold(host, rows),
        "steps" => rows_steps::all_hold(host, rows),
        "loss" => rows_world::losses::all_hold(host, rows),
        "hostile" => rows_hostile::all_hold(host, rows),
        "polled" => rows_polled::all_hold(rt, rows),
        "public" => rows_public::all_hold(rt, host, rows),
        "keep" => rows_keep::all_hold(host, rows),
        _ => {
            println!(host; "no rows have this name")?;
            Ok(false)
        }
    }
}

/// Tries the rows of a file, and returns whether each of them holds.
fn holds<R>(rt: &R, host: &HostRuntime, path: &str) -> io::Result<bool>
where
    R: Threads + Wait + Clock + RandomSource + Files + AllocGlobal + Print + Clone + Drop + Sync,
    R::File: AsRawFd,
{
    let name = name_of(path);
    println!(host; "== {name}")?;
    let rows = fs::read_to_string(host, path)?;
    let names = names_here(host)?;
    let all_hold = all_hold(rt, host, name, rows.as_str())?;
    remove_others(host, names.as_slice())?;
    Ok(all_hold)
}

/// Tries the rows of all files that the words name, and returns whether each of them holds.
fn each_holds<R>(rt: &R, host: &HostRuntime) -> io::Result<bool>
where
    R: Threads + Wait + Clock + RandomSource + Files + AllocGlobal + Print + Clone + Drop + Sync,
    R::File: AsRawFd,
{
    let mut all = true;
    for path in args(host)?.skip(1) {
        if !holds(rt, host, path.as_str())? {
            all = false;
        }
    }
    Ok(all)
}

fn main(rt: HostRuntime) -> ExitCode {
    match each_holds(&rt, &rt) {
        Ok(true) => ExitCode::from(0),
        _ => ExitCode::from(1),
    }
}
