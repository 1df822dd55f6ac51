//! Four programs to read, each a file of its own next to this one, and the examples of the public calls, `calls`. Each line of
//! standard input is a command: the name of a program, and its words.
#![tactic(auto)]

mod calls;
mod ccache;
mod fetch;
mod responses;
mod threads;

use anyhow::{Result, bail};
use std::alloc::AllocGlobal;
use std::random::RandomSource;
use std::sync::Wait;
use std::thread::Threads;
use std::time::Clock;

/// Runs a command. `rt` waits and starts threads, and `host` is the same runtime.
fn run<R>(rt: &R, host: HostRuntime, command: &str) -> Result<()>
where
    R: Threads + Wait + RandomSource + Clock + AllocGlobal + Copy + Send + Sync + Drop + 'static,
{
    let words: Vec<&str> = command.split_whitespace().collect(host.alloc())?;
    match words.as_slice() {
        ["fetch", words @ ..] => fetch::run(host, words),
        ["ccache", words @ ..] => ccache::run(host, words),
        ["responses"] => Ok(responses::run(host)?),
        ["threads"] => Ok(threads::run(rt, host)?),
        _ => bail!("There is no program {command}"),
    }
}

fn main(rt: HostRuntime) -> Result<()> {
    for line in rt.lines(rt.alloc()) {
        match line?.as_str() {
            "calls" => calls::run(rt, rt)?,
            command => run(&rt, rt, command)?,
        }
    }
    Ok(())
}
