//! The system's clock, and numbers for temporary files.
use cacache_folder::{ProcessNames, SystemClock};
use cacache_store::env::{Clock, Names};
use rows::Flaw;
use rows::words::{cut, number_of};
use std::alloc::Global;
use std::io;
use std::io::ErrorKind;
use std::random::RandomSource;
use std::time::{SystemTime, UNIX_EPOCH};

/// std's time in milliseconds since the start of 1970.
fn millis(rt: HostRuntime) -> io::Result<u64> {
    match SystemTime::now(&rt)?.duration_since(UNIX_EPOCH) {
        Ok(since) => Ok(u64::try_from(since.as_millis()).unwrap_or(u64::MAX)),
        Err(_) => Ok(0),
    }
}

/// Waits until std's time has changed, and returns it.
fn next_after(rt: HostRuntime, last: u64) -> io::Result<u64> {
    for _ in 0..u64::MAX {
        let now = millis(rt)?;
        if now != last {
            return Ok(now);
        }
    }
    Ok(last)
}

/// Whether a clock gives a time between those that std's gives before and after, each of three times that it is
/// asked.
pub(crate) fn is_between(rt: HostRuntime) -> io::Result<bool> {
    let mut clock = SystemClock::new(rt);
    let mut last = 0;
    for _ in 0..3 {
        let before = next_after(rt, last)?;
        let now = clock.now();
        last = millis(rt)?;
        // if the clock was set back meanwhile, there is no between
        if last >= before && (now < before || last < now) {
            return Ok(false);
        }
    }
    Ok(true)
}

/// A source that gives the same byte each time, or none.
#[derive(Drop)]
struct Same(Option<u8>);

impl RandomSource for Same {
    fn fill_bytes(&self, buf: &mut [u8]) -> io::Result<()> {
        match self.0 {
            Some(byte) => {
                buf.fill(byte);
                Ok(())
            }
            None => Err(io::Error::from(ErrorKind::Unsupported)),
        }
    }
}

/// The numbers of a source, a time and a process. A number is a source of bytes that are all this one.
fn names_of(source: &str, millis: u64, process: u32) -> Result<ProcessNames, Flaw> {
    match source {
        "no-source" => Ok(ProcessNames::starting(millis, process)),
        "failing" => Ok(ProcessNames::random(&Same(None), millis, process)),
        byte => match byte.parse::<u8>() {
            Ok(byte) => Ok(ProcessNames::random(&Same(Some(byte)), millis, process)),
            Err(_) => Err(Flaw::NotRead),
        },
    }
}

/// The number of a process that a word spells.
fn process_of(word: &str) -> Result<u32, Flaw> {
    match word.parse::<u32>() {
        Ok(number) => Ok(number),
        Err(_) => Err(Flaw::NotRead),
    }
}

/// The numbers of a source, a time and a process, in words.
fn names_in(words: &str) -> Result<ProcessNames, Flaw> {
    let (source, rest) = cut(words);
    let (millis, process) = cut(rest);
    names_of(source, number_of(millis)? as u64, process_of(process)?)
}

/// The first three of them.
pub(crate) fn numbers(alloc: Global, words: &str) -> Result<String, Flaw> {
    let mut names = names_in(words)?;
    let (one, two, three) = (names.fresh(), names.fresh(), names.fresh());
    Ok(format!(in alloc; "{one} {two} {three}")?)
}

/// Whether the first numbers of two that start at random bits differ.
pub(crate) fn numbers_differ(rt: HostRuntime) -> bool {
    ProcessNames::new(rt).fresh() != ProcessNames::new(rt).fresh()
}
