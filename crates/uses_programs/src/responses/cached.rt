//! Responses in a cache.
ghost use Rattle.std.specs.Prelude.{◌≡◌, OnOk};

use crate::responses::clock::SetClock;
use crate::responses::origin::{Response, ask};
use cacache::env::{Clock, Env, Names};
use cacache::index::insert;
use cacache::store::Store;
use cacache::{
    Metadata, Result, Value, WriteOpts, metadata_sync, read_hash_sync, remove_sync, write_hash_sync,
};
use std::fmt::Display;

/// The folder of the cache.
const CACHE: &str = "responses";

/// The place an answer comes from, and the size of its body.
#[derive(Clone, Copy, Debug)]
enum Answer {
    /// From the cache.
    Hit(usize),
    /// From the origin, since the cache has none.
    Miss(usize),
    /// From the origin, since what the cache has is stale.
    Stale(usize),
}

/// For how many milliseconds a response with these headers is fresh.
fn lifetime(headers: &Value) -> u128 {
    let control = headers.get("cache-control").and_then(Value::as_str);
    let seconds = control
        .and_then(|it| it.strip_prefix("max-age="))
        .and_then(|it| it.parse::<u64>().ok());
    u128::from(seconds.unwrap_or(0).saturating_mul(1000))
}

/// Whether the response of this entry is fresh at this moment.
fn is_fresh(entry: &Metadata, now: u64) -> bool {
    u128::from(now).saturating_sub(entry.time) < lifetime(&entry.metadata)
}

/// Responses in a cache, and a report of what became of requests.
#[derive(Drop)]
pub(crate) struct Responses<S, N> {
    env: Env<S, SetClock, N>,
    pub(crate) report: String,
}

impl<S: Store, N: Names> Responses<S, N> {
    /// The responses that the store of this environment has.
    pub(crate) fn new(env: Env<S, SetClock, N>) -> Responses<S, N> {
        let report = String::new(env.alloc);
        Responses { env, report }
    }

    /// Adds a line to the report.
    fn tell(&mut self, line: impl Display + Drop) -> Result<()> {
        writeln!(self.report, "{line}")?;
        Ok(())
    }

    /// Stores a response. Its entry has the clock's time.
    fn store(&mut self, path: &str, headers: Value, body: &str) -> Result<()> {
        let integrity = write_hash_sync(&mut self.env, CACHE, body.as_bytes())?;
        let opts = WriteOpts::new()
            .metadata(headers)
            .integrity(integrity)
            .size(body.len());
        insert(&mut self.env, CACHE, path, opts)?;
        Ok(())
    }

    /// Asks the origin, and stores its response if that will be fresh. Answers the size of the body.
    fn fetch(&mut self, path: &str) -> Result<usize> {
        let Response { headers, body } = ask(self.env.alloc, path)?;
        if lifetime(&headers) > 0 {
            self.store(path, headers, body)?;
        }
        Ok(body.len())
    }

    /// Answers a request whose response is stale. Its body stays, since another path may have the same one;
    /// `RemoveOpts` can remove it, too.
    fn renew(&mut self, path: &str) -> Result<Answer> {
        remove_sync(&mut self.env, CACHE, path)?;
        Ok(Answer::Stale(self.fetch(path)?))
    }

    /// Answers a request that has an entry: from the cache if the entry is fresh, and otherwise from the origin.
    fn answer_from(&mut self, path: &str, entry: &Metadata) -> Result<Answer> {
        if !is_fresh(entry, self.env.clock.now()) {
            return self.renew(path);
        }
        let body = read_hash_sync(&mut self.env, CACHE, &entry.integrity)?;
        Ok(Answer::Hit(body.len()))
    }

    /// Answers a request: from the cache if it has a fresh response, and otherwise from the origin.
    fn answer(&mut self, path: &str) -> Result<Answer> {
        match metadata_sync(&mut self.env, CACHE, path)? {
            Some(entry) => self.answer_from(path, &entry),
            None => Ok(Answer::Miss(self.fetch(path)?)),
        }
    }

    /// Answers a request that comes at this second.
    pub(crate) fn get(&mut self, second: u64, path: &str) -> Result<()> {
        self.env.clock.second = second;
        let answer = self.answer(path)?;
        self.tell(format_args!("{second}: GET {path}: {answer:?}"))
    }

    /// Reports the headers of a response. Its body isn't read.
    pub(crate) fn head(&mut self, path: &str) -> Result<()> {
        match metadata_sync(&mut self.env, CACHE, path)? {
            Some(entry) => self.tell(format_args!("HEAD {path}: {}", entry.metadata)),
            None => Ok(()),
        }
    }

    /// Reports how many responses the cache has. None gets older by it: the clock isn't asked.
    pub(crate) fn count(&mut self) -> Result<()>
        ensures { OnOk result (self.new.env.clock ≡ self.old.env.clock) }
    {
        let count = uses_client::count(&mut self.env, CACHE)?;
        writeln!(self.report, "{count} responses")?;
        Ok(())
    }
}
