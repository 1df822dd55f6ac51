//! A cache of responses. The body of a response is a content, and its headers are in the entry of its path. By the
//! entry's time and the headers' `max-age` it is fresh, and answers requests, or stale, and is removed.
mod cached;
mod clock;
mod origin;

use crate::responses::cached::Responses;
use crate::responses::clock::SetClock;
use cacache::Result;
use cacache::env::{Env, Names, ProcessNames};
use cacache::errors::IoErrorExt;
use cacache::store::{MemStore, Store};

/// The requests: at which second each comes, and for which path.
const REQUESTS: [(u64, &str); 8] = [
    (0, "/news"),
    (0, "/logo"),
    (10, "/icon"),
    (20, "/time"),
    (59, "/news"),
    (60, "/news"),
    (80, "/icon"),
    (80, "/logo"),
];

/// Answers the requests.
fn get_all<S: Store, N: Names>(responses: &mut Responses<S, N>) -> Result<()> {
    for (second, path) in REQUESTS {
        responses.get(second, path)?;
    }
    Ok(())
}

/// Answers the requests in this environment, and reports what the cache has then. What became of them is the answer.
fn answer_all<S: Store, N: Names>(env: Env<S, SetClock, N>) -> Result<String> {
    let mut responses = Responses::new(env);
    get_all(&mut responses)?;
    responses.head("/news")?;
    responses.count()?;
    Ok(responses.report)
}

/// Answers the requests from a cache, and prints what became of them.
pub(crate) fn run(rt: HostRuntime) -> Result<()> {
    let alloc = rt.alloc();
    // `FolderStore::new(rt)` instead of this store keeps the responses in real folders.
    let store = MemStore::new(alloc)?;
    let clock = SetClock { second: 0 };
    let names = ProcessNames::new(rt);
    let report = answer_all(Env::new(alloc, store, clock, names, "/")?)?;
    print!(rt; "{report}").context(alloc, "Failed to print the report")
}
