//! Puts as commands, which `jobs::call` makes, or `jobs::drive` as a job.
use crate::row::bytes_of;
use cacache::bytes::Bytes;
use cacache::jobs::{Command, Job, Json, Options, Put, Reply, call, drive};
use cacache::store::Store;
use cacache::text::Text;
use cacache::{Algorithm, Integrity, Value};
use cacache_core::keeping::let_go;
use row_places::On;
use rows::Flaw;
use rows::answers::{refused, stored};
use rows::parts::{expected_of, size_of};
use rows::words::cut;
use std::alloc::{AllocError, Global};

/// The put of these data under a key at the moment 1, with an expected size and an expected integrity.
fn put_with(key: Text, data: Bytes, size: Option<usize>, integrity: Option<Integrity>) -> Command {
    Command::Put(Put {
        key: Some(key),
        data,
        moment: 1,
        options: Options {
            algorithm: Algorithm::Sha256,
            size,
            integrity,
            metadata: Json::new(Value::Null),
            raw_metadata: None,
            durable: false,
        },
    })
}

/// The data that a word stands for.
fn data_of(alloc: Global, input: &str) -> Result<Bytes, AllocError> {
    Bytes::new(alloc, bytes_of(alloc, input)?)
}

/// The line on the reply to a put.
fn replied(alloc: Global, reply: Reply) -> Result<String, AllocError> {
    match reply {
        Reply::Stored(integrity) => stored(alloc, Ok(integrity)),
        Reply::Refused(error) => refused(alloc, error),
        other => {
            let_go(other);
            String::from_str(alloc, "another reply")
        }
    }
}

/// The put of these bytes, in words: its key, an expected size and an expected integrity.
fn put_of(alloc: Global, words: &str, input: &str) -> Result<Command, Flaw> {
    let (key, words) = cut(words);
    let (size, integrity) = cut(words);
    let size = size_of(size)?;
    let integrity = expected_of(alloc, integrity)?;
    let key = Text::from_str(alloc, key)?;
    let data = data_of(alloc, input)?;
    Ok(put_with(key, data, size, integrity))
}

/// The line on a put that is called: its cache, its key, an expected size and an expected integrity.
pub(crate) fn put<S: Store>(env: &mut On<S>, words: &str, input: &str) -> Result<String, Flaw> {
    let alloc = env.alloc;
    let (cache, words) = cut(words);
    Ok(replied(alloc, call(env, cache, put_of(alloc, words, input)?, 0))?)
}

/// The line on a put that is driven as a job.
pub(crate) fn driven<S: Store>(env: &mut On<S>, words: &str, input: &str) -> Result<String, Flaw> {
    let alloc = env.alloc;
    let (cache, words) = cut(words);
    let base = env.base.as_str();
    let job = Job::try_new(alloc, cache, base, put_of(alloc, words, input)?, 0)?;
    Ok(replied(alloc, drive(&mut env.store, job))?)
}
