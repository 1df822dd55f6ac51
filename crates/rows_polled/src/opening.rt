//! The ways in which a writer is opened: each is a future that is ready at once.
use cacache_core::errors::Result as Answered;
use cacache_core::keeping::beside;
use cacache_store::store::Store;
use cacache_sync::put::opts::WriteOpts;
use cacache_writers::{OpenAsync, WriteOptsOpenFuture, Writer};
use futures::executor::block_on;
use row_places::{Numbers, On, Still};
use rows::Flaw;
use rows::answers::given;
use rows::parts::{algorithm_of, integrity_of};
use rows::words::{cut, number_of};
use serde_json::Value;
use std::alloc::{AllocGlobal, Global};
use std::random::RandomSource;
use std::sync::Wait;

/// The future that opens a writer.
type Opening<'a, S> = WriteOptsOpenFuture<'a, S, Still, Numbers>;

/// All that can be said to a commit: five bytes of this integrity are expected.
fn all_opts(alloc: Global, integrity: &str) -> Result<WriteOpts, Flaw> {
    let sri = integrity_of(alloc, integrity)?;
    let (raw, sri) = beside(vec![in alloc; 9; 2], sri)?;
    Ok(
        WriteOpts::new()
            .size(5)
            .time(7)
            .metadata(Value::Bool(true))
            .raw_metadata(raw)
            .integrity(sri)
            .durable(true),
    )
}

/// The opening of a writer with options: `open CACHE KEY SIZE` and `open_hash CACHE SIZE` expect so many bytes, and `with
/// CACHE KEY INTEGRITY` says all that can be said to a commit.
fn opening_with<'a, S: Store>(
    env: &'a mut On<S>,
    way: &str,
    cache: &'a str,
    what: &'a str,
) -> Result<Opening<'a, S>, Flaw> {
    let (key, said) = cut(what);
    match way {
        "open" => {
            let size = number_of(said)?;
            Ok(WriteOpts::new().size(size).open(env, cache, key))
        }
        "open_hash" => {
            let size = number_of(what)?;
            Ok(WriteOpts::new().size(size).open_hash(env, cache))
        }
        "with" => {
            let opts = all_opts(env.alloc, said)?;
            Ok(opts.open(env, cache, key))
        }
        _ => Err(Flaw::NotRead),
    }
}

/// The opening of a writer in one of the ways: `create CACHE KEY`, `create_with_algo CACHE ALGORITHM KEY`, `new
/// CACHE ALGORITHM`, or with options.
fn opening<'a, S: Store>(env: &'a mut On<S>, words: &'a str) -> Result<Opening<'a, S>, Flaw> {
    let (way, words) = cut(words);
    let (cache, what) = cut(words);
    let (name, key) = cut(what);
    match way {
        "create" => Ok(Writer::create(env, cache, what)),
        "create_with_algo" => {
            let algorithm = algorithm_of(name)?;
            Ok(Writer::create_with_algo(env, algorithm, cache, key))
        }
        "new" => Ok(Writer::new(env, cache, algorithm_of(name)?, Some(3))),
        _ => opening_with(env, way, cache, what),
    }
}

/// A writer that is opened so.
pub(crate) fn opened<R: Wait + RandomSource + AllocGlobal, S: Store>(
    rt: &R,
    env: &mut On<S>,
    words: &str,
) -> Result<Answered<Writer<S::Temp>>, Flaw> {
    given(block_on(rt, opening(env, words)?))
}
