//! A cache over another one: a method's name, the upper cache, the lower cache, and a key or an integrity.
use crate::lines::{exists, found, read};
use cacache::Layered;
use cacache::store::Store;
use row_places::On;
use rows::Flaw;
use rows::parts::integrity_of;
use rows::words::cut;

/// The line on a method that takes an integrity.
fn by_hash<S: Store>(
    env: &mut On<S>,
    name: &str,
    layers: Layered<'_>,
    what: &str,
) -> Result<String, Flaw> {
    let alloc = env.alloc;
    let sri = integrity_of(alloc, what)?;
    let line = match name {
        "read_hash_sync" => read(alloc, layers.read_hash_sync(env, &sri)),
        "exists_sync" => exists(alloc, layers.exists_sync(env, &sri)),
        _ => return Err(Flaw::NotRead),
    };
    Ok(line?)
}

/// The line on a method.
pub(crate) fn layered<S: Store>(env: &mut On<S>, act: &str) -> Result<String, Flaw> {
    let alloc = env.alloc;
    let (name, words) = cut(act);
    let (upper, words) = cut(words);
    let (lower, what) = cut(words);
    let layers = Layered { upper, lower };
    let line = match name {
        "read_sync" => read(alloc, layers.read_sync(env, what)),
        "metadata_sync" => found(alloc, layers.metadata_sync(env, what)),
        _ => return by_hash(env, name, layers, what),
    };
    Ok(line?)
}
