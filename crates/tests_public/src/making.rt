//! The worlds and the calls that tests begin with.
ghost use Rattle.std.specs.Prelude.{◌≡◌, IfOk};

use cacache_calls::{Command, Link, Options, Put};
use cacache_core::bytes::Bytes;
use cacache_core::integrity::{Algorithm, Integrity};
use cacache_core::keeping::{beside, let_go};
use cacache_core::text::Text;
use cacache_world::World;
use std::alloc::{AllocError, Global};

/// The integrity of `hello world`, as `openssl dgst -sha256 -binary | base64` prints its digest.
pub(crate) const HELLO: &str = "sha256-uU0nuZNNPgilLlLX2n2r+sSE7+N6U4DukIj3rOLvzek=";

/// What a put of it replies.
pub(crate) const STORED_HELLO: &str = "stored sha256-uU0nuZNNPgilLlLX2n2r+sSE7+N6U4DukIj3rOLvzek=";

/// The path of the outside file, which holds `hello world`.
const OUTSIDE: &str = "/w/t";

/// The bytes of a text.
fn bytes_of(alloc: Global, text: &str) -> Result<Bytes, AllocError> {
    Bytes::new(alloc, Vec::from_slice(alloc, text.as_bytes())?)
}

/// A put of a text under a key.
pub(crate) fn put(alloc: Global, key: &str, data: &str) -> Result<Command, AllocError> {
    let data = bytes_of(alloc, data)?;
    let (key, data) = beside(Text::from_str(alloc, key), data)?;
    Ok(Command::Put(Put {
        key: Some(key),
        data,
        moment: 1234567,
        options: Options::blank(Algorithm::Sha256),
    }))
}

/// A durable put of a text under a key.
pub(crate) fn durable_put(alloc: Global, key: &str, data: &str) -> Result<Command, AllocError> {
    let mut command = put(alloc, key, data)?;
    if let Command::Put(put) = &mut command {
        put.options.durable = true;
    }
    Ok(command)
}

/// A link under a key to the outside file.
pub(crate) fn link(alloc: Global, key: &str) -> Result<Command, AllocError> {
    let target = Text::from_str(alloc, OUTSIDE)?;
    let (key, target) = beside(Text::from_str(alloc, key), target)?;
    Ok(Command::Link(Link {
        key: Some(key),
        target,
        moment: 1234567,
        options: Options::blank(Algorithm::Sha256),
    }))
}

/// The integrity that a text names.
pub(crate) fn integrity(alloc: Global, text: &str) -> Result<Integrity, AllocError> {
    match Integrity::parse(alloc, text) {
        Ok(integrity) => Ok(integrity),
        Err(error) => {
            let_go(error);
            Err(AllocError)
        }
    }
}

/// The outside file.
fn outside(alloc: Global) -> Result<Vec<(Text, Bytes)>, AllocError> {
    let data = bytes_of(alloc, "hello world")?;
    let (path, data) = beside(Text::from_str(alloc, OUTSIDE), data)?;
    Ok(vec![in alloc; (path, data)]?)
}

/// A world of some callers, with one outside file.
pub(crate) fn world_of(alloc: Global, callers: usize) -> Result<World, AllocError>
    ensures { IfOk result (λ w. w.setup.callers ≡ callers) }
{
    let files = outside(alloc)?;
    let (cache, files) = beside(Text::from_str(alloc, "c"), files)?;
    match World::new(alloc, callers, cache, files) {
        Ok(world) => Ok(world),
        Err(_) => Err(AllocError),
    }
}
