//! Contents that are written in pieces: how the writer is opened, how it ends, the cache, the key, and options. The
//! input is what it is given, with commas between the pieces.
use crate::lines::done;
use crate::options::options_of;
use cacache::content::write::Writer;
use cacache::store::Store;
use cacache::{Result as Answered, SyncWriter};
use cacache_core::keeping::let_go;
use row_places::On;
use row_places::planting::remove_file;
use rows::Flaw;
use rows::answers::{refused, stored};
use rows::parts::algorithm_of;
use rows::words::{cut, is_nothing};
use std::alloc::{AllocError, Global};
use std::io::Write;

/// A writer that is opened with options, if the word says so.
fn opened_with<S: Store>(
    env: &mut On<S>,
    way: &str,
    cache: &str,
    what: &str,
) -> Result<Answered<SyncWriter<S::Temp>>, Flaw> {
    let (key, options) = cut(what);
    match way {
        "open" => {
            let opts = options_of(env.alloc, options)?;
            Ok(opts.open_sync(env, cache, key))
        }
        "open_hash" => {
            let opts = options_of(env.alloc, what)?;
            Ok(opts.open_hash_sync(env, cache))
        }
        _ => Err(Flaw::NotRead),
    }
}

/// A writer that is opened in one of the ways, if the word is one. The key is an algorithm's name and the key for
/// `create_with_algo`.
fn opened<S: Store>(
    env: &mut On<S>,
    way: &str,
    cache: &str,
    what: &str,
) -> Result<Answered<SyncWriter<S::Temp>>, Flaw> {
    let (name, key) = cut(what);
    match way {
        "create" => Ok(SyncWriter::create(env, cache, name)),
        "create_with_algo" => {
            let algorithm = algorithm_of(name)?;
            Ok(SyncWriter::create_with_algo(env, algorithm, cache, key))
        }
        _ => opened_with(env, way, cache, what),
    }
}

/// Writes the pieces, a piece a write, and returns whether all were taken.
fn takes<W: Write>(writer: &mut W, pieces: &str) -> bool {
    if is_nothing(pieces) {
        return true;
    }
    for piece in pieces.split(',') {
        if writer.write_all(piece.as_bytes()).is_err() {
            return false;
        }
    }
    true
}

/// The line on a writer that didn't take what it was given.
fn failed(alloc: Global) -> Result<String, AllocError> {
    String::from_str(alloc, "a write failed")
}

/// The line on the end of a writer: `commit`, `abandon`, `drop`, or the path of its file, which is gone when it is abandoned.
fn ended<S: Store>(
    env: &mut On<S>,
    writer: SyncWriter<S::Temp>,
    end: &str,
) -> Result<String, AllocError> {
    if end == "commit" {
        return stored(env.alloc, writer.commit(env));
    }
    if end == "drop" {
        let_go(writer);
        return String::from_str(env.alloc, "Dropped");
    }
    if end != "abandon" {
        let_go(remove_file(env, end));
    }
    done(env.alloc, writer.abandon(env))
}

/// The line on a writer that is given these pieces, and on its end; or why it wasn't opened.
fn given<S: Store>(
    env: &mut On<S>,
    opened: Answered<SyncWriter<S::Temp>>,
    end: &str,
    pieces: &str,
) -> Result<String, AllocError> {
    let mut writer = match opened {
        Ok(writer) => writer,
        Err(error) => return refused(env.alloc, error),
    };
    if takes(&mut writer, pieces) {
        return ended(env, writer, end);
    }
    let_go(writer);
    failed(env.alloc)
}

/// The line on a content's own writer that is given these pieces, and on its end; or why it wasn't opened.
fn closed<S: Store>(
    env: &mut On<S>,
    opened: Answered<Writer<S::Temp>>,
    pieces: &str,
) -> Result<String, AllocError> {
    let mut writer = match opened {
        Ok(writer) => writer,
        Err(error) => return refused(env.alloc, error),
    };
    if takes(&mut writer, pieces) {
        return stored(env.alloc, writer.close(env));
    }
    let_go(writer);
    failed(env.alloc)
}

/// The line on a content's own writer, which is opened with an algorithm and with a size that has no effect.
fn of_content<S: Store>(
    env: &mut On<S>,
    cache: &str,
    algorithm: &str,
    pieces: &str,
) -> Result<String, Flaw> {
    let algorithm = algorithm_of(algorithm)?;
    let opened = Writer::new(env, cache, algorithm, Some(3));
    Ok(closed(env, opened, pieces)?)
}

/// The line on a writer.
pub(crate) fn written<S: Store>(
    env: &mut On<S>,
    words: &str,
    pieces: &str,
) -> Result<String, Flaw> {
    let (way, words) = cut(words);
    let (end, words) = cut(words);
    let (cache, what) = cut(words);
    if way == "content" {
        return of_content(env, cache, what, pieces);
    }
    let opened = opened(env, way, cache, what)?;
    Ok(given(env, opened, end, pieces)?)
}
