//! Readers, writers and linkers over a store that fails one read or write. A row's words say which one, counted from 0, and how
//! many the handle is asked for before its end. Each read asks for five bytes of `hello world`, and each write hands in the
//! next part of it, or all of it; the file takes three bytes at most. `finish` and `copy` read a reader to its end by one call.
use cacache::content::read::{Reader, open};
use cacache::{Integrity, Result as Answered, SyncToLinker, SyncWriter, WriteOpts};
use cacache_core::keeping::{beside, let_go};
use row_places::{Failing, Faulty, Mishaps, Short};
use rows::Flaw;
use rows::answers::{checked, refused, stored};
use rows::words::{cut, number_of, word_of};
use std::alloc::{AllocError, Global};
use std::io::{Read, Write};

/// The integrity of `hello world`, as `openssl dgst -sha256 -binary | base64` prints its digest.
const BOTH: &str = "sha256-uU0nuZNNPgilLlLX2n2r+sSE7+N6U4DukIj3rOLvzek=";

/// What a writer gets.
const PARTS: [&str; 3] = ["hello", " worl", "d"];

/// An environment over a faulty store.
type On = row_places::On<Faulty>;

/// What a row asks for.
#[derive(Clone, Copy)]
struct Asked {
    /// The number of the read or write that fails.
    fails: usize,
    /// How many there are before the end of the handle.
    count: usize,
    /// Whether no file can be removed.
    stays: bool,
    /// Whether each other read is interrupted.
    interrupts: bool,
}

/// The numbers of a row.
fn numbers(words: &str, stays: bool) -> Result<Asked, Flaw> {
    let (fails, count) = cut(words);
    Ok(Asked {
        fails: number_of(fails)?,
        count: number_of(count)?,
        stays,
        interrupts: false,
    })
}

/// What a row of this kind asks for. One that writes or reads all bytes by one call has no count, its reads may all be
/// `interrupted`, and ` stays` follows the numbers of one that can't remove its file.
fn asked_of(kind: &str, words: &str) -> Result<Asked, Flaw> {
    match (kind, words.strip_suffix(" stays")) {
        ("whole" | "finish" | "copy", _) => Ok(Asked {
            fails: words.parse::<usize>().unwrap_or(usize::MAX),
            count: 1,
            stays: false,
            interrupts: words == "interrupted",
        }),
        ("abandons", Some(words)) => numbers(words, true),
        _ => numbers(words, false),
    }
}

/// An environment that fails at the read or write of this number, and takes at most three bytes a write.
fn on(alloc: Global, asked: Asked) -> Result<On, AllocError> {
    let mishaps = Mishaps {
        fails: Some(asked.fails),
        most: 3,
        stays: asked.stays,
        interrupts: asked.interrupts,
        ..Mishaps::NONE
    };
    row_places::on(alloc, Faulty::new(alloc, mishaps)?, "/")
}

/// A text with an end after it.
fn with_end(text: String, end: Result<String, AllocError>) -> Result<String, AllocError> {
    let (end, mut text) = beside(end, text)?;
    let (_, text) = beside(text.push_str(end.as_str()), text)?;
    Ok(text)
}

/// A text with what the store keeps after it.
fn with_kept(env: &On, text: Result<String, AllocError>) -> Result<String, AllocError> {
    let text = text?;
    let kept = word_of(env.store.kept.as_slice());
    format!(in env.alloc; "{text}, kept {kept}")
}

/// Adds what so many reads give, each followed by a comma.
fn add_reads<R: Read>(text: &mut String, reader: &mut R, count: usize) -> Result<(), AllocError> {
    let mut buf = [0; 5];
    for _ in 0..count {
        text.push_str(match reader.read(&mut buf) {
            Ok(count) => word_of(&buf[..count]),
            Err(error) => {
                let_go(error);
                "failed"
            }
        })?;
        text.push_str(", ")?;
    }
    Ok(())
}

/// What so many reads give.
fn all_reads<R: Read>(alloc: Global, reader: &mut R, count: usize) -> Result<String, AllocError> {
    let mut text = String::new(alloc);
    let (_, text) = beside(add_reads(&mut text, reader, count), text)?;
    Ok(text)
}

/// How much a write takes, followed by a comma.
fn taken<W: Write>(alloc: Global, writer: &mut W, part: &str) -> Result<String, AllocError> {
    match writer.write(part.as_bytes()) {
        Ok(count) => format!(in alloc; "{count}, "),
        Err(error) => {
            let_go(error);
            String::from_str(alloc, "failed, ")
        }
    }
}

/// Adds how much so many writes take.
fn add_writes<W: Write>(
    alloc: Global,
    text: &mut String,
    writer: &mut W,
    count: usize,
) -> Result<(), AllocError> {
    for part in PARTS.get(..count).unwrap_or(&PARTS) {
        let taken = taken(alloc, writer, part)?;
        text.push_str(taken.as_str())?;
    }
    Ok(())
}

/// How much so many writes take.
fn all_writes<W: Write>(alloc: Global, writer: &mut W, count: usize) -> Result<String, AllocError> {
    let mut text = String::new(alloc);
    let (_, text) = beside(add_writes(alloc, &mut text, writer, count), text)?;
    Ok(text)
}

/// What the reads of a reader give, and its check.
fn read_and_check(
    alloc: Global,
    mut reader: Reader<Failing>,
    count: usize,
) -> Result<String, AllocError> {
    let (text, reader) = beside(all_reads(alloc, &mut reader, count), reader)?;
    with_end(text, checked(alloc, reader.check()))
}

/// What a reader copies, and what it says then.
fn copied(alloc: Global, reader: Reader<Failing>) -> Result<String, AllocError> {
    let mut out = Vec::new(alloc);
    let answer = reader.copy_to(&mut out);
    let out = String::from_str(alloc, word_of(&out))?;
    match answer {
        Ok(count) => format!(in alloc; "{out}, copied {count}"),
        Err(error) => format!(in alloc; "{out}, {}", refused(alloc, error)?),
    }
}

/// What a reader gives, and its check.
fn read(env: &mut On, kind: &str, count: usize) -> Result<String, Flaw> {
    let alloc = env.alloc;
    let sri = match Integrity::parse(alloc, BOTH) {
        Ok(sri) => sri,
        Err(error) => {
            let_go(error);
            return Err(Flaw::NoMemory);
        }
    };
    Ok(match open(env, "c", sri) {
        Ok(reader) => match kind {
            "finish" => checked(alloc, reader.finish())?,
            "copy" => copied(alloc, reader)?,
            _ => read_and_check(alloc, reader, count)?,
        },
        Err(error) => refused(alloc, error)?,
    })
}

/// What the writes of a writer take, and its commit.
fn write_and_commit(
    env: &mut On,
    mut writer: SyncWriter<Short>,
    count: usize,
) -> Result<String, AllocError> {
    let (text, writer) = beside(all_writes(env.alloc, &mut writer, count), writer)?;
    with_end(text, stored(env.alloc, writer.commit(env)))
}

/// What a writer's writes take, its commit, and what is stored then.
fn write(env: &mut On, count: usize) -> Result<String, AllocError> {
    let text = match WriteOpts::new().open_hash_sync(env, "c") {
        Ok(writer) => write_and_commit(env, writer, count),
        Err(error) => refused(env.alloc, error),
    };
    with_kept(env, text)
}

/// What was reported of a write, what came of the commit, and what is stored then.
fn told(env: &On, said: &str, end: Answered<Integrity>) -> Result<String, AllocError> {
    let end = stored(env.alloc, end)?;
    with_kept(env, format!(in env.alloc; "{said}, {end}"))
}

/// What a writer that gets all bytes at once says about it, its commit, and what is stored then.
fn write_whole(env: &mut On) -> Result<String, AllocError> {
    let mut writer = match WriteOpts::new().open_hash_sync(env, "c") {
        Ok(writer) => writer,
        Err(error) => return told(env, "", Err(error)),
    };
    let written = writer.write_all(b"hello world");
    let said = if written.is_ok() { "written" } else { "failed" };
    let_go(written);
    let end = writer.commit(env);
    told(env, said, end)
}

/// What a writer's commit answers if each part is written, or why the writer was abandoned.
fn commit_or_abandon(env: &mut On, count: usize) -> Answered<Integrity> {
    let mut writer = WriteOpts::new().open_sync(env, "c", "k")?;
    for part in PARTS.get(..count).unwrap_or(&PARTS) {
        writer = writer.write_or_abandon(env, part.as_bytes())?;
    }
    writer.commit(env)
}

/// What such a writer answers, what is stored then, and how many files were to be removed.
fn write_or_abandon(env: &mut On, count: usize) -> Result<String, AllocError> {
    let end = commit_or_abandon(env, count);
    let text = with_kept(env, stored(env.alloc, end))?;
    format!(in env.alloc; "{text}, removals {}", env.store.removals)
}

/// What the reads of a linker give, and its commit.
fn read_and_link(
    env: &mut On,
    mut linker: SyncToLinker<Failing>,
    count: usize,
) -> Result<String, AllocError> {
    let (text, linker) = beside(all_reads(env.alloc, &mut linker, count), linker)?;
    with_end(text, stored(env.alloc, linker.commit(env)))
}

/// What a linker gives, and its commit.
fn link(env: &mut On, count: usize) -> Result<String, AllocError> {
    match WriteOpts::new().link_to_hash_sync(env, "c", "/t") {
        Ok(linker) => read_and_link(env, linker, count),
        Err(error) => refused(env.alloc, error),
    }
}

/// What the handle of a row of this kind gives in an environment.
fn handled_in(env: &mut On, kind: &str, count: usize) -> Result<String, Flaw> {
    match kind {
        "reader" | "finish" | "copy" => read(env, kind, count),
        "writer" => Ok(write(env, count)?),
        "whole" => Ok(write_whole(env)?),
        "abandons" => Ok(write_or_abandon(env, count)?),
        _ => Ok(link(env, count)?),
    }
}

/// What the handle of a row of this kind gives: `reader`, `finish`, `copy`, `writer`, `whole`, `abandons` or `linker`.
pub(crate) fn handled(alloc: Global, kind: &str, words: &str) -> Result<String, Flaw> {
    let asked = asked_of(kind, words)?;
    let mut env = on(alloc, asked)?;
    handled_in(&mut env, kind, asked.count)
}
