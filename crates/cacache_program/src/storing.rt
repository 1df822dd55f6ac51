//! The word `store`.
ghost use Rattle.std.specs.Prelude.{◌≡◌, ◌≤◌, ℕ, List, IfErr, IfOk, OnOk};
ghost use Rattle.cacache_sync.specs.content.OpenWrites.{given_up};
ghost use Rattle.cacache.specs.{Calls.{KeepsRest}, OpenHandles.{FailsToOpen, OpensFile, TriesToRemove}};
ghost use Rattle.cacache_program.specs.{WordWrite.{AreAllOf}, WordStore.{EndsFile, StoresFile, WentOn}};

use crate::errors::{Errors, tell_failed_call};
use crate::writing::print;
use cacache::env::{Clock, Env, Names, Reasons};
use cacache::errors::{Error, Fault};
use cacache::store::{OpenedFile, Step, Store};
use cacache::text::Text;
use cacache::{Integrity, Result, SyncWriter};
use cacache_calls::answers::Refusal;
use cacache_core::keeping::{beside, let_go};
use cacache_jobs::{opened_file, refused};
use std::alloc::{AllocError, Global};
use std::io::{ErrorKind, Write};

/// Opens the file at the path.
fn open<S: Store, C, N>(env: &mut Env<S, C, N>, path: &Text) -> Result<S::File>
    ensures opens { IfOk result (λ file. OpensFile path.now (S.File.seen file)
        (S.log env.old.store) (S.log env.new.store)) }
    ensures fails { IfErr result
        (λ e. FailsToOpen path.now e (S.log env.old.store) (S.log env.new.store)) }
    ensures rest { KeepsRest env.old env.new }
{
    let named = path.clone()?;
    opened_file(env.alloc, path, env.store.step(Step::Open(named)))
}

/// The file at the path couldn't be read.
pub(crate) fn reading(alloc: Global, path: &Text) -> std::result::Result<Text, AllocError> {
    Ok(Text::new(format!(in alloc; "Failed to read {path}")?))
}

/// Why a writer is given up: its file couldn't be read for this reason, or the removal found no memory.
fn given_up(removed: Result<()>, error: Error) -> Error
    ensures { result ≡ given_up removed error }
{
    match removed {
        Err(Error::OutOfMemory) => Error::OutOfMemory,
        other => {
            let_go(other);
            error
        }
    }
}

/// Gives up the writer of a file that couldn't be read.
fn give_up<S: Store, C: Clock, N: Names>(
    env: &mut Env<S, C, N>,
    writer: SyncWriter<S::Temp>,
    kind: ErrorKind,
    path: &Text,
) -> Error
    ensures tries { TriesToRemove writer.writer.path result
        (S.log env.old.store) (S.log env.new.store) }
    ensures clock { env.new.clock ≡ env.old.clock }
    ensures names { env.new.names ≡ env.old.names }
    ensures base { env.new.base ≡ env.old.base }
{
    let error = refused(Refusal::Fault(Fault::from(kind)), reading(env.alloc, path));
    given_up(writer.abandon(env), error)
}

/// Reads the file to its end, in pieces that the writer takes. If either fails, the writer's file is removed.
fn fill<S: Store, C: Clock, N: Names>(
    env: &mut Env<S, C, N>,
    file: S::File,
    writer: SyncWriter<S::Temp>,
    path: &Text,
) -> Result<SyncWriter<S::Temp>>
    ensures went { IfOk result (λ last. (bytes : List ℕ) × AreAllOf (S.File.seen file).bytes bytes
        × WentOn S.Temp.seen writer bytes last) }
    ensures quiet { OnOk result (env.new.store ≡ env.old.store) }
    ensures removed { IfErr result (λ e. TriesToRemove writer.writer.path e
        (S.log env.old.store) (S.log env.new.store)) }
    ensures clock { env.new.clock ≡ env.old.clock }
    ensures names { env.new.names ≡ env.old.names }
    ensures base { env.new.base ≡ env.old.base }
{
    let (mut file, mut writer) = (file, writer);
    let mut piece = [0u8; 8192];
    loop {
        match file.read_some(&mut piece) {
            Ok(0) => return Ok(writer),
            Ok(count) => writer = writer.write_or_abandon(env, &piece[..count])?,
            Err(error) => return Err(give_up(env, writer, error.kind(), path)),
        }
    }
}

/// Stores what the file at the path holds under the key, in pieces, and answers its integrity.
fn store_file<S: Store, C: Clock, N: Names>(
    env: &mut Env<S, C, N>,
    cache: &str,
    key: &str,
    path: &str,
) -> Result<Integrity>
    ensures ends { EndsFile S.log N.given S.Temp.seen C.given cache.now key.now path.now
        result env.old env.new }
{
    let path = Text::from_str(env.alloc, path)?;
    let file = open(env, &path)?;
    let created = beside(SyncWriter::create(env, cache, key), file)?;
    let (writer, file) = created;
    let filled = fill(env, file, writer, &path)?;
    filled.commit(env)
}

/// Stores what the file at the path holds under the key, in pieces, and prints the integrity and a line feed.
pub(crate) fn store<S: Reasons, C: Clock, N: Names, W: Write, E: Write>(
    env: &mut Env<S, C, N>,
    cache: &str,
    key: &str,
    path: &str,
    output: &mut W,
    errors: &mut Errors<E>,
) -> u8
    ensures does { StoresFile S.log N.given S.Temp.seen C.given cache.now key.now path.now
        env.old env.new (W.contents output.old) (W.contents output.new) result }
    ensures status { result ≤ 1 }
    ensures quiet { result ≡ 0 → errors.new ≡ errors.old }
{
    match store_file(env, cache, key, path) {
        Ok(integrity) => print(env.alloc, &integrity, output, errors),
        Err(error) => tell_failed_call(errors, &error, env.store.reason()),
    }
}
