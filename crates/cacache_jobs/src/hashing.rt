//! Reads files to their end, hashes each byte once and keeps none: contents to verify, and targets of links.
ghost use Rattle.std.specs.Prelude.{◌≡◌, ℕ, List, ◌++◌, length};
ghost use Rattle.cacache_calls.specs.{Linking.{after_read as after_read_of, hashed as hashed_of}, Steps.{content_path as content_path_of, got_as}, State.{Hashing as Purpose, opening_file, to_verify}};
ghost use Rattle.cacache_jobs.specs.{JobStates.{Leads, HashesFor}, LeadsOn.{LeadsOpened, LeadsRead, LeadsVerified}};

use crate::brought::opened_file;
use crate::phase::{Phase, refused};
use crate::stage::Stage;
use crate::{exporting, linking, messages};
use cacache_calls::answers::Got;
use cacache_calls::{Content, Export, Refusal, Target};
use cacache_core::errors::{self, Error};
use cacache_core::hasher::Hasher;
use cacache_core::integrity::IntegrityChecker;
use cacache_core::keeping::{beside, let_go};
use cacache_core::text::Text;
use cacache_store::store::{Answer, FileHandle, Step, TempHandle};
use std::alloc::Global;

/// The most bytes that one read may ask for.
pub const PIECE: usize = 8192;

/// Why a file is read to its end, and the hasher of its bytes.
pub enum Hashing {
    /// To verify the content at this path for the export.
    Verify(IntegrityChecker, Text, Export),
    /// To link to the target.
    Link(Hasher, Target<u128>),
}

// Written out so that a drop is a separate call: a proof about code that drops one needn't go through its parts.
impl Drop for Hashing {
    fn drop(self) {
        match self {
            Hashing::Verify(_checker, _from, _export) => {}
            Hashing::Link(_hasher, _target) => {}
        }
    }
}

/// Opens the content at this path to verify it for an export.
pub(crate) fn verify<F: FileHandle, T: TempHandle>(
    alloc: Global,
    content: Content,
    from: Text,
    export: Export,
) -> errors::Result<Phase<F, T>>
    ensures { from ≡ content_path_of content.cache content.integrity
        → Leads F.seen T.seen result (opening_file (to_verify content export)) }
{
    let Content { cache, integrity } = content;
    let_go(cache);
    let path: Result<_, _> = from.clone();
    let hashing = Hashing::Verify(IntegrityChecker::new(integrity), from, export);
    let (path, hashing) = beside(path, hashing)?;
    let hashing = Box::new(alloc, hashing)?;
    Ok(Phase::Wanting(Stage::Opening(hashing), Step::Open(path)))
}

/// Goes on after the step that opens the file.
pub(crate) fn after_open<F: FileHandle, T: TempHandle>(
    alloc: Global,
    hashing: Box<Hashing>,
    answer: Answer<F, T>,
) -> errors::Result<Phase<F, T>>
    ensures { LeadsOpened F.seen T.seen hashing.value answer result }
{
    match opened_file(alloc, hashing.path(), answer) {
        Ok(file) => Ok(Phase::Wanting(Stage::Hashing(hashing, 0), Step::Read(file, PIECE))),
        Err(error) => Err(error),
    }
}

/// Exports the content at this path if it meets its integrity. It was read to its end, and has this size.
fn export_verified<F: FileHandle, T: TempHandle>(
    alloc: Global,
    checker: IntegrityChecker,
    from: Text,
    export: Export,
    size: usize,
) -> errors::Result<Phase<F, T>>
    ensures { LeadsVerified F.seen T.seen checker from export size result }
{
    match checker.result(alloc) {
        Ok(_) => exporting::export_from(export.how, from, export.to, Some(size as u64)),
        Err(error) => Err(error),
    }
}

impl Hashing {
    /// The path of the file.
    fn path(&self) -> &Text {
        match self {
            Hashing::Verify(_, from, _) => from,
            Hashing::Link(_, target) => &target.path,
        }
    }

    /// Goes on after the file was read to its end, with this size.
    fn end<F: FileHandle, T: TempHandle>(
        self,
        alloc: Global,
        size: usize,
    ) -> errors::Result<Phase<F, T>>
        ensures { (h : Purpose) (bytes : List ℕ) → HashesFor self h bytes → size ≡ length bytes
            → Leads F.seen T.seen result (hashed_of h bytes) }
    {
        match self {
            Hashing::Verify(checker, from, export) => {
                export_verified(alloc, checker, from, export, size)
            }
            Hashing::Link(hasher, target) => {
                let computed = hasher.result(alloc)?;
                linking::link_target(alloc, target, computed, size)
            }
        }
    }

    /// Hashes these bytes after the ones hashed so far.
    fn feed(&mut self, piece: &[u8])
        ensures { (h : Purpose) (bytes : List ℕ) → HashesFor self.old h bytes
            → HashesFor self.new h (bytes ++ piece.now) }
    {
        match self {
            Hashing::Verify(checker, _, _) => checker.input(piece),
            Hashing::Link(hasher, _) => hasher.update(piece),
        }
    }
}

/// Hashes a piece of the file that follows this many bytes. An empty piece means the end of the file.
fn hash_piece<F: FileHandle, T: TempHandle>(
    alloc: Global,
    mut hashing: Box<Hashing>,
    size: usize,
    got: Got<F>,
) -> errors::Result<Phase<F, T>>
    ensures { (h : Purpose) (bytes : List ℕ) → HashesFor hashing.value h bytes → size ≡ length bytes
        → Leads F.seen T.seen result (after_read_of h bytes (got_as F.seen got)) }
{
    let Got { file, bytes } = got;
    if bytes.is_empty() {
        return Box::into_inner(hashing).end(alloc, size);
    }
    // the size of a longer file can't be represented
    let Some(size) = size.checked_add(bytes.len()) else {
        return Err(Error::OutOfMemory);
    };
    hashing.feed(bytes.as_slice());
    Ok(Phase::Wanting(Stage::Hashing(hashing, size), Step::Read(file, PIECE)))
}

/// Goes on after the step that reads a piece; this many bytes were read before it.
pub(crate) fn after_read<F: FileHandle, T: TempHandle>(
    alloc: Global,
    hashing: Box<Hashing>,
    size: usize,
    got: Result<Got<F>, Refusal>,
) -> errors::Result<Phase<F, T>>
    ensures { LeadsRead F.seen T.seen hashing.value size got result }
{
    match got {
        Ok(got) => hash_piece(alloc, hashing, size, got),
        Err(refusal) => Err(refused(refusal, messages::hashing(alloc, &hashing))),
    }
}
