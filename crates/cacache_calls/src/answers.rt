//! What an answer to a step of one kind contains, or why the step was refused.
ghost use Rattle.std.specs.Prelude.{◌≡◌, Result, Ok, Err};
ghost use Rattle.cacache_store.specs.Plain.{plain_answer};
ghost use Rattle.cacache_calls.specs.{Answers.{refusal_in, done_in, temp_in, written_in, synced_in, taken_in, bytes_in, there_in, file_in, got_in, length_in, names_in}, Steps.{seen_by, written_as, got_as}};

use cacache_core::bytes::Bytes;
use cacache_core::errors::Fault;
use cacache_core::keeping::let_go;
use cacache_store::store::{Answer, FileHandle, Listing, TempHandle};

/// Why a step was refused.
#[derive(Clone, Copy, Debug, PartialEq, Eq)]
pub enum Refusal {
    /// The step failed.
    Fault(Fault),
    /// Memory was refused.
    Memory,
}

/// A temporary file after a write, and how many of the bytes it took.
#[derive(Drop)]
pub struct Written<T> {
    /// The temporary file.
    pub file: T,
    /// How many bytes it took.
    pub count: usize,
}

/// An open file after a read, and the bytes that it returned.
#[derive(Drop)]
pub struct Got<F> {
    /// The open file, positioned after these bytes.
    pub file: F,
    /// The bytes. There are none only at the file's end, or if none were requested.
    pub bytes: Bytes,
}

/// Why the step was refused. An answer of another kind counts as a failure of the device.
fn refusal_of<F: FileHandle, T: TempHandle>(answer: Answer<F, T>) -> Refusal
    ensures { result ≡ refusal_in (plain_answer F.seen T.seen answer) }
{
    let refusal = refusal_by(&answer);
    let_go(answer);
    refusal
}

/// Why the step was refused that has this answer, which stays the caller's.
fn refusal_by<F: FileHandle, T: TempHandle>(answer: &Answer<F, T>) -> Refusal
    ensures { result ≡ refusal_in (plain_answer F.seen T.seen answer.now) }
{
    match answer {
        Answer::Failed(fault) => Refusal::Fault(*fault),
        Answer::NoMemory(_) => Refusal::Memory,
        _ => Refusal::Fault(Fault::Device),
    }
}

/// Whether the step was done.
pub fn done_of<F: FileHandle, T: TempHandle>(answer: Answer<F, T>) -> Result<(), Refusal>
    ensures { result ≡ done_in (plain_answer F.seen T.seen answer) }
{
    match answer {
        Answer::Done => Ok(()),
        other => Err(refusal_of(other)),
    }
}

/// The temporary file that was made.
pub fn temp_of<F: FileHandle, T: TempHandle>(answer: Answer<F, T>) -> Result<T, Refusal>
    ensures { seen_by T.seen result ≡ temp_in (plain_answer F.seen T.seen answer) }
{
    match answer {
        Answer::Temp(file) => Ok(file),
        other => Err(refusal_of(other)),
    }
}

/// The temporary file after a write, and how many bytes it took.
pub fn written_of<F: FileHandle, T: TempHandle>(answer: Answer<F, T>) -> Result<Written<T>, Refusal>
    ensures { seen_by (written_as T.seen) result ≡ written_in (plain_answer F.seen T.seen answer) }
{
    match answer {
        Answer::Wrote(file, count) => Ok(Written { file, count }),
        other => Err(refusal_of(other)),
    }
}

/// The temporary file whose bytes were synced.
pub fn synced_of<F: FileHandle, T: TempHandle>(answer: Answer<F, T>) -> Result<T, Refusal>
    ensures { seen_by T.seen result ≡ synced_in (plain_answer F.seen T.seen answer) }
{
    match answer {
        Answer::Synced(file) => Ok(file),
        other => Err(refusal_of(other)),
    }
}

/// How many bytes were appended or copied.
pub fn taken_of<F: FileHandle, T: TempHandle>(answer: Answer<F, T>) -> Result<usize, Refusal>
    ensures { result ≡ taken_in (plain_answer F.seen T.seen answer) }
{
    match answer {
        Answer::Took(count) => Ok(count),
        other => Err(refusal_of(other)),
    }
}

/// The bytes of a whole file.
pub fn bytes_of<F: FileHandle, T: TempHandle>(answer: Answer<F, T>) -> Result<Bytes, Refusal>
    ensures { result ≡ bytes_in (plain_answer F.seen T.seen answer) }
{
    match answer {
        Answer::Bytes(bytes) => Ok(bytes),
        other => Err(refusal_of(other)),
    }
}

/// Whether something is there.
pub fn there_of<F: FileHandle, T: TempHandle>(answer: Answer<F, T>) -> Result<bool, Refusal>
    ensures { result ≡ there_in (plain_answer F.seen T.seen answer) }
{
    match answer {
        Answer::There(there) => Ok(there),
        other => Err(refusal_of(other)),
    }
}

/// The file that was opened.
pub fn file_of<F: FileHandle, T: TempHandle>(answer: Answer<F, T>) -> Result<F, Refusal>
    ensures { seen_by F.seen result ≡ file_in (plain_answer F.seen T.seen answer) }
{
    match answer {
        Answer::File(file) => Ok(file),
        other => Err(refusal_of(other)),
    }
}

/// The open file after a read, and the bytes that it returned.
pub fn got_of<F: FileHandle, T: TempHandle>(answer: Answer<F, T>) -> Result<Got<F>, Refusal>
    ensures { seen_by (got_as F.seen) result ≡ got_in (plain_answer F.seen T.seen answer) }
{
    match answer {
        Answer::Got(file, bytes) => Ok(Got { file, bytes }),
        other => Err(refusal_of(other)),
    }
}

/// The size of a file.
pub fn length_of<F: FileHandle, T: TempHandle>(answer: Answer<F, T>) -> Result<u64, Refusal>
    ensures { result ≡ length_in (plain_answer F.seen T.seen answer) }
{
    match answer {
        Answer::Length(count) => Ok(count),
        other => Err(refusal_of(other)),
    }
}

/// The names in a folder.
pub fn names_of<F: FileHandle, T: TempHandle>(answer: Answer<F, T>) -> Result<Listing, Refusal>
    ensures { result ≡ names_in (plain_answer F.seen T.seen answer) }
{
    match answer {
        Answer::Names(names) => Ok(names),
        other => Err(refusal_of(other)),
    }
}
