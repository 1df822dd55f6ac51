//! Answers that fit their step, each with a copy for a log. Of a file they know how much is left, and of its bytes nothing.
ghost use Rattle.std.specs.Prelude.{◌≡◌, ◌≤◌, false, None, IfOk};
ghost use Rattle.cacache_store.specs.Plain.{Fits, is_no_memory};

use crate::calls::words::{bytes_of, fault_of};
use cacache_core::bytes::Bytes;
use cacache_core::keeping::let_go;
use cacache_core::text::Text;
use cacache_store::store::{Answer, PlainAnswer, PlainFile, PlainStep, PlainTemp, Step};
use rows::Flaw;
use rows::words::{cut, number_of};
use std::alloc::{AllocError, Global};

/// An answer, and a copy of it.
#[derive(Drop)]
pub(crate) struct Told {
    pub(crate) answer: PlainAnswer,
    pub(crate) copy: PlainAnswer,
}

impl Told {
    /// The answer without its copy.
    pub(crate) fn into_answer(self) -> PlainAnswer {
        let Told { answer, copy } = self;
        let_go(copy);
        answer
    }
}

/// What the words say after the kind that is wanted.
fn behind<'a>(wanted: &str, words: &'a str) -> Result<&'a str, Flaw> {
    let (kind, rest) = cut(words);
    if kind == wanted {
        Ok(rest)
    } else {
        Err(Flaw::Unfit)
    }
}

/// The number that the words give after the kind that is wanted.
fn number_behind(wanted: &str, words: &str) -> Result<usize, Flaw> {
    number_of(behind(wanted, words)?)
}

/// The number that the words give, which is at most this.
fn count_within(wanted: &str, words: &str, most: usize) -> Result<usize, Flaw>
    ensures { IfOk result (λ count. count ≤ most) }
{
    let count = number_behind(wanted, words)?;
    if count <= most {
        Ok(count)
    } else {
        Err(Flaw::Unfit)
    }
}

/// The bytes that the words give, with a second owner.
fn two_of(alloc: Global, wanted: &str, words: &str) -> Result<(Bytes, Bytes), Flaw>
    ensures { IfOk result (λ two. two.1 ≡ two.0) }
{
    let bytes = bytes_of(alloc, behind(wanted, words)?)?;
    let again = bytes.share()?;
    Ok((bytes, again))
}

/// A temporary file at the path.
fn temp_at(path: &Text) -> Result<PlainTemp, AllocError>
    ensures path { IfOk result (λ temp. temp.path ≡ path.now) }
    ensures bytes { IfOk result (λ temp. temp.bytes ≡ None) }
{
    Ok(PlainTemp {
        path: path.clone()?,
        bytes: None,
    })
}

/// Whether there is something at the path.
fn there_of(words: &str) -> Result<bool, Flaw> {
    match behind("There", words)? {
        "yes" => Ok(true),
        "no" => Ok(false),
        _ => Err(Flaw::NotRead),
    }
}

/// The answer to a write of these bytes.
fn wrote(temp: &PlainTemp, bytes: &Bytes, words: &str) -> Result<Told, Flaw>
    ensures fits { IfOk result (λ told. Fits (Step.Write temp.now bytes.now) told.answer) }
    ensures copy { IfOk result (λ told. told.copy ≡ told.answer) }
    ensures made { IfOk result (λ told. is_no_memory told.answer ≡ false) }
{
    let count = count_within("Wrote", words, bytes.len())?;
    let first = temp_at(&temp.path)?;
    let second = temp_at(&temp.path)?;
    Ok(Told {
        answer: Answer::Wrote(first, count),
        copy: Answer::Wrote(second, count),
    })
}

/// The answer to the making of a temporary file at the path.
fn created(path: &Text, words: &str) -> Result<Told, Flaw>
    ensures fits { IfOk result (λ told. Fits (Step.CreateTemp path.now) told.answer) }
    ensures copy { IfOk result (λ told. told.copy ≡ told.answer) }
    ensures made { IfOk result (λ told. is_no_memory told.answer ≡ false) }
{
    let _none = behind("Temp", words)?;
    let first = temp_at(path)?;
    let second = temp_at(path)?;
    Ok(Told {
        answer: Answer::Temp(first),
        copy: Answer::Temp(second),
    })
}

/// A copy of bytes that may be known, with one owner more.
fn known_again(bytes: &Option<Bytes>) -> Result<Option<Bytes>, AllocError>
    ensures { IfOk result (λ again. again ≡ bytes.now) }
{
    match bytes {
        None => Ok(None),
        Some(bytes) => Ok(Some(bytes.share()?)),
    }
}

/// This temporary file once more.
fn temp_again(temp: &PlainTemp) -> Result<PlainTemp, AllocError>
    ensures { IfOk result (λ again. again ≡ temp.now) }
{
    let path = temp.path.clone()?;
    Ok(PlainTemp {
        path,
        bytes: known_again(&temp.bytes)?,
    })
}

/// The answer to a sync of the temporary file.
fn synced(temp: &PlainTemp, words: &str) -> Result<Told, Flaw>
    ensures fits { IfOk result (λ told. Fits (Step.SyncTemp temp.now) told.answer) }
    ensures copy { IfOk result (λ told. told.copy ≡ told.answer) }
    ensures made { IfOk result (λ told. is_no_memory told.answer ≡ false) }
{
    let _none = behind("Synced", words)?;
    let first = temp_again(temp)?;
    let second = temp_again(temp)?;
    Ok(Told {
        answer: Answer::Synced(first),
        copy: Answer::Synced(second),
    })
}

/// The answer to a read of at most so many bytes.
fn got(alloc: Global, file: &PlainFile, max: usize, words: &str) -> Result<Told, Flaw>
    ensures fits { IfOk result (λ told. Fits (Step.Read file.now max) told.answer) }
    ensures copy { IfOk result (λ told. told.copy ≡ told.answer) }
    ensures made { IfOk result (λ told. is_no_memory told.answer ≡ false) }
{
    let (bytes, again) = two_of(alloc, "Got", words)?;
    let count = bytes.len();
    if count > max || count > file.left {
        return Err(Flaw::Unfit);
    }
    let left = file.left - count;
    Ok(Told {
        answer: Answer::Got(PlainFile { left, bytes: None }, bytes),
        copy: Answer::Got(PlainFile { left, bytes: None }, again),
    })
}

/// The answer in words to a step that reads or writes.
fn on_bytes(alloc: Global, step: &PlainStep, words: &str) -> Result<Told, Flaw>
    ensures fits { IfOk result (λ told. Fits step.now told.answer) }
    ensures copy { IfOk result (λ told. told.copy ≡ told.answer) }
    ensures made { IfOk result (λ told. is_no_memory told.answer ≡ false) }
{
    match step {
        Step::CreateTemp(path) => created(path, words),
        Step::Write(temp, bytes) => wrote(temp, bytes, words),
        Step::Open(_) => {
            let left = number_behind("File", words)?;
            Ok(Told {
                answer: Answer::File(PlainFile { left, bytes: None }),
                copy: Answer::File(PlainFile { left, bytes: None }),
            })
        }
        Step::Read(file, max) => got(alloc, file, *max, words),
        Step::SyncTemp(temp) => synced(temp, words),
        Step::ReadAll(_) => {
            let (bytes, again) = two_of(alloc, "Bytes", words)?;
            Ok(Told {
                answer: Answer::Bytes(bytes),
                copy: Answer::Bytes(again),
            })
        }
        Step::Append(_, bytes) => {
            let count = count_within("Took", words, bytes.len())?;
            Ok(Told {
                answer: Answer::Took(count),
                copy: Answer::Took(count),
            })
        }
        _ => Err(Flaw::Unfit),
    }
}

/// The answer in words to a step that was done, none to one that lists a folder.
fn on_done(alloc: Global, step: &PlainStep, words: &str) -> Result<Told, Flaw>
    ensures fits { IfOk result (λ told. Fits step.now told.answer) }
    ensures copy { IfOk result (λ told. told.copy ≡ told.answer) }
    ensures made { IfOk result (λ told. is_no_memory told.answer ≡ false) }
{
    match step {
        Step::Exists(_) => {
            let is = there_of(words)?;
            Ok(Told {
                answer: Answer::There(is),
                copy: Answer::There(is),
            })
        }
        Step::Size(_) => {
            let count = number_behind("Length", words)? as u64;
            Ok(Told {
                answer: Answer::Length(count),
                copy: Answer::Length(count),
            })
        }
        Step::Copy(_, _) => {
            let count = number_behind("Took", words)?;
            Ok(Told {
                answer: Answer::Took(count),
                copy: Answer::Took(count),
            })
        }
        Step::MakeDirs(_)
        | Step::Persist(_, _)
        | Step::Symlink(_, _)
        | Step::Reflink(_, _)
        | Step::HardLink(_, _)
        | Step::RemoveFile(_)
        | Step::RemoveDir(_)
        | Step::SyncFile(_)
        | Step::SyncDir(_) => {
            let _none = behind("Done", words)?;
            Ok(Told {
                answer: Answer::Done,
                copy: Answer::Done,
            })
        }
        step => on_bytes(alloc, step, words),
    }
}

/// The answer in words to the step, none to one that lists a folder.
pub(crate) fn fitting(alloc: Global, step: &PlainStep, words: &str) -> Result<Told, Flaw>
    ensures fits { IfOk result (λ told. Fits step.now told.answer) }
    ensures copy { IfOk result (λ told. told.copy ≡ told.answer) }
    ensures made { IfOk result (λ told. is_no_memory told.answer ≡ false) }
{
    let Ok(name) = behind("Failed", words) else {
        return on_done(alloc, step, words);
    };
    let fault = fault_of(name)?;
    Ok(Told {
        answer: Answer::Failed(fault),
        copy: Answer::Failed(fault),
    })
}
