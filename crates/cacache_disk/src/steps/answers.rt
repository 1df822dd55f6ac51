//! Copies of answers.
ghost use Rattle.std.specs.Prelude.{◌≡◌, ◌≤◌, false, IfOk, length};
ghost use Rattle.cacache_store.specs.Plain.{is_no_memory};
ghost use Rattle.cacache_disk.specs.Apply.{taken};

use cacache_core::bytes::Bytes;
use cacache_store::store::{Answer, PlainFile, PlainTemp};
use std::alloc::{AllocError, Global};

/// How many of the bytes are taken, if at most so many may be.
pub(crate) fn taken(most: Option<usize>, bytes: &Bytes) -> usize
    ensures same { result ≡ taken most bytes.now }
    ensures within { result ≤ length bytes.now }
{
    match most {
        None => bytes.len(),
        Some(most) => most.min(bytes.len()),
    }
}

/// Bytes that may be known, with one more owner.
fn known_again(bytes: &Option<Bytes>) -> Result<Option<Bytes>, AllocError>
    ensures { IfOk result (λ again. again ≡ bytes.now) }
{
    match bytes {
        None => Ok(None),
        Some(bytes) => Ok(Some(bytes.share()?)),
    }
}

/// A copy of an open file, its bytes shared.
fn copy_of_file(file: &PlainFile) -> Result<PlainFile, AllocError>
    ensures { IfOk result (λ copy. copy ≡ file.now) }
{
    let bytes = known_again(&file.bytes)?;
    Ok(PlainFile {
        left: file.left,
        bytes,
    })
}

/// A copy of a temporary file, its bytes shared.
pub(crate) fn copy_of_temp(temp: &PlainTemp) -> Result<PlainTemp, AllocError>
    ensures { IfOk result (λ copy. copy ≡ temp.now) }
{
    let path = temp.path.clone()?;
    Ok(PlainTemp {
        path,
        bytes: known_again(&temp.bytes)?,
    })
}

/// A copy of an open file and of bytes that it gave.
fn copy_of_read(file: &PlainFile, bytes: &Bytes) -> Result<(PlainFile, Bytes), AllocError>
    ensures { IfOk result (λ copy. copy ≡ (file.now, bytes.now)) }
{
    let bytes = bytes.share()?;
    Ok((copy_of_file(file)?, bytes))
}

/// A copy of an answer, its bytes shared.
pub(crate) fn copy_of(
    answer: &Answer<PlainFile, PlainTemp>,
    alloc: Global,
) -> Result<Answer<PlainFile, PlainTemp>, AllocError>
    requires { is_no_memory answer.now ≡ false }
    ensures { IfOk result (λ copy. copy ≡ answer.now) }
{
    match answer {
        Answer::Done => Ok(Answer::Done),
        Answer::Temp(temp) => Ok(Answer::Temp(copy_of_temp(temp)?)),
        Answer::Wrote(temp, count) => Ok(Answer::Wrote(copy_of_temp(temp)?, *count)),
        Answer::Took(count) => Ok(Answer::Took(*count)),
        Answer::Bytes(bytes) => Ok(Answer::Bytes(bytes.share()?)),
        Answer::File(file) => Ok(Answer::File(copy_of_file(file)?)),
        Answer::Got(file, bytes) => {
            let (file, bytes) = copy_of_read(file, bytes)?;
            Ok(Answer::Got(file, bytes))
        }
        Answer::There(is) => Ok(Answer::There(*is)),
        Answer::Length(count) => Ok(Answer::Length(*count)),
        Answer::Names(names) => Ok(Answer::Names(names.copy(alloc)?)),
        Answer::Synced(temp) => Ok(Answer::Synced(copy_of_temp(temp)?)),
        Answer::Failed(fault) => Ok(Answer::Failed(*fault)),
        Answer::NoMemory(_) => unreachable!(),
    }
}
