//! Steps on the files of real folders.
ghost use Rattle.std.specs.Prelude.{◌≡◌, ◌≤◌, IfOk, length};
ghost use Rattle.cacache_system.specs.declared.call.SystemCall.TheVariants as asks;
ghost use Rattle.cacache_system.specs.declared.call.CallResult.TheVariants as says;
ghost use Rattle.cacache_system.specs.{Seen.{said}, CallsOf.{RunLogged}, AnswersOf.{misses as is_missing}};
ghost use Rattle.cacache_system.specs.CallsOf as calls;
ghost use Rattle.cacache_store.specs.declared.store.step.Step.TheVariants as steps;
ghost use Rattle.cacache_store.specs.declared.store.answer.Answer.TheVariants as answers;
ghost use Rattle.cacache_folder.specs.{Goings.{said_opened, OpensFile}, StepClauses.{ValueRuns}};

use crate::folder::again::ask_to_write;
use crate::folder::refusing::unless_folder;
use cacache_system::{FileInfo, System};
use std::io;
use std::io::ErrorKind;

/// The mode of a temporary file: only its owner may read and write it.
pub(crate) const PRIVATE: u32 = 0o600;

/// A new empty file that only its owner may read and write, with a system that can write and remove it.
pub(crate) fn create_temp<Y: System + Clone>(system: &mut Y, path: &str) -> io::Result<(Y, Y::File)>
    ensures { RunLogged (calls.taking_memory (calls.only (asks.CreateNew path.now 384)))
        (said_opened (λ made. Y.number made.1) result) (Y.calls system.old) (Y.calls system.new) }
{
    let Ok(own) = system.clone() else {
        return Err(io::Error::from(ErrorKind::OutOfMemory));
    };
    match system.create_new(path, PRIVATE) {
        Ok(file) => Ok((own, file)),
        Err(error) => Err(error),
    }
}

/// Appends to the file at the path in one write.
pub(crate) fn append<Y: System>(system: &mut Y, path: &str, bytes: &[u8]) -> io::Result<usize>
    ensures count { IfOk result (λ count. count ≤ length bytes.now) }
    ensures ran { RunLogged (calls.appending path.now bytes.now) (said says.Count result)
        (Y.calls system.old) (Y.calls system.new) }
{
    let mut file = system.open_to_append(path)?;
    ask_to_write(system, &mut file, bytes)
}

/// The file or folder at the path, opened to read, and what the system says about it.
pub(crate) fn opened<Y: System>(system: &mut Y, path: &str) -> io::Result<(Y::File, FileInfo)>
    ensures { OpensFile Y.number path.now result (Y.calls system.old) (Y.calls system.new) }
{
    match system.open_to_read(path) {
        Ok(file) => match system.stat_file(&file) {
            Ok(info) => Ok((file, info)),
            Err(error) => Err(error),
        },
        Err(error) => Err(error),
    }
}

/// The file at the path, open for reading. The system would open a folder too, and fail its first read.
fn open<Y: System>(system: &mut Y, path: &str) -> io::Result<Y::File>
    ensures { RunLogged (calls.opening calls.to_give path.now)
        (said_opened Y.number result) (Y.calls system.old) (Y.calls system.new) }
{
    match opened(system, path) {
        Ok((file, info)) => match unless_folder(info.kind) {
            None => Ok(file),
            Some(why) => Err(io::Error::from(why)),
        },
        Err(error) => Err(error),
    }
}

/// The file at the path, open for reading, with a system that can read it.
pub(crate) fn open_with<Y: System + Clone>(system: &mut Y, path: &str) -> io::Result<(Y, Y::File)>
    ensures { RunLogged (calls.taking_memory (calls.opening calls.to_give path.now))
        (said_opened (λ made. Y.number made.1) result) (Y.calls system.old) (Y.calls system.new) }
{
    let Ok(own) = system.clone() else {
        return Err(io::Error::from(ErrorKind::OutOfMemory));
    };
    match open(system, path) {
        Ok(file) => Ok((own, file)),
        Err(error) => Err(error),
    }
}

/// What the system says about the file at the path.
pub(crate) fn size<Y: System>(system: &mut Y, path: &str) -> io::Result<FileInfo>
    ensures { RunLogged (calls.sizing path.now) (said says.Info result)
        (Y.calls system.old) (Y.calls system.new) }
{
    match system.stat(path) {
        Ok(info) => match unless_folder(info.kind) {
            None => Ok(info),
            Some(why) => Err(io::Error::from(why)),
        },
        Err(error) => Err(error),
    }
}

/// Whether nothing is there, or no folder leads there.
fn misses(kind: ErrorKind) -> bool
    ensures { result ≡ is_missing kind }
{
    matches!(kind, ErrorKind::NotFound | ErrorKind::NotADirectory)
}

/// Whether there is a file or folder at the path.
pub(crate) fn exists<Y: System>(system: &mut Y, path: &str) -> io::Result<bool>
    ensures { ValueRuns (steps.Exists path.now) answers.There result
        (Y.calls system.old) (Y.calls system.new) }
{
    match system.stat(path) {
        Ok(_) => Ok(true),
        Err(error) => if misses(error.kind()) {
            Ok(false)
        } else {
            Err(error)
        },
    }
}
