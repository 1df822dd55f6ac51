//! Folders that are made with those on their way.
ghost use Rattle.std.specs.Prelude.{◌≡◌, ◌<◌, ℕ, Bool, List, false, IfErr, IfSome, option_map, length};
ghost use Rattle.std_io.specs.IoError.{error_kind};
ghost use Rattle.cacache_system.specs.declared.call.CallResult.TheVariants as says;
ghost use Rattle.cacache_system.specs.{Seen.{said}, CallsOf.{Stage, RunLogged, CallsLogged, above_of, below, is_absent as absent_of}};
ghost use Rattle.cacache_system.specs.CallsOf as calls;
ghost use Rattle.cacache_folder.specs.Goings.{onward, made, make_first, Confirms};

use crate::folder::refusing::if_folder;
use cacache_store::store::Kind;
use cacache_system::System;
use std::io;
use std::io::ErrorKind;

/// The path of the folder above, if the path names one.
pub(crate) fn above(path: &str) -> Option<&str>
    ensures value { option_map (λ a. a.now) result ≡ above_of path.now }
    ensures shorter { IfSome result (λ a. length a.now < length path.now) }
{
    match path.rfind('/') {
        Some(at) => Some(&path[..at]),
        None => None,
    }
}

/// Whether nothing is there.
pub(crate) fn is_absent(kind: ErrorKind) -> bool
    ensures { result ≡ absent_of kind }
{
    matches!(kind, ErrorKind::NotFound)
}

/// What is there has to be a folder.
fn stood(kind: Kind) -> io::Result<bool>
    ensures end { (s : Stage) → calls.if_folder kind ErrorKind.AlreadyExists s
        ≡ onward (λ _. s) result }
    ensures kinds { IfErr result (λ error. absent_of (error_kind error) ≡ false) }
{
    match kind {
        Kind::Folder => Ok(false),
        _ => Err(io::Error::from(ErrorKind::AlreadyExists)),
    }
}

/// Asks whether the folder is there after all. If nothing is there, the first error says why.
fn confirm<Y: System>(system: &mut Y, path: &str, first: io::Error) -> io::Result<bool>
    requires { absent_of (error_kind first) ≡ false }
    ensures gone { Confirms path.now (error_kind first) result
        (Y.calls system.old) (Y.calls system.new) }
    ensures kinds { IfErr result (λ error. absent_of (error_kind error) ≡ false) }
{
    match system.stat(path) {
        Ok(info) => stood(info.kind),
        Err(error) => if is_absent(error.kind()) {
            Err(first)
        } else {
            Err(error)
        },
    }
}

/// Makes one folder. Returns whether it was missing. It may be there already, after a wrong guess or if somebody else
/// has made it, and not each file system says then that it exists.
fn make_dir<Y: System>(system: &mut Y, path: &str) -> io::Result<bool>
    ensures { (again : Bool) (todo : List (List ℕ)) → CallsLogged (calls.making again path.now todo)
        (made again path.now todo result) (Y.calls system.old) (Y.calls system.new) }
{
    match system.make_folder(path) {
        Ok(()) => Ok(true),
        Err(error) => if is_absent(error.kind()) {
            Err(error)
        } else {
            confirm(system, path, error)
        },
    }
}

/// Makes the folder, and those above it if the system misses one. Returns whether it was missing.
fn make_missing<Y: System>(system: &mut Y, path: &str) -> io::Result<bool>
    ensures { (todo : List (List ℕ)) → CallsLogged (calls.making false path.now todo)
        (onward (λ _. below todo) result) (Y.calls system.old) (Y.calls system.new) }
{
    match make_dir(system, path) {
        Ok(was_missing) => Ok(was_missing),
        Err(error) => if is_absent(error.kind()) {
            match above(path) {
                None => Err(error),
                Some(upper) => match make_missing(system, upper) {
                    Ok(_) => make_dir(system, path),
                    Err(other) => Err(other),
                },
            }
        } else {
            Err(error)
        },
    }
}

/// Asks for the folder, makes it if it is missing, and returns whether it was. Anything else that is there is an
/// error.
fn ask_first<Y: System>(system: &mut Y, path: &str) -> io::Result<bool>
    ensures { CallsLogged (calls.standing path.now) (onward (λ _. calls.over says.Done) result)
        (Y.calls system.old) (Y.calls system.new) }
{
    match system.stat(path) {
        Ok(info) => stood(info.kind),
        Err(error) => if is_absent(error.kind()) {
            make_missing(system, path)
        } else {
            Err(error)
        },
    }
}

/// Makes every missing folder of the path, and returns whether the last one was missing. A folder that is there costs
/// one question to the system, and one that alone is missing costs one call that makes it. A wrong guess which of
/// them it is costs one more.
pub(crate) fn make_dirs<Y: System>(system: &mut Y, path: &str, is_guessed: bool) -> io::Result<bool>
    ensures { RunLogged (make_first is_guessed path.now) (said (λ _. says.Done) result)
        (Y.calls system.old) (Y.calls system.new) }
{
    if is_guessed {
        make_missing(system, path)
    } else {
        ask_first(system, path)
    }
}
