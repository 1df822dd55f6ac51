//! Copies of files.
ghost use Rattle.std.specs.{Prelude.{◌≡◌, ◌||◌}, Bool.{nat_eq}, Cmp.Lexicographic.{pointwise}};
ghost use Rattle.cacache_system.specs.declared.call.SystemCall.TheVariants as asks;
ghost use Rattle.cacache_system.specs.declared.call.CallResult.TheVariants as says;
ghost use Rattle.cacache_system.specs.{Seen.{said}, CallsOf.{RunLogged, is_same_node}};
ghost use Rattle.cacache_system.specs.CallsOf as calls;

use crate::folder::fresh::{count_of, replace};
use crate::folder::paths::is_absent;
use crate::folder::refusing::unless_folder;
use cacache_core::keeping::let_go;
use cacache_store::store::Kind;
use cacache_system::{FileInfo, System};
use std::io;
use std::io::ErrorKind;

/// Whether both are of one file or folder. A system may number none.
fn is_same(one: &FileInfo, other: &FileInfo) -> bool
    ensures { result ≡ is_same_node one.now other.now }
{
    one.inode != 0 && one.inode == other.inode && one.device == other.device
}

/// Whether a file would be copied onto itself.
fn is_onto_itself(source: &FileInfo, target: &FileInfo, from: &str, to: &str) -> bool
    ensures { result ≡ (pointwise nat_eq from.now to.now || is_same_node source.now target.now) }
{
    from == to || is_same(source, target)
}

/// Whether a link is there.
fn is_link(kind: Kind) -> bool
    ensures { result ≡ calls.is_link kind }
{
    matches!(kind, Kind::Link)
}

/// The system's copy of the file into what is at the second path, and its size in bytes.
fn write_into<Y: System>(system: &mut Y, from: &str, to: &str) -> io::Result<usize>
    ensures { RunLogged (calls.only (asks.CopyFile from.now to.now)) (said says.Count result)
        (Y.calls system.old) (Y.calls system.new) }
{
    Ok(count_of(system.copy_file(from, to)?))
}

/// Copies the file over what the link at the second path leads to.
fn replace_end<Y: System + AllocGlobal>(
    system: &mut Y,
    number: u64,
    from: &str,
    to: &str,
) -> io::Result<usize>
    ensures { RunLogged (calls.resolving number from.now to.now) (said says.Count result)
        (Y.calls system.old) (Y.calls system.new) }
{
    let alloc = system.alloc();
    let path = system.real_path(alloc, to)?;
    replace(system, number, from, path.as_str())
}

/// Copies the file to where the link at the second path leads, if nothing is there yet.
fn make_end<Y: System + AllocGlobal>(
    system: &mut Y,
    number: u64,
    from: &str,
    to: &str,
) -> io::Result<usize>
    ensures { RunLogged (calls.making_end number from.now to.now) (said says.Count result)
        (Y.calls system.old) (Y.calls system.new) }
{
    let file = system.open_to_append(to)?;
    let_go(file);
    replace_end(system, number, from, to)
}

/// Copies the file about which the system said this over what is at the second path, about which it said that. A
/// folder is refused, the file itself stays, and what is neither file nor folder is written into.
fn copy_over<Y: System + AllocGlobal>(
    system: &mut Y,
    number: u64,
    is_through: bool,
    source: &FileInfo,
    target: &FileInfo,
    from: &str,
    to: &str,
) -> io::Result<usize>
    ensures { RunLogged (calls.copied number is_through source.now target.now from.now to.now)
        (said says.Count result) (Y.calls system.old) (Y.calls system.new) }
{
    if let Some(why) = unless_folder(target.kind) {
        Err(io::Error::from(why))
    } else if is_onto_itself(source, target, from, to) {
        Ok(count_of(source.size))
    } else if !target.regular {
        write_into(system, from, to)
    } else if is_through {
        replace_end(system, number, from, to)
    } else {
        replace(system, number, from, to)
    }
}

/// Copies the file about which the system said this over what the link at the second path leads to.
fn copy_through<Y: System + AllocGlobal>(
    system: &mut Y,
    number: u64,
    source: &FileInfo,
    from: &str,
    to: &str,
) -> io::Result<usize>
    ensures { RunLogged (calls.asking_end number source.now from.now to.now)
        (said says.Count result) (Y.calls system.old) (Y.calls system.new) }
{
    match system.stat(to) {
        Ok(target) => copy_over(system, number, true, source, &target, from, to),
        Err(error) => if is_absent(error.kind()) {
            make_end(system, number, from, to)
        } else {
            Err(error)
        },
    }
}

/// Copies the file about which the system said this.
fn copy_found<Y: System + AllocGlobal>(
    system: &mut Y,
    number: u64,
    source: &FileInfo,
    from: &str,
    to: &str,
) -> io::Result<usize>
    ensures { RunLogged (calls.asking_target number source.now from.now to.now)
        (said says.Count result) (Y.calls system.old) (Y.calls system.new) }
{
    match system.stat_link(to) {
        Ok(target) => if is_link(target.kind) {
            copy_through(system, number, source, from, to)
        } else {
            copy_over(system, number, false, source, &target, from, to)
        },
        Err(error) => if is_absent(error.kind()) {
            replace(system, number, from, to)
        } else {
            Err(error)
        },
    }
}

/// Copies the file and returns its size in bytes. A fresh file takes the place of what the target leads to, so that no
/// other path sees the copy. A file that is copied onto itself stays as it is.
pub(crate) fn copy<Y: System + AllocGlobal>(
    system: &mut Y,
    number: u64,
    from: &str,
    to: &str,
) -> io::Result<usize>
    ensures { RunLogged (calls.asking_source number from.now to.now) (said says.Count result)
        (Y.calls system.old) (Y.calls system.new) }
{
    match system.stat(from) {
        Ok(source) => if source.regular {
            copy_found(system, number, &source, from, to)
        } else {
            Err(io::Error::from(ErrorKind::InvalidInput))
        },
        Err(error) => Err(error),
    }
}
