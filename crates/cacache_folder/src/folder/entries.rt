//! What is under the names of a folder.
ghost use Rattle.std.specs.{Prelude.{◌≡◌, ◌==◌, ◌++◌, ◌∷◌, [], ◌↔◌, true, IfOk, IfErr, OnOk, IsTrue}, List.{list_any}};
ghost use Rattle.std_io.specs.declared.io.kind.ErrorKind.TheVariants as kinds_of_error;
ghost use Rattle.cacache_core.specs.Paths.{ends_name, IsProperName};
ghost use Rattle.cacache_store.specs.Plain.{AreProperNames};
ghost use Rattle.cacache_system.specs.Seen as told;
ghost use Rattle.cacache_folder.specs.Listings.{NamesEntry, EntersName, AsksKind, AsksKindIfText, FindsKind, ListsName};

use crate::folder::escaped::text_of_name;
use crate::folder::paths::is_absent;
use cacache_store::store::{Kind, Name};
use cacache_system::System;
use std::alloc::Global;
use std::io::ErrorKind;

/// What a look into a folder gives. Its error is a kind alone: the compiler and the prover pay for a wide one at each
/// way out.
pub(crate) type Looked<T> = Result<T, ErrorKind>;

/// Whether the name has this byte.
fn has(name: &str, byte: u8) -> bool
    ensures { result ≡ list_any (λ b. b == byte) name.now }
{
    name.as_bytes().contains(&byte)
}

/// Whether the name has a `/` or a NUL.
fn has_end(name: &str) -> bool
    ensures { result ≡ list_any ends_name name.now }
{
    has(name, b'/') | has(name, 0)
}

/// Whether the name stands for one thing in its folder.
fn is_proper(name: &str) -> bool
    ensures { IsTrue result ↔ IsProperName name.now }
{
    !(name.is_empty() || name == "." || name == ".." || has_end(name))
}

/// Whether the name is that of the folder itself, or of the one above it, or none.
fn is_passed(name: &[u8]) -> bool
    ensures { result ≡ told.is_passed name.now }
{
    name.is_empty() || name == b".".as_slice() || name == b"..".as_slice()
}

/// The name of a thing of this kind, by its bytes.
fn named(alloc: Global, name: &[u8], kind: Kind) -> Looked<Name>
    ensures proper { IfOk result (λ entry. IsProperName entry.name) }
    ensures told { NamesEntry name.now kind result }
{
    match text_of_name(alloc, name) {
        Ok(name) => if is_proper(name.as_str()) {
            Ok(Name { name, kind })
        } else {
            Err(ErrorKind::InvalidFilename)
        },
        Err(_) => Err(ErrorKind::OutOfMemory),
    }
}

/// Adds an entry.
fn push(names: &mut Vec<Name>, entry: Name) -> Looked<()>
    ensures grown { OnOk result (names.new.items ≡ names.old.items ++ entry ∷ []) }
    ensures refused { IfErr result (λ why. why ≡ kinds_of_error.OutOfMemory) }
{
    match names.push(entry) {
        Ok(()) => Ok(()),
        Err(_) => Err(ErrorKind::OutOfMemory),
    }
}

/// Adds the name of a thing of this kind, by its bytes.
fn enter(alloc: Global, names: &mut Vec<Name>, name: &[u8], kind: Kind) -> Looked<()>
    ensures proper { OnOk result (AreProperNames names.old.items → AreProperNames names.new.items) }
    ensures told { EntersName name.now kind names.old.items names.new.items result }
{
    match named(alloc, name, kind) {
        Ok(entry) => push(names, entry),
        Err(why) => Err(why),
    }
}

/// What kind of thing is at the path; None if it was removed since the folder was read.
fn kind_at<Y: System>(system: &mut Y, path: &str) -> Looked<Option<Kind>>
    ensures { AsksKind path.now result (Y.calls system.old) (Y.calls system.new) }
{
    match system.stat_link(path) {
        Ok(info) => Ok(Some(info.kind)),
        Err(error) => if is_absent(error.kind()) {
            Ok(None)
        } else {
            Err(error.kind())
        },
    }
}

/// What kind of thing is at the path if it is text. The runtime is asked by texts alone: what has a name that is no text counts as a
/// file.
fn kind_if_text<Y: System>(system: &mut Y, path: &[u8]) -> Looked<Option<Kind>>
    ensures { AsksKindIfText path.now result (Y.calls system.old) (Y.calls system.new) }
{
    match std::str::from_utf8(path) {
        Ok(path) => kind_at(system, path),
        Err(_) => Ok(Some(Kind::File)),
    }
}

/// What kind of thing a folder has under a name; the folder's path ends in a `/`.
fn kind_below<Y: System>(system: &mut Y, folder: &mut Vec<u8>, name: &[u8]) -> Looked<Option<Kind>>
    ensures same { folder.new.items ≡ folder.old.items }
    ensures ran { FindsKind folder.old.items name.now result
        (Y.calls system.old) (Y.calls system.new) }
{
    let top = folder.len();
    match folder.extend_from_slice(name) {
        Ok(()) => {
            let kind = kind_if_text(system, folder.as_slice());
            folder.truncate(top);
            kind
        }
        Err(_) => Err(ErrorKind::OutOfMemory),
    }
}

/// Adds what is under a name of a folder, unless it was removed since the folder was read. The folder's path ends in
/// a `/`.
pub(crate) fn add<Y: System + AllocGlobal>(
    system: &mut Y,
    names: &mut Vec<Name>,
    folder: &mut Vec<u8>,
    name: &[u8],
) -> Looked<()>
    ensures proper { OnOk result
        (AreProperNames names.old.items → AreProperNames names.new.items) }
    ensures same { folder.new.items ≡ folder.old.items }
    ensures ran { ListsName folder.old.items name.now names.old.items names.new.items
        result (Y.calls system.old) (Y.calls system.new) }
{
    if is_passed(name) {
        return Ok(());
    }
    match kind_below(system, folder, name) {
        Ok(Some(kind)) => enter(system.alloc(), names, name, kind),
        Ok(None) => Ok(()),
        Err(why) => Err(why),
    }
}
