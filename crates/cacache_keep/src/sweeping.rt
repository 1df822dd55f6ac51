//! The call that removes temporary files.
ghost use Rattle.std.specs.Prelude.{◌≡◌, ◌∷◌, [], IfOk, IfErr, filter, map, string_bytes};
ghost use Rattle.cacache_laws.specs.trees.Temporary.{area_of, cache_folder as cache_folder_of, is_temporary as is_temporary_of};
ghost use Rattle.cacache_jobs.specs.Environment.{KeepsRest};
ghost use Rattle.cacache_keep.specs.{Sweeping.{FindsFiles, ListsFolder, RemovesFile, RemovesFiles, StopsFinding, StopsFolder, StopsRemoval, StopsSized, StopsSweeping, others_in, swept_folder}, Told.{SweepsAs}};

use crate::reading::says_gone;
use cacache_calls::answers::{done_of, length_of, names_of};
use cacache_core::errors::Result;
use cacache_core::paths::{TEMP_AREA, join};
use cacache_core::text::Text;
use cacache_jobs::refused;
use cacache_store::env::{Clock, Env, Names};
use cacache_store::store::{Kind, Name, Step, Store};
use std::alloc::{AllocError, Global};

/// What a sweep did.
#[derive(Debug, Drop)]
pub struct Swept {
    /// How many temporary files are removed.
    pub files: u64,
    /// How many bytes they had; 2^64 - 1 if there are more.
    pub bytes: u64,
    /// The paths of whatever else lies in the folder of temporary files, in the order of its listing.
    pub strange: Vec<String>,
}

/// What lies in the folder of temporary files.
#[derive(Drop)]
struct Parts {
    files: Vec<Name>,
    strange: Vec<String>,
}

/// The names in a folder of these things; one that isn't there has none.
pub(crate) fn names_in<S: Store>(
    alloc: Global,
    store: &mut S,
    folder: &str,
    things: &str,
) -> Result<Vec<Name>>
    ensures lists { IfOk result
        (λ names. ListsFolder folder.now names.items (S.log store.old) (S.log store.new)) }
    ensures stops { IfErr result
        (λ e. StopsFolder folder.now e (S.log store.old) (S.log store.new)) }
{
    let path = Text::from_str(alloc, folder)?;
    match names_of(store.step(Step::ReadDir(path))) {
        Ok(names) => Ok(names.into_vec()),
        Err(refusal) => {
            if says_gone(refusal) {
                return Ok(Vec::new(alloc));
            }
            Err(refused(refusal, unlisted(alloc, folder, things)))
        }
    }
}

/// The folder couldn't be listed.
fn unlisted(alloc: Global, folder: &str, things: &str) -> std::result::Result<Text, AllocError> {
    Ok(Text::new(format!(in alloc; "Failed to list {things} in {folder}")?))
}

/// Whether what is in the folder of temporary files is one: a file whose name begins with `.tmp`.
fn is_temporary(name: &Name) -> bool
    ensures { result ≡ is_temporary_of name.now }
{
    matches!(name.kind, Kind::File) && name.name.as_str().as_bytes().starts_with(b".tmp")
}

/// The temporary files among the names, and the paths of the others.
fn tell_apart(
    alloc: Global,
    folder: &str,
    names: Vec<Name>,
) -> std::result::Result<Parts, AllocError>
    ensures files { IfOk result (λ f. f.files.items ≡ filter is_temporary_of names.items) }
    ensures others { IfOk result (λ f. map string_bytes f.strange.items
        ≡ others_in folder.now names.items) }
{
    let mut files = Vec::new(alloc);
    let mut strange = Vec::new(alloc);
    for name in names {
        if is_temporary(&name) {
            files.push(name)?;
        } else {
            strange.push(join(alloc, folder, name.name.as_str())?.into_string())?;
        }
    }
    Ok(Parts { files, strange })
}

/// The path of the cache folder. An empty one is that of the folder from which relative paths start.
fn cache_folder(cache: &str) -> &str
    ensures { result.now ≡ cache_folder_of cache.now }
{
    if cache.is_empty() { "." } else { cache }
}

/// What is in the place of the folder of temporary files, by the names in the cache folder.
fn area_in(around: &[Name]) -> Option<Kind>
    ensures { result ≡ area_of around.now }
{
    let mut rest = around;
    while let Some((name, later)) = rest.split_first() {
        if name.name.as_str() == TEMP_AREA {
            return Some(name.kind);
        }
        rest = later;
    }
    None
}

/// What lies in the folder of temporary files, or what else is in its place. In walks that were begun a store follows no
/// link to a folder that a listing named, so the cache folder is listed first.
fn find_files<S: Store>(alloc: Global, store: &mut S, cache: &str, folder: &str) -> Result<Parts>
    requires { folder.now ≡ swept_folder cache.now }
    ensures finds { IfOk result (λ p. FindsFiles cache.now p.files.items
        (map string_bytes p.strange.items) (S.log store.old) (S.log store.new)) }
    ensures stops { IfErr result
        (λ e. StopsFinding cache.now e (S.log store.old) (S.log store.new)) }
{
    let around = names_in(alloc, store, cache_folder(cache), "temporary files")?;
    match area_in(around.as_slice()) {
        Some(Kind::Folder) => {
            let names = names_in(alloc, store, folder, "temporary files")?;
            Ok(tell_apart(alloc, folder, names)?)
        }
        Some(_) => Ok(in_its_place(alloc, folder)?),
        None => Ok(Parts {
            files: Vec::new(alloc),
            strange: Vec::new(alloc),
        }),
    }
}

/// What is in the place of the folder of temporary files, if it isn't a folder.
fn in_its_place(alloc: Global, folder: &str) -> std::result::Result<Parts, AllocError>
    ensures files { IfOk result (λ f. f.files.items ≡ []) }
    ensures others { IfOk result (λ f. map string_bytes f.strange.items ≡ folder.now ∷ []) }
{
    let mut strange = Vec::new(alloc);
    strange.push(String::from_str(alloc, folder)?)?;
    Ok(Parts {
        files: Vec::new(alloc),
        strange,
    })
}

/// The file didn't give its size, or wasn't removed.
fn left(alloc: Global, path: &Text) -> std::result::Result<Text, AllocError> {
    Ok(Text::new(format!(in alloc; "Failed to remove temporary file {path}")?))
}

/// Removes the file at the path, and gives how many bytes it had.
fn remove_sized<S: Store>(alloc: Global, store: &mut S, path: &Text) -> Result<u64>
    ensures removes { IfOk result
        (λ size. RemovesFile path.now size (S.log store.old) (S.log store.new)) }
    ensures stops { IfErr result
        (λ e. StopsRemoval path.now e (S.log store.old) (S.log store.new)) }
{
    let size = match length_of(store.step(Step::Size(path.clone()?))) {
        Ok(size) => size,
        Err(refusal) => return Err(refused(refusal, left(alloc, path))),
    };
    match done_of(store.step(Step::RemoveFile(path.clone()?))) {
        Ok(()) => Ok(size),
        Err(refusal) => Err(refused(refusal, left(alloc, path))),
    }
}

/// Removes these files of the folder, and gives how many bytes they had.
fn remove_files<S: Store>(alloc: Global, store: &mut S, folder: &str, files: &[Name]) -> Result<u64>
    ensures removes { IfOk result (λ bytes. RemovesFiles folder.now files.now bytes
        (S.log store.old) (S.log store.new)) }
    ensures stops { IfErr result
        (λ e. StopsSized folder.now files.now e (S.log store.old) (S.log store.new)) }
{
    let mut bytes = 0u64;
    for file in files {
        let path = join(alloc, folder, file.name.as_str())?;
        bytes = bytes.saturating_add(remove_sized(alloc, store, &path)?);
    }
    Ok(bytes)
}

/// Sweeps a cache as `sweep` does, and leaves the walk open.
fn sweep_open<S: Store, C: Clock, N: Names>(env: &mut Env<S, C, N>, cache: &str) -> Result<Swept>
    ensures sweeps { IfOk result
        (λ s. SweepsAs cache.now s (S.log env.old.store) (S.log env.new.store)) }
    ensures stops { IfErr result
        (λ e. StopsSweeping cache.now e (S.log env.old.store) (S.log env.new.store)) }
    ensures rest { KeepsRest env.old env.new }
{
    let alloc = env.alloc;
    let folder = join(alloc, cache_folder(cache), TEMP_AREA)?;
    let Parts { files, strange } = find_files(alloc, &mut env.store, cache, folder.as_str())?;
    let bytes = remove_files(alloc, &mut env.store, folder.as_str(), files.as_slice())?;
    let files = files.len() as u64;
    Ok(Swept {
        files,
        bytes,
        strange,
    })
}

/// Removes the temporary files of a cache: those in its folder `tmp` whose names begin with `.tmp`. What else lies
/// there stays, whether a file, a folder or a link. A folder that isn't there has none. A link or a file in the place
/// of `tmp` is strange: it stays, and nothing that a link leads to is touched.
///
/// Sweep a cache while nobody writes to it: a write whose temporary file is gone fails.
///
/// Errors: `IoError` if the cache folder or `tmp` couldn't be listed, or if a file didn't give its size or couldn't
/// be removed. Files before it are removed then, in the order of the listing. `OutOfMemory` may come at any time.
pub fn sweep<S: Store, C: Clock, N: Names>(env: &mut Env<S, C, N>, cache: &str) -> Result<Swept>
    ensures sweeps { IfOk result
        (λ s. SweepsAs cache.now s (S.log env.old.store) (S.log env.new.store)) }
    ensures stops { IfErr result
        (λ e. StopsSweeping cache.now e (S.log env.old.store) (S.log env.new.store)) }
    ensures clock { env.new.clock ≡ env.old.clock }
    ensures names { env.new.names ≡ env.old.names }
    ensures base { env.new.base ≡ env.old.base }
{
    env.store.begin_walks();
    let answer = sweep_open(env, cache);
    env.store.end_walks();
    answer
}
