//! Paths as names: which lie apart, and which are the same.
ghost use Rattle.std.specs.{Prelude.{◌≡◌, ℕ, List, Ok, IfOk, option_map}, Result.{result_ok}};
ghost use Rattle.cacache_core.specs.Paths.{home_of, names_of};
ghost use Rattle.cacache_history.specs.Setup.{are_apart, apart_from_home, apart_from_text, apart_from_files, may_export, same_place, has_file as has_file_of, is_outside};
ghost use Rattle.cacache_world.specs.WorldKept.{setup_of};

use cacache_core::bytes::Bytes;
use cacache_core::paths::{is_above, is_name};
use cacache_core::text::Text;
use std::alloc::{AllocError, Global};
use std::cmp::Ordering;

/// The names of a folder's text, none if it can't name one; the empty text is the top folder.
fn home_names(alloc: Global, text: &str) -> Result<Option<Vec<Text>>, AllocError>
    ensures { IfOk result (λ names. option_map (λ v. v.items) names ≡ home_of text.now) }
{
    if text.as_bytes().contains(&0) {
        return Ok(None);
    }
    let mut names: Vec<Text> = Vec::new(alloc);
    for piece in text.split('/') {
        if is_above(piece) {
            return Ok(None);
        }
        if is_name(piece) {
            names.push(Text::from_str(alloc, piece)?)?;
        }
    }
    Ok(Some(names))
}

/// The names of a path's text, none if it names nothing.
fn path_names(alloc: Global, text: &str) -> Result<Option<Vec<Text>>, AllocError>
    ensures { IfOk result
        (λ names. option_map (λ v. v.items) names ≡ result_ok (names_of text.now)) }
{
    if text.is_empty() {
        return Ok(None);
    }
    home_names(alloc, text)
}

/// Whether neither path is the other, or lies below it.
fn are_apart(one: &[Text], other: &[Text]) -> bool
    ensures { result ≡ are_apart one.now other.now }
{
    let count = one.len().min(other.len());
    !(one[..count] == other[..count])
}

/// Whether a path lies apart from the cache's folder.
fn is_apart_from_home(alloc: Global, cache: &str, path: &[Text]) -> Result<bool, AllocError>
    ensures { IfOk result (λ apart. apart ≡ apart_from_home (home_of cache.now) path.now) }
{
    match home_names(alloc, cache)? {
        Some(names) => Ok(are_apart(names.as_slice(), path)),
        None => Ok(true),
    }
}

/// Whether a path lies apart from what a text names.
fn is_apart_from_text(alloc: Global, text: &str, path: &[Text]) -> Result<bool, AllocError>
    ensures { IfOk result (λ apart. apart ≡ apart_from_text (names_of text.now) path.now) }
{
    match path_names(alloc, text)? {
        Some(names) => Ok(are_apart(names.as_slice(), path)),
        None => Ok(true),
    }
}

/// Whether a path lies apart from each of these files.
fn is_apart_from_files(
    alloc: Global,
    files: &[(Text, Bytes)],
    path: &[Text],
) -> Result<bool, AllocError>
    ensures { IfOk result (λ apart. apart ≡ apart_from_files files.now path.now) }
{
    for file in files {
        if !is_apart_from_text(alloc, file.0.as_str(), path)? {
            return Ok(false);
        }
    }
    Ok(true)
}

/// Whether an export may go to a path: apart from the cache and from each outside file. One that
/// names nothing may be taken, since its step fails.
pub(crate) fn may_take(
    alloc: Global,
    cache: &str,
    outside: &[(Text, Bytes)],
    path: &str,
) -> Result<bool, AllocError>
    ensures { IfOk result (λ may. (callers : ℕ)
        → may ≡ may_export (setup_of cache.now outside.now callers) path.now) }
{
    let Some(names) = path_names(alloc, path)? else {
        return Ok(true);
    };
    if !is_apart_from_home(alloc, cache, names.as_slice())? {
        return Ok(false);
    }
    is_apart_from_files(alloc, outside, names.as_slice())
}

/// Whether a text names this path.
fn is_same(alloc: Global, text: &str, path: &[Text]) -> Result<bool, AllocError>
    ensures { IfOk result (λ same. same ≡ same_place (names_of text.now) (Ok path.now)) }
{
    match path_names(alloc, text)? {
        Some(names) => Ok(names.as_slice().cmp(path) == Ordering::Equal),
        None => Ok(false),
    }
}

/// Whether one of these files lies at a path, by its names.
fn has_file(alloc: Global, files: &[(Text, Bytes)], path: &[Text]) -> Result<bool, AllocError>
    ensures { IfOk result (λ among. (text : List ℕ) → names_of text ≡ Ok path.now
        → among ≡ has_file_of files.now text) }
{
    for file in files {
        if is_same(alloc, file.0.as_str(), path)? {
            return Ok(true);
        }
    }
    Ok(false)
}

/// Whether one of the outside files lies at a path.
pub(crate) fn is_outside(
    alloc: Global,
    outside: &[(Text, Bytes)],
    path: &str,
) -> Result<bool, AllocError>
    ensures { IfOk result (λ may. (cache : List ℕ) (callers : ℕ)
        → may ≡ is_outside (setup_of cache outside.now callers) path.now) }
{
    match path_names(alloc, path)? {
        Some(names) => has_file(alloc, outside, names.as_slice()),
        None => Ok(false),
    }
}
