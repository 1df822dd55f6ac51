//! What shows that a content isn't there: a walk through the contents that doesn't meet it.
ghost use Rattle.std.specs.Prelude.{◌≡◌, true, IfOk, IfErr, OnOk, map, string_bytes};
ghost use Rattle.cacache_jobs.specs.Environment.{KeepsRest};
ghost use Rattle.cacache_keep.specs.Missing.{Doubts, ShowsContents, StopsShowing, is_below as is_below_of, is_hidden as is_hidden_of, is_missing};

use crate::live::{hashes_of, is_live};
use cacache_calls::Refusal;
use cacache_core::digest::Hash;
use cacache_core::errors::{Fault, Result};
use cacache_core::integrity::Integrity;
use cacache_core::text::Text;
use cacache_jobs::{content_path, refused};
use cacache_store::env::{Clock, Env, Names};
use cacache_store::store::Store;
use cacache_walks::{Contents, list};
use std::alloc::{AllocError, Global};
use std::marker::Model;

/// The contents that a cache shows, in order, and the paths of what lies among them and is none. Contracts see both.
#[derive(Drop)]
pub(crate) struct Shown {
    contents: Vec<Hash>,
    strange: Vec<String>,
}

impl Model for Shown {
    ghost use Rattle.std.specs.List.Sorted.{IsSorted};
    ghost use Rattle.std.specs.Prelude.{map, string_bytes};
    ghost use Rattle.cacache_keep.specs.Missing.{Look};
    ghost use Rattle.cacache_walks.specs.Listing.{hash_cmp};

    ghost Value = { Look };

    ghost view = { λ s. (s.contents.items, map string_bytes s.strange.items) };

    ghost invariant = { λ s. IsSorted hash_cmp s.contents.items };
}

/// Walks through the contents.
pub(crate) fn look<S: Store, C: Clock, N: Names>(
    env: &mut Env<S, C, N>,
    cache: &str,
) -> Result<Shown>
    ensures shows { IfOk result (λ s. ShowsContents cache.now s
        (S.log env.old.store) (S.log env.new.store)) }
    ensures stops { IfErr result
        (λ e. StopsShowing cache.now e (S.log env.old.store) (S.log env.new.store)) }
    ensures rest { KeepsRest env.old env.new }
{
    let Contents { addresses, strange } = list(env, cache)?;
    let contents = hashes_of(env.alloc, addresses.as_slice())?;
    Ok(Shown { contents, strange })
}

/// Whether the path lies below the folder.
fn is_below(path: &[u8], folder: &[u8]) -> bool
    ensures { result ≡ is_below_of path.now folder.now }
{
    match path.strip_prefix(folder) {
        Some(rest) => rest.starts_with(b"/"),
        None => false,
    }
}

/// Whether the path lies below one of these.
fn is_hidden(strange: &[String], path: &str) -> bool
    ensures { result ≡ is_hidden_of (map string_bytes strange.now) path.now }
{
    for folder in strange {
        if is_below(path.as_bytes(), folder.as_bytes()) {
            return true;
        }
    }
    false
}

/// The content isn't there by one question, and may be there by the walk.
fn doubtful(alloc: Global, path: &Text) -> std::result::Result<Text, AllocError> {
    Ok(Text::new(format!(in alloc; "Failed to show that cache file {path} is missing")?))
}

/// Makes sure that the content isn't there: the walk didn't show it, and nothing strange hides it.
pub(crate) fn confirm(alloc: Global, shown: &Shown, cache: &str, sri: &Integrity) -> Result<()>
    ensures sure { OnOk result (is_missing cache.now shown.now sri.now ≡ true) }
    ensures doubts { IfErr result (λ e. Doubts cache.now shown.now sri.now e) }
{
    let path = content_path(alloc, cache, sri)?;
    let is_shown = is_live(shown.contents.as_slice(), sri.address());
    if is_shown || is_hidden(shown.strange.as_slice(), path.as_str()) {
        let refusal = Refusal::Fault(Fault::Device);
        return Err(refused(refusal, doubtful(alloc, &path)));
    }
    Ok(())
}
