//! Where the buckets of an index lie.
ghost use Rattle.std.specs.{Prelude.{◌≡◌, ◌++◌, IfOk, IfErr, OnOk, filter, map}, List.{list_all}};
ghost use Rattle.cacache_core.specs.Paths.{join as join_of};
ghost use Rattle.cacache_keep.specs.Buckets.{FindsBuckets, ListsParts, StopsFinding, StopsParts, belongs as belongs_of, is_hex_digit};

use crate::sweeping::names_in;
use cacache_core::errors::Result;
use cacache_core::paths::{INDEX_AREA, join};
use cacache_core::text::Text;
use cacache_store::store::{Kind, Name, Store};
use std::alloc::{AllocError, Global};

/// Whether these are hex digits, in lower case.
fn are_hex_digits(bytes: &[u8]) -> bool
    ensures { result ≡ list_all is_hex_digit bytes.now }
{
    for byte in bytes {
        if !matches!(*byte, b'0'..=b'9' | b'a'..=b'f') {
            return false;
        }
    }
    true
}

/// Whether what is in a folder of the index is a bucket or, above the last folders, a folder that leads to buckets.
fn belongs(name: &Name, last: bool) -> bool
    ensures { result ≡ belongs_of last name.now }
{
    let text = name.name.as_str().as_bytes();
    if last {
        return matches!(name.kind, Kind::File) && text.len() == 36 && are_hex_digits(text);
    }
    matches!(name.kind, Kind::Folder) && text.len() == 2 && are_hex_digits(text)
}

/// Adds the paths of what belongs in a folder of the index.
fn push_parts(
    alloc: Global,
    paths: &mut Vec<Text>,
    folder: &str,
    names: Vec<Name>,
    last: bool,
) -> std::result::Result<(), AllocError>
    ensures { OnOk result (paths.new.items ≡ paths.old.items
        ++ map (λ n. join_of folder.now n.name) (filter (belongs_of last) names.items)) }
{
    for name in names {
        if belongs(&name, last) {
            paths.push(join(alloc, folder, name.name.as_str())?)?;
        }
    }
    Ok(())
}

/// The paths of what belongs in these folders of the index, in the order of their listings. A folder that isn't there
/// has none.
fn parts_below<S: Store>(
    alloc: Global,
    store: &mut S,
    folders: &[Text],
    last: bool,
) -> Result<Vec<Text>>
    ensures lists { IfOk result (λ paths. ListsParts last folders.now paths.items
        (S.log store.old) (S.log store.new)) }
    ensures stops { IfErr result
        (λ e. StopsParts folders.now e (S.log store.old) (S.log store.new)) }
{
    let mut paths = Vec::new(alloc);
    for folder in folders {
        let names = names_in(alloc, store, folder.as_str(), "buckets")?;
        push_parts(alloc, &mut paths, folder.as_str(), names, last)?;
    }
    Ok(paths)
}

/// The paths of the buckets of a cache, and of the folders that its index has.
#[derive(Drop)]
pub(crate) struct FoundBuckets {
    pub(crate) tops: Vec<Text>,
    pub(crate) paths: Vec<Text>,
}

/// The buckets of a cache: two folders down, files that are named as buckets are.
pub(crate) fn buckets_of<S: Store>(
    alloc: Global,
    store: &mut S,
    cache: &str,
) -> Result<FoundBuckets>
    ensures finds { IfOk result (λ found. FindsBuckets cache.now found.tops.items
        found.paths.items (S.log store.old) (S.log store.new)) }
    ensures stops { IfErr result
        (λ e. StopsFinding cache.now e (S.log store.old) (S.log store.new)) }
{
    let index = [join(alloc, cache, INDEX_AREA)?];
    let tops = parts_below(alloc, store, &index, false)?;
    let lows = parts_below(alloc, store, tops.as_slice(), false)?;
    let paths = parts_below(alloc, store, lows.as_slice(), true)?;
    Ok(FoundBuckets { tops, paths })
}
