//! The call that lists the contents.
ghost use Rattle.std.specs.Prelude.{◌≡◌, IfOk, IfErr, map, string_bytes};
ghost use Rattle.cacache_core.specs.declared.errors.Error.TheVariants.{OutOfMemory};
ghost use Rattle.cacache_walks.specs.Listing.{AnswersContents, IsByBytes, IsByHash, ListedAreShown, Sorts, StopsListing, content_area_in};

mod address;
mod order;
mod walk;

use crate::contents::address::address_at;
use crate::contents::order::{sort_addresses, sort_paths};
use crate::contents::walk::files_below;
use cacache_core::errors::Result;
use cacache_core::integrity::Integrity;
use cacache_core::paths;
use cacache_core::text::Text;
use cacache_store::env::{Clock, Env, Names};
use cacache_store::store::Store;
use std::alloc::{AllocError, Global};

/// The files and links below a cache's folder of contents.
#[derive(Drop)]
pub struct Contents {
    /// The addresses of the contents, each an integrity of one hash. They are in order: strongest
    /// algorithm first, then by the digests' bytes. None occurs twice.
    pub addresses: Vec<Integrity>,
    /// The paths of all other files and links, in the order of their bytes. None occurs twice.
    pub strange: Vec<String>,
}

/// Files and links, sorted into content addresses and other paths.
#[derive(Drop)]
struct Parts {
    addresses: Vec<Integrity>,
    strange: Vec<Text>,
}

/// Sorts files and links into content addresses and other paths, in the order in which they come.
fn tell_apart(alloc: Global, cache: &str, top: &str, files: Vec<Text>) -> Result<Parts>
    requires { top.now ≡ content_area_in cache.now }
    ensures sorts { IfOk result
        (λ f. Sorts cache.now files.items f.addresses.items f.strange.items) }
    ensures memory { IfErr result (λ e. e ≡ OutOfMemory) }
{
    let mut addresses = Vec::new(alloc);
    let mut strange = Vec::new(alloc);
    for file in files {
        match address_at(alloc, cache, top, file.as_str())? {
            Some(sri) => addresses.push(sri)?,
            None => strange.push(file)?,
        }
    }
    Ok(Parts { addresses, strange })
}

/// The texts as strings.
fn strings(alloc: Global, texts: Vec<Text>) -> std::result::Result<Vec<String>, AllocError>
    ensures { IfOk result (λ s. map string_bytes s.items ≡ texts.items) }
{
    let mut strings = Vec::new(alloc);
    for text in texts {
        strings.push(text.into_string())?;
    }
    Ok(strings)
}

/// Sorts files and links into content addresses and other paths, each in their final order.
fn contents_from(alloc: Global, cache: &str, top: &str, files: Vec<Text>) -> Result<Contents>
    requires { top.now ≡ content_area_in cache.now }
    ensures sorts { IfOk result (λ c. Sorts cache.now files.items
        c.addresses.items (map string_bytes c.strange.items)) }
    ensures by_hash { IfOk result (λ c. IsByHash c.addresses.items) }
    ensures by_bytes { IfOk result (λ c. IsByBytes (map string_bytes c.strange.items)) }
    ensures memory { IfErr result (λ e. e ≡ OutOfMemory) }
{
    let Parts {
        mut addresses,
        mut strange,
    } = tell_apart(alloc, cache, top, files)?;
    sort_addresses(&mut addresses);
    sort_paths(&mut strange);
    let strange = strings(alloc, strange)?;
    Ok(Contents { addresses, strange })
}

/// The addresses of a cache's contents, and the paths of all other files and links below its folder
/// of contents. A missing folder counts as empty. Folders are read, contents aren't: a path alone
/// shows which content it belongs to. Nothing changes.
///
/// ```
/// cacache::write_hash_sync(&mut env, "my-cache", b"hello")?;
/// let contents = cacache::content::read::list(&mut env, "my-cache")?;
/// for sri in &contents.addresses {
///     write!(text, "{sri}")?; // sha256-LPJNul+wow4m6DsqxbninhsWHlwfp0JecwQzYpOLmCQ=
/// }
/// ```
///
/// `IoError` has the fault of a folder that couldn't be read. It has `TooDeep` if a folder is more
/// than sixteen levels below the folder of contents, or if there are more than 2^63 names.
/// `OutOfMemory` is the only other error. The clock and the numbers aren't used.
pub fn list<S: Store, C: Clock, N: Names>(env: &mut Env<S, C, N>, cache: &str) -> Result<Contents>
    ensures lists { IfOk result
        (λ c. AnswersContents cache.now c (S.log env.old.store) (S.log env.new.store)) }
    ensures by_hash { IfOk result (λ c. IsByHash c.addresses.items) }
    ensures by_bytes { IfOk result (λ c. IsByBytes (map string_bytes c.strange.items)) }
    ensures stops { IfErr result
        (λ e. StopsListing cache.now e (S.log env.old.store) (S.log env.new.store)) }
    ensures clock { env.new.clock ≡ env.old.clock }
    ensures names { env.new.names ≡ env.old.names }
    ensures base { env.new.base ≡ env.old.base }
{
    let alloc = env.alloc;
    let top = paths::join(alloc, cache, paths::CONTENT_AREA)?;
    let files = files_below(&mut env.store, alloc, top.as_str())?;
    contents_from(alloc, cache, top.as_str(), files)
}

/// What a listing of contents says about one address.
pub fn contents_laws()
    ensures shown { ListedAreShown }
{}
