//! The folders that lead from the cache folder to contents and buckets.
ghost use Rattle.std.specs.Prelude.{◌≡◌, ◌≤◌, ◌++◌, IfOk, OnOk, IfSome, length, take, drop};
ghost use Rattle.hex.specs.Hex.{encode_lower};
ghost use Rattle.cacache_core.specs.{Integrity.{address as address_of}, Paths.{join as join_of, content_names, bucket_names, folders_to, folders_of_digest, content_folders_of}};

use crate::digest::Hash;
use crate::integrity::Integrity;
use crate::paths::{CONTENT_AREA, INDEX_AREA, join, push_hex, roomy};
use crate::text::Text;
use std::alloc::{AllocError, Global};

/// The folder below a path for a digest's first byte.
#[tactic(auto, using(crate::proofs::PathLemmas::digits_first))]
fn join_first(alloc: Global, path: &str, digest: &[u8]) -> Result<Text, AllocError>
    requires { 2 ≤ length digest.now }
    ensures { IfOk result (λ t. t ≡ join_of path.now (take 2 (encode_lower digest.now))) }
{
    let mut joined = roomy(alloc, path)?;
    push_hex(&mut joined, &digest[..1])?;
    Ok(Text::new(joined))
}

/// The folder below a path for a digest's second byte.
#[tactic(auto, using(crate::proofs::PathLemmas::digits_second))]
fn join_second(alloc: Global, path: &str, digest: &[u8]) -> Result<Text, AllocError>
    requires { 2 ≤ length digest.now }
    ensures { IfOk result (λ t. t ≡ join_of path.now (take 2 (drop 2 (encode_lower digest.now)))) }
{
    let mut joined = roomy(alloc, path)?;
    push_hex(&mut joined, &digest[1..2])?;
    Ok(Text::new(joined))
}

/// Appends three folders: the one at this path, and those below it for a digest's first and second byte.
fn push_folders(
    alloc: Global,
    folders: &mut Vec<Text>,
    path: Text,
    digest: &[u8],
) -> Result<(), AllocError>
    requires { 2 ≤ length digest.now }
    ensures { OnOk result
        (folders.new.items ≡ folders.old.items ++ folders_of_digest path digest.now) }
{
    let first = join_first(alloc, path.as_str(), digest)?;
    let second = join_second(alloc, first.as_str(), digest)?;
    folders.push(path)?;
    folders.push(first)?;
    folders.push(second)?;
    Ok(())
}

/// The folders that lead to the content of a hash.
fn folders_of_content(alloc: Global, cache: &str, address: &Hash) -> Result<Vec<Text>, AllocError>
    requires { 2 ≤ length address.now.digest }
    ensures { IfOk result (λ folders. folders.items ≡ content_folders_of cache.now address.now) }
{
    let mut folders = Vec::with_capacity(alloc, 5)?;
    folders.push(Text::from_str(alloc, cache)?)?;
    let top = join(alloc, cache, CONTENT_AREA)?;
    let algorithm = join(alloc, top.as_str(), address.algorithm.name())?;
    folders.push(top)?;
    push_folders(alloc, &mut folders, algorithm, address.digest.as_slice())?;
    Ok(folders)
}

/// The folders that lead to the content that has this integrity's address. The first is the cache folder, and the last
/// holds the content.
pub fn content_folders(alloc: Global, cache: &str, sri: &Integrity) -> Result<Vec<Text>, AllocError>
    ensures { IfOk result (λ folders. IfSome (address_of sri.now)
        (λ h. folders.items ≡ folders_to cache.now (content_names h))) }
{
    let address = sri.address();
    folders_of_content(alloc, cache, address)
}

/// The folders that lead to the bucket of a key. The first is the cache folder, and the last holds the bucket.
pub fn bucket_folders(alloc: Global, cache: &str, key: &str) -> Result<Vec<Text>, AllocError>
    ensures { IfOk result (λ folders. folders.items ≡ folders_to cache.now (bucket_names key.now)) }
{
    let digest = sha1::Sha1::digest(key.as_bytes());
    let mut folders = Vec::with_capacity(alloc, 4)?;
    folders.push(Text::from_str(alloc, cache)?)?;
    let top = join(alloc, cache, INDEX_AREA)?;
    push_folders(alloc, &mut folders, top, &digest)?;
    Ok(folders)
}
