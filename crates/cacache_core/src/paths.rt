//! The paths of contents, buckets and temporary files below a cache folder. `laws::path_laws`
//! states what holds of all these paths.
ghost use Rattle.std.specs.Prelude.{◌≡◌, ◌≤◌, ◌<◌, ◌++◌, ◌∷◌, [], ℕ, List, IfOk, OnOk, IfSome, length, drop, slice_index, encode_utf8, string_bytes};
ghost use Rattle.hex.specs.Hex.{encode_lower, lower_digits};
ghost use Rattle.cacache_core.specs.{Integrity.{address as address_of}, Paths.{is_above, is_name, join as join_of, joined, content_names, folder_of_hash, bucket_names_of, bucket_names, temp_names, folder_names, digest_folders, digest_file}};

mod leading;

use crate::digest::Hash;
use crate::integrity::Integrity;
use crate::text::Text;
pub use leading::{bucket_folders, content_folders};
use std::alloc::{AllocError, Global};

/// The folder of contents, by its name in the cache folder.
pub const CONTENT_AREA: &str = "content-v2";

/// The folder of buckets.
pub const INDEX_AREA: &str = "index-v5";

/// The folder of temporary files.
pub const TEMP_AREA: &str = "tmp";

/// Room for the names after the cache folder in the path of a SHA-256 content.
const ROOM: usize = 96;

/// The number of hex digits of the longest digest.
const MOST_DIGITS: usize = 128;

/// The lower-case hex digits.
const DIGITS: &[u8; 16] = b"0123456789abcdef";

/// A copy of a path with room for the names that follow it, so that it needn't grow at each name.
fn roomy(alloc: Global, path: &str) -> Result<String, AllocError>
    ensures { IfOk result (λ s. string_bytes s ≡ path.now) }
{
    let mut copy = String::with_capacity(alloc, path.len().saturating_add(ROOM))?;
    copy.push_str(path)?;
    Ok(copy)
}

/// Joins a path and a name below it. An empty path yields the name, and a path that ends in `/`
/// gets no further one.
pub fn join(alloc: Global, path: &str, name: &str) -> Result<Text, AllocError>
    ensures { IfOk result (λ t. t ≡ join_of path.now name.now) }
{
    let mut joined = roomy(alloc, path)?;
    push_name(&mut joined, name)?;
    Ok(Text::new(joined))
}

/// Whether a component of a path is `..`, which no path may have.
pub fn is_above(piece: &str) -> bool
    ensures { result ≡ is_above piece.now }
{
    piece == ".."
}

/// Whether a component of a path names something: it is neither empty nor `.`.
pub fn is_name(piece: &str) -> bool
    ensures { result ≡ is_name piece.now }
{
    !(piece.is_empty() || piece == ".")
}

/// The place of a file.
#[derive(Debug, Drop)]
pub struct Place {
    /// The folder that holds it.
    pub folder: Text,
    /// The file's own path, which begins with the folder's path.
    pub path: Text,
}

/// The path of the content that has this integrity's address, below the cache folder.
pub fn content_path(alloc: Global, cache: &str, sri: &Integrity) -> Result<Text, AllocError>
    ensures { IfOk result
        (λ t. IfSome (address_of sri.now) (λ h. t ≡ joined cache.now (content_names h))) }
{
    let address = sri.address();
    let mut path = folder_of_content(alloc, cache, address)?;
    push_last_name(&mut path, address.digest.as_slice())?;
    Ok(Text::new(path))
}

/// The place of the content that has this integrity's address.
pub fn content_place(alloc: Global, cache: &str, sri: &Integrity) -> Result<Place, AllocError>
    ensures folder { IfOk result
        (λ p. IfSome (address_of sri.now) (λ h. p.folder ≡ folder_of_hash cache.now h)) }
    ensures path { IfOk result
        (λ p. IfSome (address_of sri.now) (λ h. p.path ≡ joined cache.now (content_names h))) }
{
    let address = sri.address();
    let folder = folder_of_content(alloc, cache, address)?;
    place_in(alloc, folder, address.digest.as_slice())
}

/// The path of the bucket of a key, below the cache folder. Of the key, only its SHA-1 matters.
pub fn bucket_path(alloc: Global, cache: &str, key: &str) -> Result<Text, AllocError>
    ensures { IfOk result (λ t. t ≡ joined cache.now (bucket_names key.now)) }
{
    let digest = sha1::Sha1::digest(key.as_bytes());
    let mut path = folder_of_bucket(alloc, cache, &digest)?;
    push_last_name(&mut path, &digest)?;
    Ok(Text::new(path))
}

/// The place of the bucket of a key. The key is hashed once for both folder and path.
pub fn bucket_place(alloc: Global, cache: &str, key: &str) -> Result<Place, AllocError>
    ensures folder { IfOk result
        (λ p. p.folder ≡ joined cache.now (folder_names (bucket_names key.now))) }
    ensures path { IfOk result (λ p. p.path ≡ joined cache.now (bucket_names key.now)) }
{
    let digest = sha1::Sha1::digest(key.as_bytes());
    let folder = folder_of_bucket(alloc, cache, &digest)?;
    place_in(alloc, folder, &digest)
}

/// The place of the temporary file with this number. Its name is `.tmp` and the number in 16
/// lower-case hex digits, below the folder `tmp`.
pub fn temp_place(alloc: Global, cache: &str, number: u64) -> Result<Place, AllocError>
    ensures folder { IfOk result
        (λ p. p.folder ≡ joined cache.now (folder_names (temp_names number))) }
    ensures path { IfOk result (λ p. p.path ≡ joined cache.now (temp_names number)) }
{
    let mut folder = roomy(alloc, cache)?;
    push_name(&mut folder, TEMP_AREA)?;
    let mut path = roomy(alloc, folder.as_str())?;
    push_slash(&mut path)?;
    path.push_str(".tmp")?;
    push_digits(&mut path, &number.to_be_bytes())?;
    Ok(Place {
        folder: Text::new(folder),
        path: Text::new(path),
    })
}

/// The place of a digest's file in this folder, which belongs to the digest's first two bytes.
fn place_in(alloc: Global, folder: String, digest: &[u8]) -> Result<Place, AllocError>
    requires { 2 ≤ length digest.now }
    ensures folder { IfOk result (λ p. p.folder ≡ string_bytes folder) }
    ensures path { IfOk result
        (λ p. p.path ≡ join_of (string_bytes folder) (drop 4 (encode_lower digest.now))) }
{
    let mut path = roomy(alloc, folder.as_str())?;
    push_last_name(&mut path, digest)?;
    Ok(Place {
        folder: Text::new(folder),
        path: Text::new(path),
    })
}

/// The folder of the contents with digests that share the first two bytes of this hash.
fn folder_of_content(alloc: Global, cache: &str, address: &Hash) -> Result<String, AllocError>
    requires { 2 ≤ length address.now.digest }
    ensures { IfOk result
        (λ s. string_bytes s ≡ joined cache.now (folder_names (content_names address.now))) }
{
    let mut path = roomy(alloc, cache)?;
    push_name(&mut path, CONTENT_AREA)?;
    push_name(&mut path, address.algorithm.name())?;
    push_first_names(&mut path, address.digest.as_slice())?;
    Ok(path)
}

/// The folder of the buckets with digests that share the first two bytes of this one.
fn folder_of_bucket(alloc: Global, cache: &str, digest: &[u8]) -> Result<String, AllocError>
    requires { 2 ≤ length digest.now }
    ensures { IfOk result
        (λ s. string_bytes s ≡ joined cache.now (folder_names (bucket_names_of digest.now))) }
{
    let mut path = roomy(alloc, cache)?;
    push_name(&mut path, INDEX_AREA)?;
    push_first_names(&mut path, digest)?;
    Ok(path)
}

/// Appends to a path the names of a digest's first and second byte, which are folders.
fn push_first_names(path: &mut String, digest: &[u8]) -> Result<(), AllocError>
    requires { 2 ≤ length digest.now }
    ensures { OnOk result
        (string_bytes path.new ≡ joined (string_bytes path.old) (digest_folders digest.now)) }
{
    push_hex(path, &digest[..1])?;
    push_hex(path, &digest[1..2])
}

/// Appends to a path the name of the digest's other bytes, which is a file.
fn push_last_name(path: &mut String, digest: &[u8]) -> Result<(), AllocError>
    requires { 2 ≤ length digest.now }
    ensures { OnOk result
        (string_bytes path.new ≡ join_of (string_bytes path.old) (digest_file digest.now)) }
{
    push_hex(path, &digest[2..])
}

/// Appends to a path a name of hex digits.
fn push_hex(path: &mut String, bytes: &[u8]) -> Result<(), AllocError>
    ensures { OnOk result
        (string_bytes path.new ≡ join_of (string_bytes path.old) (encode_lower bytes.now)) }
{
    push_slash(path)?;
    push_digits(path, bytes)
}

/// Appends a name to a path.
fn push_name(path: &mut String, name: &str) -> Result<(), AllocError>
    ensures { OnOk result (string_bytes path.new ≡ join_of (string_bytes path.old) name.now) }
{
    push_slash(path)?;
    path.push_str(name)
}

/// Appends to a path the slash that a further name needs.
#[tactic(auto, unfolding(crate::specs::Paths::join))]
fn push_slash(path: &mut String) -> Result<(), AllocError>
    ensures { OnOk result
        ((n : List ℕ) → string_bytes path.new ++ n ≡ join_of (string_bytes path.old) n) }
{
    if path.is_empty() || path.ends_with('/') {
        return Ok(());
    }
    path.push_str("/")
}

/// Appends to a text the lower-case hex digits of some bytes. As many bytes as a digest has, or fewer,
/// are written all at once.
fn push_digits(text: &mut String, bytes: &[u8]) -> Result<(), AllocError>
    ensures { OnOk result
        (string_bytes text.new ≡ string_bytes text.old ++ encode_lower bytes.now) }
{
    let mut room = [0u8; MOST_DIGITS];
    if bytes.len() <= MOST_DIGITS / 2 {
        let digits = &mut room[..2 * bytes.len()];
        if hex::encode_to_slice(bytes, digits).is_ok() {
            if let Ok(digits) = str::from_utf8(digits) {
                return text.push_str(digits);
            }
        }
    }
    push_each(text, bytes)
}

/// Appends the lower-case hex digits to a text one by one, for any number of bytes.
fn push_each(text: &mut String, bytes: &[u8]) -> Result<(), AllocError>
    ensures { OnOk result
        (string_bytes text.new ≡ string_bytes text.old ++ encode_lower bytes.now) }
{
    for byte in bytes {
        text.push(digit(byte / 16))?;
        text.push(digit(byte % 16))?;
    }
    Ok(())
}

/// The lower-case hex digit of a number below 16.
fn digit(number: u8) -> char
    requires { number < 16 }
    ensures { encode_utf8 result ≡ slice_index lower_digits number ∷ [] }
{
    char::from(DIGITS[usize::from(number)])
}
