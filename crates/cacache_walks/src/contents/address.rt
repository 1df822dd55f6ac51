//! Which content a path belongs to.
ghost use Rattle.std.specs.Prelude.{◌≡◌, ◌+◌, ◌<◌, ◌≤◌, Some, Ok, IfOk, IfErr, MatchOption, length, slice_index};
ghost use Rattle.hex.specs.Hex.{decode_of};
ghost use Rattle.cacache_core.specs.declared.errors.Error.TheVariants.{OutOfMemory};
ghost use Rattle.cacache_walks.specs.{Addresses.{HasNoBytes, HasNoNames, HasParts, IsContentPath, IsStrange, by_letter, digits_of}, Listing.{content_area_in}};

use cacache_core::errors::{Error, Result};
use cacache_core::integrity::{Algorithm, Integrity};
use cacache_core::paths::content_path;
use hex::FromHexError;
use std::alloc::{AllocError, Global};

/// The algorithm whose name begins a text, after a slash. The fourth letter of the name identifies it.
fn algorithm_in(text: &[u8]) -> Option<Algorithm>
    ensures { result ≡ by_letter (slice_index text.now 4) }
{
    let letter = if text.len() > 4 { text[4] } else { 0 };
    if letter == b'1' {
        return Some(Algorithm::Sha1);
    }
    if letter == b'2' {
        return Some(Algorithm::Sha256);
    }
    if letter == b'3' {
        return Some(Algorithm::Sha384);
    }
    if letter == b'5' {
        return Some(Algorithm::Sha512);
    }
    None
}

/// The digits in a text that has them in three parts, each after a slash: two, two and the rest.
fn digits_in(alloc: Global, text: &[u8]) -> std::result::Result<Vec<u8>, AllocError>
    requires { 7 ≤ length text.now }
    ensures { IfOk result (λ digits. digits.items ≡ digits_of text.now) }
{
    let mut digits = Vec::new(alloc);
    digits.extend_from_slice(&text[1..3])?;
    digits.extend_from_slice(&text[4..6])?;
    digits.extend_from_slice(&text[7..])?;
    Ok(digits)
}

/// The bytes that hex digits encode, if the digits are hex.
fn decode_hex(alloc: Global, digits: &[u8]) -> Result<Option<Vec<u8>>>
    ensures bytes { IfOk result (λ r. MatchOption r (HasNoBytes digits.now)
        (λ v. decode_of digits.now ≡ Ok v.items)) }
    ensures memory { IfErr result (λ e. e ≡ OutOfMemory) }
{
    match hex::decode(alloc, digits) {
        Ok(bytes) => Ok(Some(bytes)),
        Err(FromHexError::OutOfMemory) => Err(Error::OutOfMemory),
        Err(_) => Ok(None),
    }
}

/// The algorithm and the digest's bytes of the content that a text may name.
fn hash_in(alloc: Global, text: &[u8]) -> Result<Option<(Algorithm, Vec<u8>)>>
    ensures hash { IfOk result (λ r. MatchOption r (HasNoNames text.now)
        (λ p. HasParts text.now p.0 p.1.items)) }
    ensures memory { IfErr result (λ e. e ≡ OutOfMemory) }
{
    let Some(algorithm) = algorithm_in(text) else {
        return Ok(None);
    };
    let skipped = algorithm.name().len() + 1;
    if text.len() < skipped + 7 {
        return Ok(None);
    }
    let digits = digits_in(alloc, &text[skipped..])?;
    match decode_hex(alloc, &digits)? {
        Some(digest) => {
            if digest.len() < 3 {
                return Ok(None);
            }
            Ok(Some((algorithm, digest)))
        }
        None => Ok(None),
    }
}

/// The integrity of one hash whose content has this path, if there is one.
pub(crate) fn address_at(
    alloc: Global,
    cache: &str,
    top: &str,
    path: &str,
) -> Result<Option<Integrity>>
    requires { top.now ≡ content_area_in cache.now }
    ensures address { IfOk result (λ r. MatchOption r
        (IsStrange cache.now path.now) (IsContentPath cache.now path.now)) }
    ensures memory { IfErr result (λ e. e ≡ OutOfMemory) }
{
    if path.len() < top.len() {
        return Ok(None);
    }
    let Some((algorithm, digest)) = hash_in(alloc, &path.as_bytes()[top.len()..])? else {
        return Ok(None);
    };
    let sri = Integrity::from_digest(alloc, algorithm, digest)?;
    let lies = content_path(alloc, cache, &sri)?;
    if lies.as_str() == path {
        return Ok(Some(sri));
    }
    Ok(None)
}
