//! Whether two replies say the same.
ghost use Rattle.std.specs.Prelude.{◌≡◌, ◌↔◌, IfOk, IsTrue, map, option_map};
ghost use Rattle.cacache_entry.specs.View.{found_view};
ghost use Rattle.cacache_threads.specs.Said.{said_found, said_item, said_reply};

use crate::commands::same_integrity;
use crate::json::same_json;
use cacache_calls::{Found, Items, Reply};
use cacache_core::errors::{Error, IntegrityFault};
use cacache_entry::Metadata;
use std::alloc::{AllocError, Global};

/// Whether two refusals of an integrity are equal.
fn same_fault(a: &IntegrityFault, b: &IntegrityFault) -> bool
    ensures { IsTrue result ↔ (a.now ≡ b.now) }
{
    match (a, b) {
        (IntegrityFault::BadText, IntegrityFault::BadText) => true,
        (IntegrityFault::ShortDigest, IntegrityFault::ShortDigest) => true,
        (IntegrityFault::Check(wanted, found), IntegrityFault::Check(wish, got)) => {
            same_integrity(wanted, wish) && same_integrity(found, got)
        }
        _ => false,
    }
}

/// Whether two errors are equal, messages too.
fn same_error(a: &Error, b: &Error) -> bool
    ensures { IsTrue result ↔ (a.now ≡ b.now) }
{
    match (a, b) {
        (Error::EntryNotFound(cache, key), Error::EntryNotFound(other, word)) => {
            cache == other && key == word
        }
        (Error::SizeMismatch(wanted, actual), Error::SizeMismatch(wish, found)) => {
            wanted == wish && actual == found
        }
        (Error::IoError(fault, message), Error::IoError(other, text)) => {
            fault == other && message == text
        }
        (Error::SerdeError(cause, message), Error::SerdeError(other, text)) => {
            cause == other && message == text
        }
        (Error::IntegrityError(a), Error::IntegrityError(b)) => same_fault(a, b),
        (Error::OutOfMemory, Error::OutOfMemory) => true,
        _ => false,
    }
}

/// Whether two metadata say the same.
fn same_metadata(alloc: Global, a: &Metadata, b: &Metadata) -> Result<bool, AllocError>
    ensures { IfOk result (λ same.
        IsTrue same ↔ (said_found (found_view a.now) ≡ said_found (found_view b.now))) }
{
    if a.time != b.time || a.size != b.size || !same_integrity(&a.integrity, &b.integrity) {
        return Ok(false);
    }
    if a.key.as_str() != b.key.as_str() || !same_raw(&a.raw_metadata, &b.raw_metadata) {
        return Ok(false);
    }
    same_json(alloc, &a.metadata, &b.metadata)
}

/// Whether two lists of bytes that may be absent are equal.
fn same_raw(a: &Option<Vec<u8>>, b: &Option<Vec<u8>>) -> bool
    ensures { IsTrue result ↔ (option_map (λ v. v.items) a.now ≡ option_map (λ v. v.items) b.now) }
{
    match (a, b) {
        (Some(a), Some(b)) => a.as_slice() == b.as_slice(),
        (None, None) => true,
        _ => false,
    }
}

/// Whether two found entries say the same.
fn same_found(alloc: Global, a: &Found, b: &Found) -> Result<bool, AllocError>
    ensures { IfOk result (λ same. IsTrue same ↔ (said_found a.now ≡ said_found b.now)) }
{
    same_metadata(alloc, a.as_metadata(), b.as_metadata())
}

/// Whether what two lookups found is the same.
fn same_lookup(alloc: Global, a: &Option<Found>, b: &Option<Found>) -> Result<bool, AllocError>
    ensures { IfOk result (λ same.
        IsTrue same ↔ (option_map said_found a.now ≡ option_map said_found b.now)) }
{
    match (a, b) {
        (Some(a), Some(b)) => same_found(alloc, a, b),
        (None, None) => Ok(true),
        _ => Ok(false),
    }
}

/// Whether two items of a listing say the same.
fn same_item(
    alloc: Global,
    a: &Result<Found, Error>,
    b: &Result<Found, Error>,
) -> Result<bool, AllocError>
    ensures { IfOk result (λ same. IsTrue same ↔ (said_item a.now ≡ said_item b.now)) }
{
    match (a, b) {
        (Ok(a), Ok(b)) => same_found(alloc, a, b),
        (Err(a), Err(b)) => Ok(same_error(a, b)),
        _ => Ok(false),
    }
}

/// Whether two listings say the same, item by item.
fn same_items(alloc: Global, a: &Items, b: &Items) -> Result<bool, AllocError>
    ensures { IfOk result (λ same. IsTrue same ↔ (map said_item a.now ≡ map said_item b.now)) }
{
    let mut rest = b.as_slice();
    for item in a.as_slice() {
        let Some((first, more)) = rest.split_first() else {
            return Ok(false);
        };
        if !same_item(alloc, item, first)? {
            return Ok(false);
        }
        rest = more;
    }
    Ok(rest.is_empty())
}

/// Whether two replies are equal member by member, JSON values by their compact texts.
pub fn same_reply(alloc: Global, a: &Reply, b: &Reply) -> Result<bool, AllocError>
    ensures { IfOk result (λ same. IsTrue same ↔ (said_reply a.now ≡ said_reply b.now)) }
{
    match (a, b) {
        (Reply::Stored(a), Reply::Stored(b)) => Ok(same_integrity(a, b)),
        (Reply::Read(a), Reply::Read(b)) => Ok(a == b),
        (Reply::LookedUp(a), Reply::LookedUp(b)) => same_lookup(alloc, a, b),
        (Reply::Exists(a), Reply::Exists(b)) => Ok(*a == *b),
        (Reply::Copied(a), Reply::Copied(b)) => Ok(*a == *b),
        (Reply::Listed(a), Reply::Listed(b)) => same_items(alloc, a, b),
        (Reply::Done, Reply::Done) => Ok(true),
        (Reply::Refused(a), Reply::Refused(b)) => Ok(same_error(a, b)),
        _ => Ok(false),
    }
}
