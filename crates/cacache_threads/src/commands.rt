//! Whether two commands say the same.
ghost use Rattle.std.specs.Prelude.{◌≡◌, ◌↔◌, IfOk, IsTrue};
ghost use Rattle.cacache_threads.specs.Said.{said_options, said_put, said_link, said_insert, said_command};

use crate::json::same_json;
use cacache_calls::{Command, Delete, Export, Insert, Link, Options, Put, Source};
use cacache_core::integrity::Integrity;
use std::alloc::{AllocError, Global};

/// Whether two integrities are equal.
pub(crate) fn same_integrity(a: &Integrity, b: &Integrity) -> bool
    ensures { IsTrue result ↔ (a.now ≡ b.now) }
{
    *a == *b
}

/// Whether two integrities that may be absent are equal.
fn same_integrities(a: &Option<Integrity>, b: &Option<Integrity>) -> bool
    ensures { IsTrue result ↔ (a.now ≡ b.now) }
{
    match (a, b) {
        (Some(a), Some(b)) => same_integrity(a, b),
        (None, None) => true,
        _ => false,
    }
}

/// Whether two options say the same.
fn same_options(alloc: Global, a: &Options, b: &Options) -> Result<bool, AllocError>
    ensures { IfOk result (λ same. IsTrue same ↔ (said_options a.now ≡ said_options b.now)) }
{
    if a.algorithm != b.algorithm || a.size != b.size || a.durable != b.durable {
        return Ok(false);
    }
    if !same_integrities(&a.integrity, &b.integrity) || a.raw_metadata != b.raw_metadata {
        return Ok(false);
    }
    same_json(alloc, a.metadata.as_value(), b.metadata.as_value())
}

/// Whether two puts say the same.
fn same_put(alloc: Global, a: &Put, b: &Put) -> Result<bool, AllocError>
    ensures { IfOk result (λ same. IsTrue same ↔ (said_put a.now ≡ said_put b.now)) }
{
    if a.key != b.key || a.data != b.data || a.moment != b.moment {
        return Ok(false);
    }
    same_options(alloc, &a.options, &b.options)
}

/// Whether two links say the same.
fn same_link(alloc: Global, a: &Link, b: &Link) -> Result<bool, AllocError>
    ensures { IfOk result (λ same. IsTrue same ↔ (said_link a.now ≡ said_link b.now)) }
{
    if a.key != b.key || a.target != b.target || a.moment != b.moment {
        return Ok(false);
    }
    same_options(alloc, &a.options, &b.options)
}

/// Whether two inserts say the same.
fn same_insert(alloc: Global, a: &Insert, b: &Insert) -> Result<bool, AllocError>
    ensures { IfOk result (λ same. IsTrue same ↔ (said_insert a.now ≡ said_insert b.now)) }
{
    if a.key != b.key || a.moment != b.moment {
        return Ok(false);
    }
    same_options(alloc, &a.options, &b.options)
}

/// Whether two deletes are equal.
fn same_delete(a: &Delete, b: &Delete) -> bool
    ensures { IsTrue result ↔ (a.now ≡ b.now) }
{
    a.key == b.key && a.moment == b.moment
}

/// Whether two sources are equal.
fn same_source(a: &Source, b: &Source) -> bool
    ensures { IsTrue result ↔ (a.now ≡ b.now) }
{
    match (a, b) {
        (Source::Key(a), Source::Key(b)) => a == b,
        (Source::Hash(a), Source::Hash(b)) => same_integrity(a, b),
        _ => false,
    }
}

/// Whether two exports are equal.
fn same_export(a: &Export, b: &Export) -> bool
    ensures { IsTrue result ↔ (a.now ≡ b.now) }
{
    a.how == b.how && a.checked == b.checked && a.to == b.to
}

/// Whether two commands are equal member by member, JSON values by their compact texts.
pub fn same_command(alloc: Global, a: &Command, b: &Command) -> Result<bool, AllocError>
    ensures { IfOk result (λ same. IsTrue same ↔ (said_command a.now ≡ said_command b.now)) }
{
    match (a, b) {
        (Command::Put(a), Command::Put(b)) => same_put(alloc, a, b),
        (Command::Link(a), Command::Link(b)) => same_link(alloc, a, b),
        (Command::Insert(a), Command::Insert(b)) => same_insert(alloc, a, b),
        (Command::Delete(a), Command::Delete(b)) => Ok(same_delete(a, b)),
        (Command::Find(a), Command::Find(b)) => Ok(a == b),
        (Command::Get(a), Command::Get(b)) => Ok(a == b),
        (Command::GetHash(a), Command::GetHash(b)) => Ok(same_integrity(a, b)),
        (Command::Exists(a), Command::Exists(b)) => Ok(same_integrity(a, b)),
        (Command::Ls, Command::Ls) => Ok(true),
        (Command::Export(source, a), Command::Export(other, b)) => {
            Ok(same_source(source, other) && same_export(a, b))
        }
        (Command::RemoveHash(a), Command::RemoveHash(b)) => Ok(same_integrity(a, b)),
        (Command::RemoveFully(a), Command::RemoveFully(b)) => Ok(a == b),
        (Command::Clear, Command::Clear) => Ok(true),
        _ => Ok(false),
    }
}
