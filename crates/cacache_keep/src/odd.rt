//! Whether a bucket has an odd line, which decides nothing for a lookup, or a line of another key.
ghost use Rattle.std.specs.{Prelude.{◌≡◌, ◌≤◌, ◌∷◌, [], IfOk, IfErr, length, true}, List.{list_any}, Option.{option_to_list}};
ghost use Rattle.cacache_core.specs.declared.errors.Error.TheVariants.{OutOfMemory};
ghost use Rattle.cacache_entry.specs.Bucket.{cut};
ghost use Rattle.cacache_calls.specs.Walking.{items_in};
ghost use Rattle.cacache_laws.specs.trees.Compacting.{is_odd as is_odd_line, line_of_piece, lines_of as lines_in};
ghost use Rattle.cacache_keep.specs.{Checking.{has_odd as has_odd_line}, Parting.{has_other as has_other_line, is_other as is_other_line}};

use crate::lines::{decided_in, first, is_line, without_cr};
use cacache_core::errors::Result;
use std::alloc::Global;

/// Whether a piece is an odd line.
fn is_odd(alloc: Global, piece: &[u8]) -> Result<bool>
    requires { cut 10 piece.now ≡ piece.now ∷ [] }
    ensures odd { IfOk result
        (λ odd. odd ≡ list_any is_odd_line (option_to_list (line_of_piece piece.now))) }
    ensures memory { IfErr result (λ e. e ≡ OutOfMemory) }
{
    let decided = decided_in(alloc, piece)?;
    Ok(decided.is_none() && is_line(piece))
}

/// Whether a bucket has an odd line.
pub(crate) fn has_odd(alloc: Global, bytes: &[u8]) -> Result<bool>
    ensures odd { IfOk result (λ odd. odd ≡ has_odd_line bytes.now) }
    ensures memory { IfErr result (λ e. e ≡ OutOfMemory) }
{
    let mut rest = bytes;
    while let Some(at) = first(rest, b'\n') {
        if is_odd(alloc, &rest[..at])? {
            return Ok(true);
        }
        rest = &rest[at + 1..];
    }
    is_odd(alloc, rest)
}

/// Whether a piece is a line that is odd or decides another key.
fn is_other(alloc: Global, piece: &[u8], key: &str) -> Result<bool>
    requires { cut 10 piece.now ≡ piece.now ∷ [] }
    ensures other { IfOk result (λ other. other
        ≡ list_any (is_other_line key.now) (option_to_list (line_of_piece piece.now))) }
    ensures memory { IfErr result (λ e. e ≡ OutOfMemory) }
{
    match decided_in(alloc, piece)? {
        Some(decided) => Ok(!decided.is_of(key)),
        None => Ok(is_line(piece)),
    }
}

/// Whether a bucket has a line that is odd or decides another key.
pub(crate) fn has_other(alloc: Global, bytes: &[u8], key: &str) -> Result<bool>
    ensures other { IfOk result (λ other. other ≡ has_other_line key.now bytes.now) }
    ensures memory { IfErr result (λ e. e ≡ OutOfMemory) }
{
    let mut rest = bytes;
    while let Some(at) = first(rest, b'\n') {
        if is_other(alloc, &rest[..at], key)? {
            return Ok(true);
        }
        rest = &rest[at + 1..];
    }
    is_other(alloc, rest, key)
}

/// One if a piece has a TAB, as each line has, and otherwise none.
fn most_in(piece: &[u8]) -> usize
    ensures lines { length (option_to_list (line_of_piece piece.now)) ≤ result }
    ensures one { result ≤ 1 }
{
    match first(without_cr(piece), b'\t') {
        Some(_) => 1,
        None => 0,
    }
}

/// How many lines a bucket has at most: as many as pieces with a TAB. No line is read.
fn most_lines(bytes: &[u8]) -> usize
    ensures { length (lines_in bytes.now) ≤ result }
{
    let mut most = 0;
    let mut rest = bytes;
    while let Some(at) = first(rest, b'\n') {
        most += most_in(&rest[..at]);
        rest = &rest[at + 1..];
    }
    most + most_in(rest)
}

/// Whether a bucket has an odd line, if it is known whether the bucket lists an entry. If it does and has one line, that is
/// the entry's line, which isn't read again.
pub(crate) fn has_odd_beside(alloc: Global, bytes: &[u8], lists: bool) -> Result<bool>
    ensures odd { IfOk result (λ odd. (lists ≡ true → items_in bytes.now ≡ [] → ⊥)
        → odd ≡ has_odd_line bytes.now) }
    ensures memory { IfErr result (λ e. e ≡ OutOfMemory) }
{
    if lists && most_lines(bytes) <= 1 {
        return Ok(false);
    }
    has_odd(alloc, bytes)
}
