//! What goes to the output.
ghost use Rattle.std.specs.{Prelude.{◌≡◌, ◌≤◌, ◌⊎◌, IfErr, IfOk, OnErr, OnOk, [], length, take}, Io.KnownBytes.{Appends}};
ghost use Rattle.cacache_program.specs.Output.{AppendsPart, PutsOut, PutsOutWith};

use crate::errors::{Errors, tell_failed_call, tell_failure};
use cacache::errors::Error;
use std::io::{ErrorKind, Write};

/// Writes some of the bytes, and returns how many: 0 if the write was interrupted. Otherwise the kind of error with
/// which the output failed.
#[tactic(auto, using(crate::proofs::Appending::kept_appends))]
fn write_some<W: Write>(output: &mut W, bytes: &[u8]) -> Result<usize, ErrorKind>
    ensures count { IfOk result (λ count. count ≤ length bytes.now) }
    ensures some { IfOk result (λ count.
        Appends (W.contents output.old) (W.contents output.new) (take count bytes.now)) }
    ensures none { IfErr result (λ _. Appends (W.contents output.old) (W.contents output.new) []) }
{
    match output.write(bytes) {
        Ok(0) => Err(ErrorKind::WriteZero),
        Ok(count) => Ok(count),
        Err(error) => match error.kind() {
            ErrorKind::Interrupted => Ok(0),
            kind => Err(kind),
        },
    }
}

/// Writes the bytes. After the kind of error with which the output failed it has a beginning of them.
#[tactic(auto, using(crate::proofs::Appending::appends_more, crate::proofs::Appending::appends_no_more))]
pub(crate) fn write_whole<W: Write>(output: &mut W, bytes: &[u8]) -> Result<(), ErrorKind>
    ensures whole { OnOk result
        (Appends (W.contents output.old) (W.contents output.new) bytes.now) }
    ensures part { OnErr result
        (AppendsPart (W.contents output.old) (W.contents output.new) bytes.now) }
{
    let mut written = 0;
    for _ in 0..u64::MAX {
        if written == bytes.len() {
            break;
        }
        match write_some(output, &bytes[written..]) {
            Ok(count) => written += count,
            Err(kind) => return Err(kind),
        }
    }
    if written == bytes.len() {
        return Ok(());
    }
    Err(ErrorKind::TimedOut)
}

/// Prints the bytes, and returns the status: this one, or 1 if the output failed.
fn put_out_with<W: Write, E: Write>(
    output: &mut W,
    bytes: &[u8],
    status: u8,
    errors: &mut Errors<E>,
) -> u8
    ensures put { PutsOutWith status bytes.now
        (W.contents output.old) (W.contents output.new) result }
    ensures quiet { result ≡ 0 → errors.new ≡ errors.old }
{
    match write_whole(output, bytes) {
        Ok(()) => status,
        Err(kind) => tell_failure(errors, "output failed", Some(kind)),
    }
}

/// Prints a text if it could be made, and returns the status: this one, or 1 if it couldn't be made or printed.
pub(crate) fn put_made<W: Write, E: Write>(
    made: Result<Vec<u8>, Error>,
    status: u8,
    output: &mut W,
    errors: &mut Errors<E>,
) -> u8
    ensures made { IfOk made (λ text. PutsOutWith status text.items
        (W.contents output.old) (W.contents output.new) result) }
    ensures unmade { IfErr made (λ _. (result ≡ 1)
        × (W.contents output.new ≡ W.contents output.old)) }
    ensures known { (result ≡ status) ⊎ (result ≡ 1) }
    ensures quiet { result ≡ 0 → errors.new ≡ errors.old }
{
    match made {
        Ok(text) => put_out_with(output, &text, status, errors),
        Err(error) => tell_failed_call(errors, &error, None),
    }
}

/// Prints the bytes, and returns the status.
pub(crate) fn put_out<W: Write, E: Write>(
    output: &mut W,
    bytes: &[u8],
    errors: &mut Errors<E>,
) -> u8
    ensures put { PutsOut bytes.now (W.contents output.old) (W.contents output.new) result }
    ensures quiet { result ≡ 0 → errors.new ≡ errors.old }
{
    put_out_with(output, bytes, 0, errors)
}
