//! The line of an entry.
ghost use Rattle.std.specs.Prelude.{◌≡◌, [], ◌∷◌, ◌++◌, ◌≤◌, ◌<◌, ◌^◌, None, IfOk, IfErr, OnOk, false, length, take, drop, decimal, string_bytes, option_map};
ghost use Rattle.json.specs.{Print.{quoted}, Token.{begin_array}};
ghost use Rattle.serde_json.specs.{Data.{depth}, Read.{max_depth}, Written.{has_float, compact_text}, View.{view}};
ghost use Rattle.cacache_core.specs.Integrity.{sha256_hex};
ghost use Rattle.cacache_entry.specs.{Entry.{bytes_or_null, front_of, line_of, text_of, text_or_null}, FittingEntries.{AreBytes, EachIsByte, IsJson, IsEntry, IsWritable, cause_of as cause_of_entry}, Tokens.{byte_tokens}, View.{entry_view, IsRefusal, refusal_text}};

use crate::limits::{is_whole, nests_within};
use crate::metadata::SerializableMetadata;
use crate::parts::is_plain;
use cacache_core::errors::{self, Error, SerdeCause};
use cacache_core::text::Text;
use json::Writer;
use serde_json::Value;
use sha2::{Digest, Sha256};
use std::alloc::{AllocError, Global};

/// The start of a line: LF, room for the digest's 64 digits, TAB.
const HEAD: &[u8] = b"\n0000000000000000000000000000000000000000000000000000000000000000\t";

/// Room for a whole line except its key, if it has one SHA-256 digest and no metadata.
const LINE_ROOM: usize = 256;

/// The depth to which metadata may nest inside the entry's own object.
const METADATA_LEVELS: u64 = 126;

/// The line of an entry: LF, the SHA-256 of the entry's text in hex digits, TAB, and the text.
///
/// # Errors
///
/// `SerdeError` with the first of these causes that applies: the time is 2^64 or more; a number in the metadata isn't a
/// 64-bit integer; the text would nest deeper than 127 levels. `OutOfMemory` if memory runs out.
pub fn line(alloc: Global, entry: &SerializableMetadata) -> errors::Result<Vec<u8>>
    ensures line { IfOk result (λ bytes. bytes.items ≡ line_of (entry_view entry.now)) }
    ensures entry { OnOk result (IsEntry (entry_view entry.now)) }
    ensures fits { OnOk result (IsWritable (entry_view entry.now)) }
    ensures cause { OnOk result (cause_of_entry (entry_view entry.now) ≡ None) }
    ensures refused { IfErr result (IsRefusal (entry_view entry.now)) }
{
    if let Some(cause) = cause_of(entry) {
        return Err(Error::SerdeError(cause, refusal(alloc, entry.key.as_str())?));
    }
    Ok(fitting_line(alloc, entry)?)
}

/// Why an entry can't be written, if it can't.
pub(crate) fn cause_of(entry: &SerializableMetadata) -> Option<SerdeCause>
    ensures { result ≡ cause_of_entry (entry_view entry.now) }
{
    if u64::try_from(entry.time).is_err() {
        Some(SerdeCause::TimeTooLarge)
    } else if !is_whole(&entry.metadata) {
        Some(SerdeCause::NotWhole)
    } else if !nests_within(&entry.metadata, METADATA_LEVELS) {
        Some(SerdeCause::TooDeep)
    } else {
        None
    }
}

/// The text of the error for an entry that can't be written.
fn refusal(alloc: Global, key: &str) -> Result<Text, AllocError>
    ensures { IfOk result (λ text. text ≡ refusal_text key.now) }
{
    Ok(Text::new(format!(in alloc; "Failed to serialize entry with key `{key}`")?))
}

/// The line of an entry that can be written. The text is written after room for its digest.
pub(crate) fn fitting_line(
    alloc: Global,
    entry: &SerializableMetadata,
) -> Result<Vec<u8>, AllocError>
    requires { cause_of_entry (entry_view entry.now) ≡ None }
    ensures line { IfOk result (λ bytes. bytes.items ≡ line_of (entry_view entry.now)) }
    ensures entry { OnOk result (IsEntry (entry_view entry.now)) }
    ensures fits { OnOk result (IsWritable (entry_view entry.now)) }
{
    let mut line = Vec::with_capacity(alloc, entry.key.len().saturating_add(LINE_ROOM))?;
    line.extend_from_slice(HEAD)?;
    push_text(alloc, &mut line, entry, entry.time as u64, entry.size)?;
    fill_digest(&mut line);
    Ok(line)
}

/// Computes the digest of the text that follows a line's head, and writes it into the head.
fn fill_digest(line: &mut [u8])
    requires { 66 ≤ length line.old }
    ensures { line.new ≡ take 1 line.old ++ (sha256_hex (drop 66 line.old) ++ drop 65 line.old) }
{
    let digest = Sha256::digest(&line[66..]);
    match hex::encode_to_slice(digest, &mut line[1..65]) {
        Ok(()) => (),
        Err(_) => unreachable!(),
    }
}

/// Appends the text of an entry. Time and size are passed by value, so that their ranges are known.
fn push_text(
    alloc: Global,
    out: &mut Vec<u8>,
    entry: &SerializableMetadata,
    time: u64,
    size: usize,
) -> Result<(), AllocError>
    requires time { time ≡ entry.now.time }
    requires size { size ≡ entry.now.size }
    requires whole { has_float (view entry.now.metadata) ≡ false }
    requires flat { depth (view entry.now.metadata) ≤ max_depth }
    ensures text { OnOk result (out.new.items ≡ out.old.items ++ text_of (entry_view entry.now)) }
    ensures metadata { OnOk result (IsJson (view entry.now.metadata)) }
    ensures bytes { OnOk result (AreBytes (entry_view entry.now).raw_metadata) }
    ensures size { OnOk result (entry.now.size < 2 ^ 64) }
{
    push_front(alloc, out, entry, time, size)?;
    push_value(alloc, out, &entry.metadata)?;
    out.extend_from_slice(b",\"raw_metadata\":")?;
    push_bytes(alloc, out, &entry.raw_metadata)?;
    out.push(b'}')?;
    Ok(())
}

/// Appends the text of an entry up to its metadata.
fn push_front(
    alloc: Global,
    out: &mut Vec<u8>,
    entry: &SerializableMetadata,
    time: u64,
    size: usize,
) -> Result<(), AllocError>
    requires time { time ≡ entry.now.time }
    requires size { size ≡ entry.now.size }
    ensures { OnOk result (out.new.items ≡ out.old.items ++ front_of (entry_view entry.now)) }
{
    out.extend_from_slice(b"{\"key\":")?;
    push_quoted(alloc, out, entry.key.as_str())?;
    out.extend_from_slice(b",\"integrity\":")?;
    push_quoted_or_null(alloc, out, &entry.integrity)?;
    out.extend_from_slice(b",\"time\":")?;
    push_number(out, time)?;
    out.extend_from_slice(b",\"size\":")?;
    push_number(out, size as u64)?;
    out.extend_from_slice(b",\"metadata\":")
}

/// Appends a text in quotes. Most texts need no escapes.
fn push_quoted(alloc: Global, out: &mut Vec<u8>, text: &str) -> Result<(), AllocError>
    ensures { OnOk result (out.new.items ≡ out.old.items ++ quoted text.now) }
{
    if is_plain(text.as_bytes()) {
        out.push(b'"')?;
        out.extend_from_slice(text.as_bytes())?;
        out.push(b'"')?;
        return Ok(());
    }
    let mut escaped = Writer::new(Vec::new(alloc));
    escaped.string(text)?;
    out.extend_from_slice(&escaped.into_inner())
}

/// Appends a text in quotes, or null if there is none.
fn push_quoted_or_null(
    alloc: Global,
    out: &mut Vec<u8>,
    text: &Option<String>,
) -> Result<(), AllocError>
    ensures { OnOk result (out.new.items
        ≡ out.old.items ++ compact_text (text_or_null (option_map string_bytes text.now))) }
{
    match text {
        Some(text) => push_quoted(alloc, out, text.as_str()),
        None => out.extend_from_slice(b"null"),
    }
}

/// Appends a number.
fn push_number(out: &mut Vec<u8>, number: u64) -> Result<(), AllocError>
    ensures { OnOk result (out.new.items ≡ out.old.items ++ decimal number) }
{
    out.extend_from_slice(itoa::Buffer::new().format(number).as_bytes())
}

/// Appends a value whose numbers are all integers.
fn push_value(alloc: Global, out: &mut Vec<u8>, value: &Value) -> Result<(), AllocError>
    requires whole { has_float (view value.now) ≡ false }
    requires flat { depth (view value.now) ≤ max_depth }
    ensures ok { OnOk result (out.new.items ≡ out.old.items ++ compact_text (view value.now)) }
    ensures json { OnOk result (IsJson (view value.now)) }
{
    match value {
        Value::Null => out.extend_from_slice(b"null"),
        _ => out.extend_from_slice(&value.to_vec(alloc)?),
    }
}

/// Appends bytes as an array of numbers, or null for `None`.
fn push_bytes(alloc: Global, out: &mut Vec<u8>, bytes: &Option<Vec<u8>>) -> Result<(), AllocError>
    ensures text { OnOk result (out.new.items ≡ out.old.items
        ++ compact_text (bytes_or_null (option_map (λ b. b.items) bytes.now))) }
    ensures bytes { OnOk result (AreBytes (option_map (λ b. b.items) bytes.now)) }
{
    match bytes {
        Some(bytes) => {
            let mut array = Writer::new(Vec::new(alloc));
            write_array(&mut array, bytes)?;
            out.extend_from_slice(&array.into_inner())
        }
        None => out.extend_from_slice(b"null"),
    }
}

/// Writes bytes as an array of numbers.
fn write_array(out: &mut Writer, bytes: &[u8]) -> Result<(), AllocError>
    requires { out.old.tokens ≡ [] }
    ensures tokens { OnOk result (out.new.tokens ≡ begin_array ∷ byte_tokens bytes.now) }
    ensures before { out.new.before ≡ out.old.before }
    ensures bytes { OnOk result (EachIsByte bytes.now) }
{
    out.begin_array()?;
    for byte in bytes {
        out.u64(u64::from(*byte))?;
    }
    out.end_array()
}
