//! The parts of an entry's text, if it has no metadata and is spelled as `line` writes it. They are cut out of the text
//! unchanged.
ghost use Rattle.std.specs.Prelude.{◌≡◌, ◌∷◌, ◌++◌, ◌<◌, ◌^◌, IsTrue, IfSome, decimal, option_map};
ghost use Rattle.json.specs.Print.{escape, quoted as quoted_text};
ghost use Rattle.serde_json.specs.Written.{compact_text};
ghost use Rattle.cacache_entry.specs.{Entry.{piece_of, text_of, text_or_null, texts_then, numbers_then}, EntryLaws.{bare_entry}};

use crate::read::is_digest_of;
use memchr::memchr;

/// The number of digits in the digest of a piece.
const DIGITS: usize = 64;

/// What follows the size and its comma in the text of an entry without metadata.
const END: &[u8] = b"\"metadata\":null,\"raw_metadata\":null}";

/// The parts of an entry without metadata.
#[derive(Clone, Copy)]
pub(crate) struct Parts<'a> {
    pub(crate) key: &'a str,
    pub(crate) integrity: Option<&'a str>,
    pub(crate) time: u64,
    pub(crate) size: u64,
}

/// What follows these bytes, if the input starts with them.
fn after<'a>(front: &[u8], bytes: &'a [u8]) -> Option<&'a [u8]>
    ensures { IfSome result (λ rest. bytes.now ≡ front.now ++ rest.now) }
{
    let (begin, rest) = bytes.split_at_checked(front.len())?;
    if begin == front { Some(rest) } else { None }
}

/// What follows this byte, if the input starts with it.
fn after_byte(byte: u8, bytes: &[u8]) -> Option<&[u8]>
    ensures { IfSome result (λ rest. bytes.now ≡ byte ∷ rest.now) }
{
    let (first, rest) = bytes.split_first()?;
    if *first == byte { Some(rest) } else { None }
}

/// The text before the first such byte, and what follows that byte.
fn cut(byte: u8, bytes: &[u8]) -> Option<(&str, &[u8])>
    ensures { IfSome result (λ p. bytes.now ≡ p.0.now ++ byte ∷ p.1.now) }
{
    let at = memchr(byte, bytes)?;
    let (before, rest) = bytes.split_at_checked(at)?;
    let behind = after_byte(byte, rest)?;
    let text = str::from_utf8(before).ok()?;
    Some((text, behind))
}

/// Whether no byte is a control character, a quote or a backslash, which JSON escapes. The loop has no early exit, so
/// that many bytes are checked at once.
pub(crate) fn is_plain(text: &[u8]) -> bool
    ensures { IsTrue result → escape text.now ≡ text.now }
{
    let mut plain = true;
    for byte in text {
        plain = plain & (*byte >= 32) & (*byte != b'"') & (*byte != b'\\');
    }
    plain
}

/// A text in quotes and what follows it. `None` if the text needs escapes.
fn quoted(bytes: &[u8]) -> Option<(&str, &[u8])>
    ensures { IfSome result (λ p. bytes.now ≡ quoted_text p.0.now ++ p.1.now) }
{
    let (text, rest) = cut(b'"', after_byte(b'"', bytes)?)?;
    if is_plain(text.as_bytes()) {
        Some((text, rest))
    } else {
        None
    }
}

/// A text in quotes or `null`, and what follows it.
fn quoted_or_null(bytes: &[u8]) -> Option<(Option<&str>, &[u8])>
    ensures { IfSome result (λ p.
        bytes.now ≡ compact_text (text_or_null (option_map (λ t. t.now) p.0)) ++ p.1.now) }
{
    if let Some(rest) = after(b"null", bytes) {
        return Some((None, rest));
    }
    let (text, rest) = quoted(bytes)?;
    Some((Some(text), rest))
}

/// A number in its shortest form and what follows its comma.
fn number(bytes: &[u8]) -> Option<(u64, &[u8])>
    ensures digits { IfSome result (λ p. bytes.now ≡ decimal p.0 ++ 44 ∷ p.1.now) }
    ensures fits { IfSome result (λ p. p.0 < 2 ^ 64) }
{
    let (digits, rest) = cut(b',', bytes)?;
    let number = digits.parse::<u64>().ok()?;
    let mut buffer = itoa::Buffer::new();
    if buffer.format(number) == digits {
        Some((number, rest))
    } else {
        None
    }
}

/// The key and the integrity that an entry's text begins with, and what follows them.
fn texts(text: &[u8]) -> Option<(&str, Option<&str>, &[u8])>
    ensures { IfSome result (λ p.
        text.now ≡ texts_then p.0.now (option_map (λ t. t.now) p.1) p.2.now) }
{
    let (key, rest) = quoted(after(b"{\"key\":", text)?)?;
    let (integrity, rest) = quoted_or_null(after(b",\"integrity\":", rest)?)?;
    Some((key, integrity, rest))
}

/// The time and the size that follow an entry's texts, and what follows them.
fn numbers(bytes: &[u8]) -> Option<(u64, u64, &[u8])>
    ensures digits { IfSome result (λ p. bytes.now ≡ numbers_then p.0 p.1 p.2.now) }
    ensures fits { IfSome result (λ p. (p.0 < 2 ^ 64) × (p.1 < 2 ^ 64)) }
{
    let (time, rest) = number(after(b",\"time\":", bytes)?)?;
    let (size, rest) = number(after(b"\"size\":", rest)?)?;
    Some((time, size, rest))
}

/// The parts of the text, if it is the text of an entry without metadata.
fn parts_of(text: &[u8]) -> Option<Parts<'_>>
    ensures text { IfSome result (λ p. text.now
        ≡ text_of (bare_entry p.key.now (option_map (λ t. t.now) p.integrity) p.time p.size)) }
    ensures fits { IfSome result (λ p. (p.time < 2 ^ 64) × (p.size < 2 ^ 64)) }
{
    let (key, integrity, rest) = texts(text)?;
    let (time, size, rest) = numbers(rest)?;
    if rest == END {
        Some(Parts {
            key,
            integrity,
            time,
            size,
        })
    } else {
        None
    }
}

/// The parts of the entry in the piece, if the entry has no metadata and the piece is spelled as `line` writes it.
/// `None` says nothing about the piece.
pub(crate) fn written_parts(piece: &[u8]) -> Option<Parts<'_>>
    ensures piece { IfSome result (λ p. piece.now
        ≡ piece_of (bare_entry p.key.now (option_map (λ t. t.now) p.integrity) p.time p.size)) }
    ensures fits { IfSome result (λ p. (p.time < 2 ^ 64) × (p.size < 2 ^ 64)) }
{
    let (digits, rest) = piece.split_at_checked(DIGITS)?;
    let text = after_byte(b'\t', rest)?;
    let parts = parts_of(text)?;
    if is_digest_of(digits, text) {
        Some(parts)
    } else {
        None
    }
}
