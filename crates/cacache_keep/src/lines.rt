//! The lines of a bucket, and the bytes that a compaction leaves of them.
ghost use Rattle.std.specs.{Prelude.{◌≡◌, ◌++◌, ◌∷◌, ◌||◌, List, [], IfOk, IfErr, OnOk, MatchOption, bytes_eq, false, if◌then◌else◌, is_some, map, option_map, ℕ}, Option.{option_to_list}};
ghost use Rattle.cacache_core.specs.{Integrity.{sha256_hex}, declared.errors.Error.TheVariants.{OutOfMemory}};
ghost use Rattle.cacache_entry.specs.{Bucket.{cut, CutsAt, without_cr as less_cr}, Entry.{closing}, View.{entry_view}};
ghost use Rattle.cacache_laws.specs.trees.Compacting.{compact_text as compact_text_of, decision, decision_of, is_closed as is_closed_by, is_line as is_line_of, is_odd as is_odd_line, key_of, line_of_piece, lines_of as lines_in, Line as LineOf, text_of};
ghost use Rattle.cacache_keep.specs.Lines.{HasKeys, decision_view, finds as finds_in, in_order, last_lines as last_of, line_view, without_tombstones};

use cacache_core::errors::Result;
use cacache_core::keeping::let_go;
use cacache_entry::{SerializableMetadata, answer_of_entry, entries};
use memchr::memchr;
use sha2::{Digest, Sha256};
use std::alloc::{AllocError, Global};
use std::collections::BTreeMap;

/// What a line decides: the key of its entry, and whether a lookup finds that.
#[derive(Drop)]
pub(crate) struct Decided {
    entry: SerializableMetadata,
    finds: bool,
}

impl Decided {
    /// Whether it is of the key.
    pub(crate) fn is_of(&self, key: &str) -> bool
        ensures { result ≡ bytes_eq (decision_view self.now).0 key.now }
    {
        self.entry.key.as_str() == key
    }
}

/// A line of a bucket, and what it decides. An odd line decides nothing.
#[derive(Drop)]
struct Line {
    text: Vec<u8>,
    decided: Option<Decided>,
}

/// The first place of the byte.
pub(crate) fn first(bytes: &[u8], byte: u8) -> Option<usize>
    ensures { MatchOption result (cut byte bytes.now ≡ bytes.now ∷ [])
        (λ i. CutsAt byte bytes.now i) }
{
    memchr(byte, bytes)
}

/// The bytes without one CR at their end.
pub(crate) fn without_cr(piece: &[u8]) -> &[u8]
    ensures { result.now ≡ less_cr piece.now }
{
    match piece.split_last() {
        Some((last, front)) => if *last == b'\r' { front } else { piece },
        None => piece,
    }
}

/// Whether the digits are the lower-case hex digits of the SHA-256 of the bytes.
fn is_digest_of(digits: &[u8], bytes: &[u8]) -> bool
    ensures { result ≡ bytes_eq digits.now (sha256_hex bytes.now) }
{
    let mut hex_digits = [0; 64];
    match hex::encode_to_slice(Sha256::digest(bytes), &mut hex_digits) {
        Ok(()) => digits == hex_digits.as_slice(),
        Err(_) => unreachable!(),
    }
}

/// The bytes before the first TAB; all of them if there is none.
fn before_tab(bytes: &[u8]) -> &[u8]
    ensures { (rest : List (List ℕ)) × (cut 9 bytes.now ≡ result.now ∷ rest) }
{
    match first(bytes, b'\t') {
        Some(tab) => &bytes[..tab],
        None => bytes,
    }
}

/// Whether a piece is a line: its digest is right.
pub(crate) fn is_line(piece: &[u8]) -> bool
    ensures { result ≡ is_line_of piece.now }
{
    let bytes = without_cr(piece);
    match first(bytes, b'\t') {
        Some(tab) => is_digest_of(&bytes[..tab], before_tab(&bytes[tab + 1..])),
        None => false,
    }
}

/// What an entry decides.
fn decided_by(
    alloc: Global,
    entry: SerializableMetadata,
) -> std::result::Result<Option<Decided>, AllocError>
    ensures { IfOk result
        (λ decided. option_map decision_view decided ≡ decision_of (entry_view entry)) }
{
    match answer_of_entry(alloc, &entry)? {
        Some(found) => {
            let finds = found.is_some();
            let_go(found);
            Ok(Some(Decided { entry, finds }))
        }
        None => Ok(None),
    }
}

/// What a piece decides.
pub(crate) fn decided_in(alloc: Global, piece: &[u8]) -> Result<Option<Decided>>
    requires { cut 10 piece.now ≡ piece.now ∷ [] }
    ensures decides { IfOk result
        (λ decided. option_map decision_view decided ≡ decision piece.now) }
    ensures memory { IfErr result (λ e. e ≡ OutOfMemory) }
{
    let mut found = entries(alloc, piece)?;
    match found.pop() {
        Some(entry) => Ok(decided_by(alloc, entry)?),
        None => Ok(None),
    }
}

/// Adds the piece, if it is a line.
fn add(alloc: Global, lines: &mut Vec<Line>, piece: &[u8]) -> Result<()>
    requires { cut 10 piece.now ≡ piece.now ∷ [] }
    ensures line { OnOk result (map line_view lines.new.items
        ≡ map line_view lines.old.items ++ option_to_list (line_of_piece piece.now)) }
    ensures memory { IfErr result (λ e. e ≡ OutOfMemory) }
{
    let decided = decided_in(alloc, piece)?;
    if decided.is_none() && !is_line(piece) {
        return Ok(());
    }
    let text = Vec::from_slice(alloc, piece)?;
    lines.push(Line { text, decided })?;
    Ok(())
}

/// The lines of a bucket.
fn lines_of(alloc: Global, bytes: &[u8]) -> Result<Vec<Line>>
    ensures lines { IfOk result (λ lines. map line_view lines.items ≡ lines_in bytes.now) }
    ensures memory { IfErr result (λ e. e ≡ OutOfMemory) }
{
    let mut lines = Vec::new(alloc);
    let mut rest = bytes;
    while let Some(at) = first(rest, b'\n') {
        add(alloc, &mut lines, &rest[..at])?;
        rest = &rest[at + 1..];
    }
    add(alloc, &mut lines, rest)?;
    Ok(lines)
}

/// Adds the line to those that come after it, unless one of them decides its key.
fn note<'a>(
    keys: &mut BTreeMap<&'a str, ()>,
    last: &mut Vec<&'a Line>,
    line: &'a Line,
) -> std::result::Result<(), AllocError>
    ensures { OnOk result ((later : List LineOf) → HasKeys later keys.old
        → in_order last.old.items ≡ last_of later
        → HasKeys (line_view line.now ∷ later) keys.new
        × (in_order last.new.items ≡ last_of (line_view line.now ∷ later))) }
{
    if let Some(decided) = &line.decided {
        let key = decided.entry.key.as_str();
        if keys.contains_key(key) {
            return Ok(());
        }
        keys.insert(key, ())?;
    }
    last.push(line)?;
    Ok(())
}

/// The odd lines, and each key's last line that decides it, from the last to the first.
fn last_lines(alloc: Global, lines: &[Line]) -> std::result::Result<Vec<&Line>, AllocError>
    ensures { IfOk result
        (λ last. in_order last.items ≡ last_of (map line_view lines.now)) }
{
    let mut keys = BTreeMap::new(alloc);
    let mut last = Vec::new(alloc);
    let mut rest = lines;
    while let Some((line, earlier)) = rest.split_last() {
        note(&mut keys, &mut last, line)?;
        rest = earlier;
    }
    Ok(last)
}

/// Whether an odd line came, once this one did.
fn is_odd_by(odd: bool, line: &Line) -> bool
    ensures { result ≡ (odd || is_odd_line (line_view line.now)) }
{
    odd || line.decided.is_none()
}

/// Whether the line finds an entry.
fn finds(line: &Line) -> bool
    ensures { result ≡ finds_in (line_view line.now) }
{
    match &line.decided {
        Some(decided) => decided.finds,
        None => false,
    }
}

/// Writes a line after a line feed, unless it is a tombstone that no odd line comes before.
fn push(text: &mut Vec<u8>, odd: bool, line: &Line) -> std::result::Result<(), AllocError>
    ensures { OnOk result (text.new.items ≡ text.old.items ++ text_of
        (if odd || finds_in (line_view line.now) then line_view line.now ∷ [] else [])) }
{
    if odd || finds(line) {
        text.push(b'\n')?;
        text.extend_from_slice(line.text.as_slice())?;
    }
    Ok(())
}

/// The text of the lines, which come from the last to the first, without tombstones that no odd line comes before.
fn text_of_last(alloc: Global, last: Vec<&Line>) -> std::result::Result<Vec<u8>, AllocError>
    ensures { IfOk result
        (λ text. text.items ≡ text_of (without_tombstones false (in_order last.entry.items))) }
{
    let mut text = Vec::new(alloc);
    let mut last = last;
    let mut odd = false;
    while let Some(line) = last.pop() {
        odd = is_odd_by(odd, line);
        push(&mut text, odd, line)?;
    }
    Ok(text)
}

/// Whether bytes end with a line feed.
fn is_closed(bytes: &[u8]) -> bool
    ensures { result ≡ is_closed_by bytes.now }
{
    match bytes.split_last() {
        Some((last, _)) => *last == b'\n',
        None => false,
    }
}

/// Whether compacted bytes end with a line feed: if the compaction is durable or the bytes end with one.
fn is_to_close(durable: bool, bytes: &[u8]) -> bool
    ensures { result ≡ (durable || is_closed_by bytes.now) }
{
    durable || is_closed(bytes)
}

/// Adds a line feed, if that is asked for.
fn close(text: &mut Vec<u8>, closed: bool) -> std::result::Result<(), AllocError>
    ensures { OnOk result (text.new.items ≡ text.old.items ++ closing closed) }
{
    if closed {
        text.push(b'\n')?;
    }
    Ok(())
}

/// The bytes that a compaction leaves of a bucket's: the odd lines, and each key's last line that decides it, if that
/// is an entry, or a tombstone that an odd line comes before. A last line feed stays, and a durable compaction adds
/// one.
pub(crate) fn compact_text(alloc: Global, durable: bool, bytes: &[u8]) -> Result<Vec<u8>>
    ensures text { IfOk result (λ text. text.items ≡ compact_text_of durable bytes.now) }
    ensures memory { IfErr result (λ e. e ≡ OutOfMemory) }
{
    let lines = lines_of(alloc, bytes)?;
    let last = last_lines(alloc, lines.as_slice())?;
    let mut text = text_of_last(alloc, last)?;
    close(&mut text, is_to_close(durable, bytes))?;
    Ok(text)
}
