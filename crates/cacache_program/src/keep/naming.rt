//! Lines that name what a verification found, and buckets with odd lines.
ghost use Rattle.std.specs.{Prelude.{◌≡◌, IfOk, map, string_bytes}, List.{flat_map}};
ghost use Rattle.cacache.specs.Entries.{found_view};
ghost use Rattle.cacache_program.specs.{WordList.{damaged_line as line_of_damaged, entry_line as line_of_entry, odd_line as line_of_odd, path_line as line_of_path, strange_line as line_of_strange}, KeepValues.{list_of_verdict}};

use crate::entries::entry_text;
use crate::keep::escaping::push_escaped;
use crate::keep::output::verdict_text;
use cacache::{Integrity, Metadata, Result};
use cacache_core::text::Text;
use cacache_keep::Verdict;
use std::alloc::{AllocError, Global};

/// The line of a damaged content: its address.
fn damaged_line(alloc: Global, address: &Integrity) -> std::result::Result<String, AllocError>
    ensures { IfOk result (λ line. string_bytes line ≡ line_of_damaged address.now) }
{
    format!(in alloc; "damaged {address}\n")
}

/// A line for each of these contents.
fn damaged_lines(alloc: Global, damaged: Vec<Integrity>) -> std::result::Result<Vec<u8>, AllocError>
    ensures { IfOk result (λ text. text.items ≡ flat_map line_of_damaged damaged.items) }
{
    let mut text = Vec::new(alloc);
    for address in damaged {
        text.extend_from_slice(damaged_line(alloc, &address)?.as_bytes())?;
    }
    Ok(text)
}

/// The line of an entry, after a word. Memory alone can fail.
fn entry_line(alloc: Global, word: &str, entry: Metadata) -> Result<Vec<u8>>
    ensures { IfOk result (λ line. line.items ≡ line_of_entry word.now (found_view entry)) }
{
    let text = entry_text(alloc, entry)?;
    let mut line = Vec::from_slice(alloc, word.as_bytes())?;
    line.extend_from_slice(&text)?;
    line.push(b'\n')?;
    Ok(line)
}

/// A line for each of these entries, after a word. Memory alone can fail.
pub(crate) fn entry_lines(alloc: Global, word: &str, entries: Vec<Metadata>) -> Result<Vec<u8>>
    ensures { IfOk result
        (λ text. text.items ≡ flat_map (line_of_entry word.now) (map found_view entries.items)) }
{
    let mut text = Vec::new(alloc);
    for entry in entries {
        text.extend_from_slice(&entry_line(alloc, word, entry)?)?;
    }
    Ok(text)
}

/// The line of a path, after a word. The path is escaped, so that it is one line whatever that holds.
fn path_line(alloc: Global, word: &str, path: &str) -> std::result::Result<Vec<u8>, AllocError>
    ensures { IfOk result (λ line. line.items ≡ line_of_path word.now path.now) }
{
    let mut line = Vec::from_slice(alloc, word.as_bytes())?;
    push_escaped(&mut line, path)?;
    line.push(b'\n')?;
    Ok(line)
}

/// A line for each of these paths.
fn strange_lines(alloc: Global, strange: Vec<String>) -> std::result::Result<Vec<u8>, AllocError>
    ensures { IfOk result
        (λ text. text.items ≡ flat_map line_of_strange (map string_bytes strange.items)) }
{
    let mut text = Vec::new(alloc);
    for path in strange {
        text.extend_from_slice(&path_line(alloc, "strange ", path.as_str())?)?;
    }
    Ok(text)
}

/// A line for each of these buckets.
pub(crate) fn odd_lines(alloc: Global, odd: Vec<Text>) -> std::result::Result<Vec<u8>, AllocError>
    ensures { IfOk result (λ text. text.items ≡ flat_map line_of_odd odd.items) }
{
    let mut text = Vec::new(alloc);
    for path in odd {
        text.extend_from_slice(&path_line(alloc, "odd ", path.as_str())?)?;
    }
    Ok(text)
}

/// What is printed of a verification, and the list of what it found but good contents. Memory alone can fail.
pub(crate) fn listed_text(alloc: Global, verdict: Verdict) -> Result<Vec<u8>>
    ensures { IfOk result (λ text. text.items ≡ list_of_verdict verdict) }
{
    let mut text = verdict_text(alloc, &verdict)?;
    let Verdict {
        good: _,
        good_bytes: _,
        damaged,
        damaged_bytes: _,
        dangling,
        strange,
        odd,
    } = verdict;
    text.extend_from_slice(&damaged_lines(alloc, damaged)?)?;
    text.extend_from_slice(&entry_lines(alloc, "dangling ", dangling)?)?;
    text.extend_from_slice(&strange_lines(alloc, strange)?)?;
    text.extend_from_slice(&odd_lines(alloc, odd)?)?;
    Ok(text)
}
