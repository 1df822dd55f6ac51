//! The acts of rows.
use crate::values::words::text_of;
use crate::values::{entries, errors, integrities, keys, lines, lookups, parts, paths, shared};
use rows::words::{cut, string_of, written_out};
use rows::{Flaw, Outcome, Trial};
use std::alloc::Global;

/// Tries rows.
#[derive(Drop)]
pub(crate) struct Acts {
    pub(crate) alloc: Global,
}

/// The result of an act on entries.
fn of_entries(alloc: Global, act: &str, given: &str) -> Result<String, Flaw> {
    match act {
        "line" => lines::line(alloc, given),
        "entries" => entries::found(alloc, given),
        "torn" => entries::torn(alloc, given),
        "text" => entries::text(alloc, given),
        "torn-text" => entries::torn_text(alloc, given),
        "alike" => entries::alike(alloc, given),
        "latest" => lookups::latest(alloc, given),
        "again" => lookups::again(alloc, given),
        _ => Err(Flaw::NotRead),
    }
}

/// The result of an act on shared bytes, map keys, a quoted text or entries.
fn of_bytes(alloc: Global, act: &str, given: &str) -> Result<String, Flaw> {
    match act {
        "window" => shared::window(alloc, given),
        "share" => shared::shared(alloc, given),
        "grow" => shared::grown(alloc, given),
        "grow-alone" => shared::grown_alone(alloc, given),
        "less" => keys::less(alloc, given),
        "ordered" => keys::ordered(alloc, given),
        "hashed" => keys::hashed(alloc, given),
        "quoted" => errors::quoted(alloc, given),
        _ => of_entries(alloc, act, given),
    }
}

/// The result of an act on a path, an error or a small part, or of one that `of_bytes` knows.
fn of_others(alloc: Global, act: &str, given: &str) -> Result<String, Flaw> {
    match act {
        "content" => paths::content(alloc, given),
        "bucket" => paths::bucket(alloc, given),
        "temp" => paths::temp(alloc, given),
        "join" => paths::joined(alloc, given),
        "string" => parts::text(alloc, given),
        "compare" => parts::compare(alloc, given),
        "number" => parts::number(alloc, given),
        "environment" => parts::environment(alloc, given),
        "error" => errors::error(alloc, given),
        "short" => errors::short(alloc, given),
        "kind" => errors::kind(alloc, given),
        "fault" => errors::fault(alloc, given),
        "context" => errors::context(alloc, given),
        "plain-context" => errors::plain_context(alloc, given),
        _ => of_bytes(alloc, act, given),
    }
}

/// The result of an act.
fn got(alloc: Global, act: &str, given: &str) -> Result<String, Flaw> {
    match act {
        "algorithm" => integrities::algorithm(alloc, given),
        "order" => integrities::order(alloc, given),
        "digest" => integrities::digest(alloc, given),
        "computed" => integrities::computed(alloc, given),
        "integrity" => integrities::integrity(alloc, given),
        "length" => integrities::length(alloc, given),
        "address" => integrities::address(alloc, given),
        "of-digest" => integrities::of_digest(alloc, given),
        "of-hex" => integrities::of_hex(alloc, given),
        "both" => integrities::both(alloc, given),
        "check" => integrities::check(alloc, given),
        "shares" => integrities::shares(alloc, given),
        "build" => integrities::build(alloc, given),
        "check-pieces" => integrities::check_pieces(alloc, given),
        _ => of_others(alloc, act, given),
    }
}

/// A text with its line feeds, tabs and NULs written as visible characters.
fn visible(alloc: Global, text: Result<String, Flaw>) -> Result<String, Flaw> {
    let text = text?;
    Ok(written_out(alloc, text.as_str())?)
}

impl Trial for Acts {
    fn outcome(&mut self, row: &str) -> Result<Outcome, Flaw> {
        let alloc = self.alloc;
        let row = string_of(alloc, row)?;
        let Some((given, wanted)) = row.rsplit_once(" | ") else {
            return Err(Flaw::NotRead);
        };
        let (act, given) = cut(given);
        let wanted = visible(alloc, text_of(alloc, wanted))?;
        let got = visible(alloc, got(alloc, act, given))?;
        Ok(Outcome { wanted, got })
    }
}
