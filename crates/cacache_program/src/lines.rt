//! The lines of a listing.
ghost use Rattle.std.specs.Prelude.{◌≡◌, ◌++◌, ◌||◌, IfOk, OnOk, is_some, is_err, option_to_list, map, filter_map};
ghost use Rattle.cacache.specs.Entries.{found_view};
ghost use Rattle.cacache_program.specs.{WordLs.{IsPrintedListing, has_error, line_in, output_line as output_line_of, listing_text}, Lines.{line_view, lines_of}};

use crate::entries::entry_text;
use cacache::errors::Error;
use cacache::jobs::Found;
use cacache::{Metadata, Result};
use std::alloc::Global;

/// A line of a listing, before its line feed, and the key that orders it.
#[derive(PartialEq, Eq, PartialOrd, Ord, Drop)]
struct Line {
    key: String,
    text: Vec<u8>,
}

/// The lines of a listing, its first error, and whether there are others.
#[derive(Drop)]
struct Lines {
    lines: Vec<Line>,
    first_error: Option<Error>,
    has_more_errors: bool,
}

/// What is printed for a listing, its first error, and whether there are others.
#[derive(Drop)]
pub(crate) struct Listing {
    pub(crate) text: Vec<u8>,
    pub(crate) first_error: Option<Error>,
    pub(crate) has_more_errors: bool,
}

/// The line of an entry that was found.
fn output_line(alloc: Global, found: Metadata) -> Result<Line>
    ensures { IfOk result (λ line. line_view line ≡ output_line_of (found_view found)) }
{
    let key = found.key.clone()?;
    let text = entry_text(alloc, found)?;
    Ok(Line { key, text })
}

impl Lines {
    /// Adds an item: a line, or an error. The first error is kept.
    fn add(&mut self, alloc: Global, item: std::result::Result<Found, Error>) -> Result<()>
        ensures lines { OnOk result
            (lines_of self.new ≡ lines_of self.old ++ option_to_list (line_in item)) }
        ensures error { OnOk result
            (is_some self.new.first_error ≡ (is_some self.old.first_error || is_err item)) }
    {
        match item {
            Ok(found) => self.lines.push(output_line(alloc, found.into_metadata())?)?,
            Err(error) => {
                if self.first_error.is_none() {
                    self.first_error = Some(error);
                } else {
                    self.has_more_errors = true;
                }
            }
        }
        Ok(())
    }
}

/// The lines of the items, as they come.
fn gather(alloc: Global, items: Vec<std::result::Result<Found, Error>>) -> Result<Lines>
    ensures lines { IfOk result (λ l. lines_of l ≡ filter_map line_in items.items) }
    ensures error { IfOk result (λ l. is_some l.first_error ≡ has_error items.items) }
{
    let mut lines = Lines {
        lines: Vec::new(alloc),
        first_error: None,
        has_more_errors: false,
    };
    for item in items {
        lines.add(alloc, item)?;
    }
    Ok(lines)
}

/// The lines as they are printed, each with a line feed.
fn text_of(alloc: Global, lines: &[Line]) -> Result<Vec<u8>>
    ensures { IfOk result (λ text. text.items ≡ listing_text (map line_view lines.now)) }
{
    let mut text = Vec::new(alloc);
    for line in lines {
        text.extend_from_slice(&line.text)?;
        text.push(b'\n')?;
    }
    Ok(text)
}

/// What is printed for the items, and their first error. Memory alone can fail.
pub(crate) fn listing_of(
    alloc: Global,
    items: Vec<std::result::Result<Found, Error>>,
) -> Result<Listing>
    ensures text { IfOk result (λ l. IsPrintedListing items.items l.text.items) }
    ensures error { IfOk result (λ l. is_some l.first_error ≡ has_error items.items) }
{
    let Lines {
        mut lines,
        first_error,
        has_more_errors,
    } = gather(alloc, items)?;
    lines.sort_unstable();
    let text = text_of(alloc, &lines)?;
    Ok(Listing {
        text,
        first_error,
        has_more_errors,
    })
}
