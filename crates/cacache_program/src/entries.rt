//! Entries as they are printed.
ghost use Rattle.std.specs.Prelude.{◌≡◌, IfOk};
ghost use Rattle.cacache.specs.Entries.{found_view};
ghost use Rattle.cacache_program.specs.PrintedEntries.{entry_text};

use cacache::index::{entry_of, text};
use cacache::{Metadata, Result};
use std::alloc::Global;

/// The text of an entry that was found. What was found fits a line, so that memory alone can fail.
pub(crate) fn entry_text(alloc: Global, found: Metadata) -> Result<Vec<u8>>
    ensures { IfOk result (λ text. text.items ≡ entry_text (found_view found)) }
{
    let entry = entry_of(alloc, found)?;
    text(alloc, &entry)
}
