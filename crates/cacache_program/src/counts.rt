//! Counts as they are printed.
ghost use Rattle.std.specs.Prelude.{◌≡◌, IfOk, map, string_bytes};
ghost use Rattle.cacache_program.specs.Counts.{count_line as line_of_count, count_view, counts_text as text_of_counts};

use cacache::Result;
use std::alloc::{AllocError, Global};

/// A name and its count in a line.
fn count_line(alloc: Global, name: &str, count: u64) -> std::result::Result<String, AllocError>
    ensures { IfOk result (λ line. string_bytes line ≡ line_of_count (name.now, count)) }
{
    format!(in alloc; "{name} {count}\n")
}

/// A line for each name and its count. Memory alone can fail.
#[tactic(auto, using(crate::proofs::Naming::count_more))]
pub(crate) fn counts_text(alloc: Global, counts: &[(&str, u64)]) -> Result<Vec<u8>>
    ensures { IfOk result (λ text. text.items ≡ text_of_counts (map count_view counts.now)) }
{
    let mut text = Vec::new(alloc);
    for &(name, count) in counts {
        text.extend_from_slice(count_line(alloc, name, count)?.as_bytes())?;
    }
    Ok(text)
}
