//! Whether two JSON values have the same text.
ghost use Rattle.std.specs.Prelude.{◌≡◌, ◌↔◌, IfOk, IsTrue};
ghost use Rattle.serde_json.specs.View.{view};
ghost use Rattle.cacache_threads.specs.Said.{said_json};

use cacache_entry::is_whole;
use serde_json::Value;
use std::alloc::{AllocError, Global};

/// Whether two values have the same compact text, or each hold a number not whole in 64 bits.
pub(crate) fn same_json(alloc: Global, a: &Value, b: &Value) -> Result<bool, AllocError>
    ensures { IfOk result (λ same.
        IsTrue same ↔ (said_json (view a.now) ≡ said_json (view b.now))) }
{
    let whole = is_whole(a);
    if whole != is_whole(b) {
        return Ok(false);
    }
    if !whole {
        return Ok(true);
    }
    Ok(same_text(a.to_string(alloc)?.as_str(), b.to_string(alloc)?.as_str()))
}

/// Whether two texts are equal.
fn same_text(a: &str, b: &str) -> bool
    ensures { IsTrue result ↔ (a.now ≡ b.now) }
{
    a == b
}
