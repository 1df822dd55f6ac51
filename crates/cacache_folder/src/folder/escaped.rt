//! Names that aren't text, as texts.
//!
//! The system's names are bytes. One that isn't UTF-8 is written as an escaped name: the mark, and then its bytes in
//! hex. So is one that begins with the mark itself, which no name of up to 255 bytes does.
ghost use Rattle.std.specs.Prelude.{◌≡◌, ◌++◌, IfOk};
ghost use Rattle.hex.specs.Hex.{encode_lower};
ghost use Rattle.cacache_system.specs.Seen.{mark, text_of};
ghost use Rattle.cacache_folder.specs.Listings.{raw_name};

use cacache_core::text::Text;
use std::alloc::{AllocError, Global};

/// What an escaped name begins with: 256 bytes, while the system's names have at most 255.
const MARK: &str = "\
%%%%%%%%%%%%%%%%%%%%%%%%%%%%%%%%%%%%%%%%%%%%%%%%%%%%%%%%%%%%%%%%\
%%%%%%%%%%%%%%%%%%%%%%%%%%%%%%%%%%%%%%%%%%%%%%%%%%%%%%%%%%%%%%%%\
%%%%%%%%%%%%%%%%%%%%%%%%%%%%%%%%%%%%%%%%%%%%%%%%%%%%%%%%%%%%%%%%\
%%%%%%%%%%%%%%%%%%%%%%%%%%%%%%%%%%%%%%%%%%%%%%%%%%%%%%%%%%%%%%%%";

/// A name's bytes as an escaped name.
fn escaped(alloc: Global, name: &[u8]) -> Result<Text, AllocError>
    ensures { IfOk result (λ text. text ≡ mark ++ encode_lower name.now) }
{
    let digits = hex::encode(alloc, name)?;
    let mut text = String::from_str(alloc, MARK)?;
    text.push_str(digits.as_str())?;
    Ok(Text::new(text))
}

/// The text of a name's bytes: they themselves, or an escaped name. Different names have different texts.
pub(crate) fn text_of_name(alloc: Global, name: &[u8]) -> Result<Text, AllocError>
    ensures raw { IfOk result (λ text. raw_name text ≡ name.now) }
    ensures told { IfOk result (λ text. text ≡ text_of name.now) }
{
    if name.starts_with(MARK.as_bytes()) {
        return escaped(alloc, name);
    }
    match std::str::from_utf8(name) {
        Ok(text) => Text::from_str(alloc, text),
        Err(_) => escaped(alloc, name),
    }
}
