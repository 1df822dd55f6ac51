//! Parts of an entry's JSON text, printed without allocating memory.

use std::fmt;

/// A text that is printed in quotes, with the escapes of JSON (RFC 8259, section 7).
#[derive(Clone, Copy)]
pub(crate) struct Quoted<'a>(pub &'a str);

impl fmt::Display for Quoted<'_> {
    fn fmt<W: fmt::Write>(&self, f: &mut fmt::Formatter<W>) -> fmt::Result {
        f.write_str("\"")?;
        for letter in self.0.chars() {
            push_letter(f, letter)?;
        }
        f.write_str("\"")
    }
}

/// Prints one character of a text in quotes.
fn push_letter<W: fmt::Write>(f: &mut fmt::Formatter<W>, letter: char) -> fmt::Result {
    match letter {
        '"' => f.write_str("\\\""),
        '\\' => f.write_str("\\\\"),
        '\u{8}' => f.write_str("\\b"),
        '\t' => f.write_str("\\t"),
        '\n' => f.write_str("\\n"),
        '\u{c}' => f.write_str("\\f"),
        '\r' => f.write_str("\\r"),
        '\0'..='\u{1f}' => write!(f, "\\u{:04x}", u32::from(letter)),
        letter => f.write_char(letter),
    }
}

/// Bytes that are printed as an array of numbers, or as null for `None`.
#[derive(Clone, Copy)]
pub(crate) struct Numbers<'a>(pub &'a Option<Vec<u8>>);

impl fmt::Display for Numbers<'_> {
    fn fmt<W: fmt::Write>(&self, f: &mut fmt::Formatter<W>) -> fmt::Result {
        let Some(bytes) = self.0 else {
            return f.write_str("null");
        };
        f.write_str("[")?;
        for (index, byte) in bytes.iter().enumerate() {
            let comma = if index == 0 { "" } else { "," };
            write!(f, "{comma}{byte}")?;
        }
        f.write_str("]")
    }
}
