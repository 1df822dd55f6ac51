//! Names as a list prints them, each on one line.
ghost use Rattle.std.specs.{Prelude.{◌≡◌, ◌++◌, ◌<◌, OnOk}, Char.{digit_char}};
ghost use Rattle.cacache_program.specs.Escaping.{escaped, escaped_byte, escaped_control};

use std::alloc::AllocError;

/// The hex digit of a number below 16.
fn hex_digit(number: u8) -> u8
    requires { number < 16 }
    ensures { result ≡ digit_char number }
{
    if number < 10 {
        return b'0' + number;
    }
    b'a' + (number - 10)
}

/// Puts a control character after the text: `\x` and its two hex digits.
fn push_control(text: &mut Vec<u8>, control: u8) -> Result<(), AllocError>
    requires { control < 32 }
    ensures { OnOk result (text.new.items ≡ text.old.items ++ escaped_control control) }
{
    if control < 16 {
        text.extend_from_slice(b"\\x0")?;
        text.push(hex_digit(control))?;
    } else {
        text.extend_from_slice(b"\\x1")?;
        text.push(hex_digit(control - 16))?;
    }
    Ok(())
}

/// Puts a byte of a name after the text: a backslash as `\\`, a control character as `\x` and two hex digits.
fn push_byte(text: &mut Vec<u8>, byte: u8) -> Result<(), AllocError>
    ensures { OnOk result (text.new.items ≡ text.old.items ++ escaped_byte byte) }
{
    if byte == b'\\' {
        text.extend_from_slice(b"\\\\")?;
    } else if byte == 127 {
        text.extend_from_slice(b"\\x7f")?;
    } else if byte < 32 {
        push_control(text, byte)?;
    } else {
        text.push(byte)?;
    }
    Ok(())
}

/// Puts a name after the text, so that it has no line feed and differs from every other name.
pub(crate) fn push_escaped(text: &mut Vec<u8>, name: &str) -> Result<(), AllocError>
    ensures { OnOk result (text.new.items ≡ text.old.items ++ escaped name.now) }
{
    for byte in name.as_bytes() {
        push_byte(text, *byte)?;
    }
    Ok(())
}
