//! Numbers of bytes and of seconds, with units.
ghost use Rattle.std.specs.Prelude.{◌≡◌, option_map};
ghost use Rattle.cacache_program.specs.Amounts.{amount_in, limit_in, number_in, unit_in};

use crate::storming::are_digits;

/// What a number counts.
#[derive(Clone, Copy)]
pub(crate) enum Measure {
    /// Bytes, also by `K`, `M` and `G`.
    Bytes,
    /// Seconds, also by `s`, `m`, `h` and `d`.
    Seconds,
}

/// How much the unit is whose letter this is, if it is one.
fn unit_of(measure: Measure, letter: u8) -> Option<u64>
    ensures { result ≡ unit_in measure letter }
{
    match measure {
        Measure::Bytes => match letter {
            b'K' => Some(1024),
            b'M' => Some(1_048_576),
            b'G' => Some(1_073_741_824),
            _ => None,
        },
        Measure::Seconds => match letter {
            b's' => Some(1),
            b'm' => Some(60),
            b'h' => Some(3600),
            b'd' => Some(86400),
            _ => None,
        },
    }
}

/// The number that decimal digits alone give, if it has 64 bits.
fn number_of(digits: &[u8]) -> Option<u64>
    ensures { result ≡ number_in digits.now }
{
    if !are_digits(digits) {
        return None;
    }
    let Ok(text) = std::str::from_utf8(digits) else {
        return None;
    };
    text.parse::<u64>().ok()
}

/// The number that a word says, if it has 64 bits: decimal digits, and at most one letter for a unit.
fn amount_of(measure: Measure, word: &str) -> Option<u64>
    ensures { result ≡ amount_in measure word.now }
{
    let bytes = word.as_bytes();
    let Some((last, digits)) = bytes.split_last() else {
        return None;
    };
    match unit_of(measure, *last) {
        Some(unit) => number_of(digits)?.checked_mul(unit),
        None => number_of(bytes),
    }
}

/// The limit that a word says: none if there is no word, or if it is `-`.
pub(crate) fn limit_of(measure: Measure, word: Option<&str>) -> Option<Option<u64>>
    ensures { result ≡ limit_in measure (option_map (λ w. w.now) word.entry) }
{
    match word {
        Some("-") | None => Some(None),
        Some(word) => match amount_of(measure, word) {
            Some(amount) => Some(Some(amount)),
            None => None,
        },
    }
}
