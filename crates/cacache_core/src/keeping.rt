//! Drops values by a call. An inline drop is proved field by field, at each exit of a function; a call is one step.
ghost use Rattle.std.specs.Prelude.{◌≡◌, Ok, Err, IfOk, IfErr};

use std::mem::replace;

/// Drops a value by a call. The proof of the call doesn't see the parts of the value.
#[inline(always)]
pub fn let_go<T: Drop>(_value: T) {}

/// Replaces a value with another, and drops the old one.
#[inline(always)]
pub fn set<T: Drop>(place: &mut T, value: T)
    ensures { place.new ≡ value }
{
    let_go(replace(place, value));
}

/// Returns the value paired with the other. On an error, it returns only the error, and drops the
/// other.
#[inline(always)]
pub fn beside<A, B: Drop, E>(tried: Result<A, E>, other: B) -> Result<(A, B), E>
    ensures ok { IfOk result (λ both. (tried ≡ Ok both.0) × (both.1 ≡ other)) }
    ensures err { IfErr result (λ e. tried ≡ Err e) }
{
    match tried {
        Ok(value) => Ok((value, other)),
        Err(error) => {
            let_go(other);
            Err(error)
        }
    }
}
