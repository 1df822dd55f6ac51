//! Algorithms, digests and integrities.
use crate::values::words::{Debugged, column, plain, printed, text_of, three, told, two};
use cacache_core::hasher::Hasher;
use cacache_core::integrity::{Algorithm, Integrity, IntegrityChecker, IntegrityOpts};
use rows::Flaw;
use rows::answers::given;
use std::alloc::Global;

/// The algorithm with this name.
fn named(name: &str) -> Result<Algorithm, Flaw> {
    given(Algorithm::parse(name))
}

/// The integrity of a text.
pub(crate) fn read(alloc: Global, text: &str) -> Result<Integrity, Flaw> {
    given(Integrity::parse(alloc, text))
}

/// The algorithm with this name: its `Debug` form, its name and what it prints as; or why there is none.
pub(crate) fn algorithm(alloc: Global, name: &str) -> Result<String, Flaw> {
    match Algorithm::parse(name) {
        Ok(algorithm) => three(alloc, Debugged(algorithm), algorithm.name(), algorithm),
        Err(error) => printed(alloc, error),
    }
}

/// Whether one algorithm is less than another, and their order.
pub(crate) fn order(alloc: Global, columns: &str) -> Result<String, Flaw> {
    let (one, other) = column(columns);
    let one = named(one)?;
    let other = named(other)?;
    two(alloc, one < other, Debugged(one.cmp(&other)))
}

/// The integrity of data under an algorithm.
pub(crate) fn digest(alloc: Global, columns: &str) -> Result<String, Flaw> {
    let (name, data) = column(columns);
    let mut hasher = Hasher::new(named(name)?);
    hasher.update(plain(data).as_bytes());
    told(alloc, hasher.result(alloc))
}

/// The integrity that is computed from data, without naming an algorithm.
pub(crate) fn computed(alloc: Global, data: &str) -> Result<String, Flaw> {
    told(alloc, Integrity::from(alloc, data.as_bytes()))
}

/// What the integrity of a text prints as, or why there is none.
pub(crate) fn integrity(alloc: Global, text: &str) -> Result<String, Flaw> {
    let text = text_of(alloc, text)?;
    told(alloc, Integrity::parse(alloc, text.as_str()))
}

/// How long the output of `integrity` is.
pub(crate) fn length(alloc: Global, text: &str) -> Result<String, Flaw> {
    let text = integrity(alloc, text)?;
    printed(alloc, text.len())
}

/// The integrity with this algorithm and this digest in hex digits.
pub(crate) fn of_digest(alloc: Global, columns: &str) -> Result<String, Flaw> {
    let (name, digits) = column(columns);
    let algorithm = given(Algorithm::parse(name))?;
    let digest = given(hex::decode(alloc, plain(digits)))?;
    told(alloc, Integrity::from_digest(alloc, algorithm, digest))
}

/// Like `of_digest`, but `Integrity` itself reads the digits.
pub(crate) fn of_hex(alloc: Global, columns: &str) -> Result<String, Flaw> {
    let (name, digits) = column(columns);
    told(
        alloc,
        Integrity::from_hex(alloc, plain(digits), named(name)?),
    )
}

/// The integrity that has the hashes of both.
pub(crate) fn both(alloc: Global, columns: &str) -> Result<String, Flaw> {
    let (one, other) = column(columns);
    let one = read(alloc, one)?;
    let other = read(alloc, other)?;
    told(alloc, one.concat(alloc, &other))
}

/// The algorithm and the hex digits of an integrity's address, and whether a copy of the integrity is equal.
pub(crate) fn address(alloc: Global, text: &str) -> Result<String, Flaw> {
    let integrity = read(alloc, text)?;
    let copy = integrity.clone()?;
    let (algorithm, digits) = given(integrity.to_hex(alloc))?;
    three(alloc, algorithm, digits, copy == integrity)
}

/// The algorithm by which data meet the integrity in a text, or why they don't.
pub(crate) fn check(alloc: Global, columns: &str) -> Result<String, Flaw> {
    let (text, data) = column(columns);
    let integrity = read(alloc, text)?;
    told(alloc, integrity.check(alloc, data.as_bytes()))
}

/// The algorithm of the digest that two integrities share.
pub(crate) fn shares(alloc: Global, columns: &str) -> Result<String, Flaw> {
    let (one, other) = column(columns);
    let one = read(alloc, one)?;
    let other = read(alloc, other)?;
    printed(alloc, Debugged(one.matches(&other)))
}

/// The integrity of two pieces, with the algorithm set between them.
pub(crate) fn build(alloc: Global, columns: &str) -> Result<String, Flaw> {
    let (name, pieces) = column(columns);
    let (first, second) = column(pieces);
    let algorithm = named(name)?;
    let mut builder = IntegrityOpts::default();
    builder.input(first.as_bytes());
    let mut builder = builder.algorithm(algorithm);
    builder.input(second.as_bytes());
    told(alloc, builder.result(alloc))
}

/// The algorithm by which two pieces meet the integrity in a text, or why they don't.
pub(crate) fn check_pieces(alloc: Global, columns: &str) -> Result<String, Flaw> {
    let (text, pieces) = column(columns);
    let (first, second) = column(pieces);
    let mut checker = IntegrityChecker::new(read(alloc, text)?);
    checker.input(first.as_bytes());
    checker.input(second.as_bytes());
    told(alloc, checker.result(alloc))
}
