//! Contents that are read, each in turn: good ones and damaged ones.
ghost use Rattle.std.specs.Prelude.{◌≡◌, ℕ, List, [], ◌++◌, IfOk, IfErr};
ghost use Rattle.cacache_core.specs.{declared.{errors.Error.TheVariants.{OutOfMemory}, integrity.digest.Hash.{Hash}}, Matching.{meets}, Hashers.{Compares}};
ghost use Rattle.cacache_keep.specs.Reading.{JudgesBytes, SaysGood, StopsContent, StopsEach, StopsGiving, WeighsEach, WeighsOthers, finds_none};

use cacache_calls::Refusal;
use cacache_calls::answers::{Got, file_of, got_of};
use cacache_core::errors::{Error, Fault, Result};
use cacache_core::integrity::{Integrity, IntegrityChecker};
use cacache_core::keeping::let_go;
use cacache_core::text::Text;
use cacache_jobs::{PIECE, content_path, refused};
use cacache_store::store::{Step, Store};
use std::alloc::{AllocError, Global};

/// How many of the contents are good, the addresses of the others, and how many bytes both gave.
#[derive(Drop)]
pub(crate) struct Read {
    pub(crate) good: u64,
    pub(crate) good_bytes: u64,
    pub(crate) damaged: Vec<Integrity>,
    pub(crate) damaged_bytes: u64,
}

/// Whether a content is good, and how many bytes it gave.
#[derive(Clone, Copy)]
struct Judgement {
    good: bool,
    bytes: u64,
}

/// The damaged ones of contents, and how many bytes the good ones and these gave.
#[derive(Drop)]
struct Others {
    good_bytes: u64,
    damaged: Vec<Integrity>,
    damaged_bytes: u64,
}

/// The content wasn't opened, or not read to its end.
fn unread(alloc: Global, cache: &str, sri: &Integrity) -> std::result::Result<Text, AllocError> {
    let path = content_path(alloc, cache, sri)?;
    Ok(Text::new(format!(in alloc; "Failed to read contents for file at {path}")?))
}

/// Whether what the checker was fed, so many bytes, meets its integrity.
fn judged(alloc: Global, checker: IntegrityChecker, bytes: u64) -> Result<Judgement>
    ensures met { (i : List Hash) (fed : List ℕ) → Compares checker i fed
        → IfOk result (λ j. j.good ≡ meets i fed) }
    ensures size { IfOk result (λ j. j.bytes ≡ bytes) }
    ensures memory { (i : List Hash) (fed : List ℕ) → Compares checker i fed
        → IfErr result (λ e. e ≡ OutOfMemory) }
{
    match checker.result(alloc) {
        Ok(_) => Ok(Judgement { good: true, bytes }),
        Err(Error::IntegrityError(fault)) => {
            let_go(fault);
            Ok(Judgement { good: false, bytes })
        }
        Err(error) => Err(error),
    }
}

/// Whether the bytes of the open content meet its address, and how many they are. They are read in pieces.
fn judge_bytes<S: Store>(
    alloc: Global,
    store: &mut S,
    cache: &str,
    sri: &Integrity,
    file: S::File,
) -> Result<Judgement>
    ensures says { IfOk result (λ j. JudgesBytes sri.now (S.File.seen file) j.good j.bytes
        (S.log store.old) (S.log store.new)) }
    ensures stops { IfErr result
        (λ e. StopsGiving (S.File.seen file) e (S.log store.old) (S.log store.new)) }
{
    let mut checker = IntegrityChecker::new(sri.clone()?);
    let mut file = file;
    let mut size = 0u64;
    'pieces: loop {
        match got_of(store.step(Step::Read(file, PIECE))) {
            Ok(got) => {
                let Got { file: next, bytes } = got;
                if bytes.is_empty() {
                    return judged(alloc, checker, size);
                }
                checker.input(bytes.as_slice());
                size = size.saturating_add(bytes.len() as u64);
                file = next;
            }
            Err(refusal) => return Err(refused(refusal, unread(alloc, cache, sri))),
        }
    }
}

/// Whether a step was refused because nothing was found.
pub(crate) fn says_gone(refusal: Refusal) -> bool
    ensures { result ≡ finds_none refusal }
{
    match refusal {
        Refusal::Fault(fault) => matches!(fault, Fault::NotFound),
        Refusal::Memory => false,
    }
}

/// Whether the content is good, and how many bytes it has. One that is gone isn't good, and has none.
fn judge<S: Store>(alloc: Global, store: &mut S, cache: &str, sri: &Integrity) -> Result<Judgement>
    ensures says { IfOk result (λ j. SaysGood cache.now sri.now j.good j.bytes
        (S.log store.old) (S.log store.new)) }
    ensures stops { IfErr result
        (λ e. StopsContent cache.now sri.now e (S.log store.old) (S.log store.new)) }
{
    let path = content_path(alloc, cache, sri)?;
    match file_of(store.step(Step::Open(path))) {
        Ok(file) => judge_bytes(alloc, store, cache, sri, file),
        Err(refusal) => {
            if says_gone(refusal) {
                return Ok(Judgement {
                    good: false,
                    bytes: 0,
                });
            }
            Err(refused(refusal, unread(alloc, cache, sri)))
        }
    }
}

/// The damaged ones of the contents, and how many bytes these and the others gave.
fn others_of<S: Store>(
    alloc: Global,
    store: &mut S,
    cache: &str,
    addresses: Vec<Integrity>,
) -> Result<Others>
    ensures reads { IfOk result (λ o. WeighsOthers cache.now addresses.items
        o.good_bytes o.damaged.items o.damaged_bytes (S.log store.old) (S.log store.new)) }
    ensures stops { IfErr result (λ e. StopsEach cache.now addresses.items e
        (S.log store.old) (S.log store.new)) }
{
    let mut damaged = Vec::new(alloc);
    let (mut good_bytes, mut damaged_bytes) = (0u64, 0u64);
    for sri in addresses {
        let Judgement { good, bytes } = judge(alloc, store, cache, &sri)?;
        if good {
            good_bytes = good_bytes.saturating_add(bytes);
        } else {
            damaged_bytes = damaged_bytes.saturating_add(bytes);
            damaged.push(sri)?;
        }
    }
    Ok(Others {
        good_bytes,
        damaged,
        damaged_bytes,
    })
}

/// The contents, good and damaged, and the bytes that they gave.
pub(crate) fn read_each<S: Store>(
    alloc: Global,
    store: &mut S,
    cache: &str,
    addresses: Vec<Integrity>,
) -> Result<Read>
    ensures reads { IfOk result (λ r. WeighsEach cache.now addresses.items
        r.good r.good_bytes r.damaged.items r.damaged_bytes (S.log store.old) (S.log store.new)) }
    ensures stops { IfErr result (λ e. StopsEach cache.now addresses.items e
        (S.log store.old) (S.log store.new)) }
{
    let count = addresses.len();
    let Others {
        good_bytes,
        damaged,
        damaged_bytes,
    } = others_of(alloc, store, cache, addresses)?;
    let good = (count - damaged.len()) as u64;
    Ok(Read {
        good,
        good_bytes,
        damaged,
        damaged_bytes,
    })
}
