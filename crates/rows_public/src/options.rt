//! Options of a row: words as `size=5`, `time=7`, `algorithm=sha1`, `integrity=..`, `metadata=..`, `nested=126` for so
//! many arrays, one in another, `raw=0,255` for bytes, and `durable`.
use cacache::{Algorithm, Integrity, Value, WriteOpts};
use cacache_core::keeping::let_go;
use rows::Flaw;
use rows::parts::{algorithm_of, integrity_of};
use rows::words::number_of;
use std::alloc::{AllocError, Global};

/// The metadata of this text.
fn metadata_of(alloc: Global, text: &str) -> Result<Value, Flaw> {
    match Value::from_str(alloc, text) {
        Ok(value) => Ok(value),
        Err(error) => {
            let_go(error);
            Err(Flaw::NotRead)
        }
    }
}

/// So many arrays, one in another.
fn nested(alloc: Global, count: usize) -> Result<Value, Flaw> {
    let mut text = "[".repeat(alloc, count)?;
    text.push_str("]".repeat(alloc, count)?.as_str())?;
    metadata_of(alloc, text.as_str())
}

/// The bytes of numbers with commas between them.
fn raw_of(alloc: Global, numbers: &str) -> Result<Vec<u8>, Flaw> {
    let mut bytes = Vec::new(alloc);
    for number in numbers.split(',') {
        match number.parse::<u8>() {
            Ok(byte) => bytes.push(byte).map_err(AllocError::from)?,
            Err(_) => return Err(Flaw::NotRead),
        }
    }
    Ok(bytes)
}

/// The moment of this text, in milliseconds.
fn time_of(text: &str) -> Result<u128, Flaw> {
    match text.parse::<u128>() {
        Ok(time) => Ok(time),
        Err(_) => Err(Flaw::NotRead),
    }
}

/// What a word sets.
enum Setting {
    Size(usize),
    Time(u128),
    Algorithm(Algorithm),
    Integrity(Integrity),
    Metadata(Value),
    Raw(Vec<u8>),
    Durable,
}

/// What a word of metadata or of raw metadata sets, or `durable`.
fn metadata_setting(alloc: Global, name: &str, text: &str) -> Result<Setting, Flaw> {
    match name {
        "metadata" => Ok(Setting::Metadata(metadata_of(alloc, text)?)),
        "nested" => Ok(Setting::Metadata(nested(alloc, number_of(text)?)?)),
        "raw" => Ok(Setting::Raw(raw_of(alloc, text)?)),
        "durable" => Ok(Setting::Durable),
        _ => Err(Flaw::NotRead),
    }
}

/// What a word sets.
fn setting_of(alloc: Global, word: &str) -> Result<Setting, Flaw> {
    let (name, text) = word.split_once('=').unwrap_or((word, ""));
    match name {
        "size" => Ok(Setting::Size(number_of(text)?)),
        "time" => Ok(Setting::Time(time_of(text)?)),
        "algorithm" => Ok(Setting::Algorithm(algorithm_of(text)?)),
        "integrity" => Ok(Setting::Integrity(integrity_of(alloc, text)?)),
        _ => metadata_setting(alloc, name, text),
    }
}

/// The options with what is set.
fn with(opts: WriteOpts, setting: Setting) -> WriteOpts {
    match setting {
        Setting::Size(size) => opts.size(size),
        Setting::Time(time) => opts.time(time),
        Setting::Algorithm(algorithm) => opts.algorithm(algorithm),
        Setting::Integrity(integrity) => opts.integrity(integrity),
        Setting::Metadata(value) => opts.metadata(value),
        Setting::Raw(bytes) => opts.raw_metadata(bytes),
        Setting::Durable => opts.durable(true),
    }
}

/// The options of these words.
pub(crate) fn options_of(alloc: Global, words: &str) -> Result<WriteOpts, Flaw> {
    let mut opts = WriteOpts::new();
    for word in words.split(' ') {
        if word.is_empty() {
            continue;
        }
        match setting_of(alloc, word) {
            Ok(setting) => opts = with(opts, setting),
            Err(flaw) => {
                let_go(opts);
                return Err(flaw);
            }
        }
    }
    Ok(opts)
}
