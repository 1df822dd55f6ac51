//! Words as bytes and faults.
use cacache_core::bytes::Bytes;
use cacache_core::errors::Fault;
use rows::Flaw;
use rows::words::string_of;
use std::alloc::{AllocError, Global};

/// The bytes of a word.
pub(crate) fn bytes_of(alloc: Global, word: &str) -> Result<Bytes, AllocError> {
    Bytes::new(alloc, string_of(alloc, word)?.into_bytes())
}

/// The fault of a name.
pub(crate) fn fault_of(name: &str) -> Result<Fault, Flaw> {
    match name {
        "NotFound" => Ok(Fault::NotFound),
        "AlreadyExists" => Ok(Fault::AlreadyExists),
        "NotADirectory" => Ok(Fault::NotADirectory),
        "IsADirectory" => Ok(Fault::IsADirectory),
        "NotEmpty" => Ok(Fault::NotEmpty),
        "Unsupported" => Ok(Fault::Unsupported),
        "InvalidInput" => Ok(Fault::InvalidInput),
        "WriteZero" => Ok(Fault::WriteZero),
        "ShortAppend" => Ok(Fault::ShortAppend),
        "Closed" => Ok(Fault::Closed),
        "OtherBytes" => Ok(Fault::OtherBytes),
        "Cancelled" => Ok(Fault::Cancelled),
        "TooDeep" => Ok(Fault::TooDeep),
        "Device" => Ok(Fault::Device),
        _ => Err(Flaw::NotRead),
    }
}
