//! Bytes that no row can write, since a row is text.
use cacache::env::memory;
use std::alloc::{AllocError, Global};
use std::test::Fail;

/// Each byte once.
fn every_byte(alloc: Global) -> Result<Vec<u8>, AllocError> {
    let mut bytes = Vec::with_capacity(alloc, 256)?;
    for byte in 0..256_usize {
        bytes.push(byte as u8)?;
    }
    Ok(bytes)
}

/// What a read gives of bytes that were written.
fn written_and_read(rt: HostRuntime, data: &[u8]) -> cacache::Result<Vec<u8>> {
    let mut env = memory(rt, "/")?;
    cacache::write_sync(&mut env, "c", "k", data)?;
    cacache::read_sync(&mut env, "c", "k")
}

#[test]
fn every_byte_comes_back(rt: HostRuntime) -> Result<(), Fail> {
    let bytes = every_byte(rt.alloc())?;
    let read = written_and_read(rt, bytes.as_slice())?;
    assert_eq!(rt; read.as_slice(), bytes.as_slice());
    Ok(())
}
