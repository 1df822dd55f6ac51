//! The example of the README, with a cache below the folder that the test runs in.
use cacache::env::folders;
use std::test::Fail;

/// Stores some bytes, and reads them back by their integrity.
fn example(rt: HostRuntime, cache: &str) -> cacache::Result<()> {
    let mut env = folders(rt, "/")?;
    let integrity = cacache::write_sync(&mut env, cache, "key", b"my data")?;
    let bytes = cacache::read_hash_sync(&mut env, cache, &integrity)?;
    let _printed = println!(rt; "{integrity} has {} bytes", bytes.len());
    Ok(())
}

#[test]
fn example_of_the_readme(rt: HostRuntime) -> Result<(), Fail> {
    let cache = "/tmp/my-cache";
    // If others had that folder, the test could fail: it has one below its own.
    example(rt, cache.strip_prefix("/tmp/").unwrap_or(cache))?;
    Ok(())
}
