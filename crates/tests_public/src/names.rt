//! Numbers of temporary files in environments of real folders, and in those in memory.
use cacache::env::{Names, folders, memory};

/// The first two numbers of an environment.
fn first_two(rt: HostRuntime) -> cacache::Result<(u64, u64)> {
    let mut env = folders(rt, "/")?;
    Ok((env.names.fresh(), env.names.fresh()))
}

/// The first number of an environment in memory.
fn first_in_memory(rt: HostRuntime) -> cacache::Result<u64> {
    let mut env = memory(rt, "/")?;
    Ok(env.names.fresh())
}

#[test]
fn each_environment_of_folders_has_numbers_of_its_own(rt: HostRuntime) -> cacache::Result<()> {
    let (one, next) = first_two(rt)?;
    let (other, _) = first_two(rt)?;
    assert!(rt; one != other, "{one}");
    assert_eq!(rt; next, one.wrapping_add(65536));
    Ok(())
}

#[test]
fn each_environment_in_memory_has_numbers_of_its_own(rt: HostRuntime) -> cacache::Result<()> {
    let one = first_in_memory(rt)?;
    let other = first_in_memory(rt)?;
    assert!(rt; one != other, "{one}");
    Ok(())
}
