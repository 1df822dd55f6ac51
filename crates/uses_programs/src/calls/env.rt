//! Environments.
use crate::calls::shown;
use anyhow::Result;

/// The environment of real folders; it touches none of them.
pub(crate) fn folders(rt: HostRuntime) -> Result<String> {
    let env = cacache::env::folders(rt, "/home/me")?;
    let base = env.base.as_str(); // "/home/me"
    shown(rt.alloc(), base.as_bytes())
}

/// A second one of the same folders.
pub(crate) fn another(rt: HostRuntime) -> Result<String> {
    let env = cacache::env::folders(rt, "/home/me")?;
    let other = cacache::env::another(&env)?;
    let base = other.base.as_str(); // "/home/me"
    shown(rt.alloc(), base.as_bytes())
}

/// The environment of a disk in memory.
pub(crate) fn memory(rt: HostRuntime) -> Result<String> {
    let mut env = cacache::env::memory(rt, "/")?;
    cacache::write_sync(&mut env, "my-cache", "key", b"my data")?;
    let bytes = cacache::read_sync(&mut env, "my-cache", "key")?; // b"my data"
    shown(rt.alloc(), &bytes)
}
