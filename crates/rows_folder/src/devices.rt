//! The devices that the system's files lie on.
use cacache_system::{Host, System};
use std::io;

/// The number of the device on which a path lies.
fn device_of(rt: HostRuntime, path: &str) -> io::Result<u64> {
    let mut host = Host::new(rt);
    Ok(host.stat(path)?.device)
}

/// Whether the folder of processes lies on another device than the top folder.
pub(crate) fn devices_differ(rt: HostRuntime) -> io::Result<bool> {
    let processes = device_of(rt, "/proc")?;
    Ok(processes != device_of(rt, "/")?)
}
