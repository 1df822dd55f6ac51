//! Integrities.
use crate::calls::printed;
use anyhow::Result;
use cacache::Integrity;

/// The integrity of a text.
pub(crate) fn parse(rt: HostRuntime) -> Result<String> {
    let alloc = rt.alloc();
    let sri = Integrity::parse(alloc, "sha1-qvTGHdzF6KLavt4PO0gs2a6pQ00=")?;
    let algorithm = sri.pick_algorithm(); // Algorithm::Sha1
    printed(alloc, algorithm)
}

/// Whether bytes meet an integrity.
pub(crate) fn check(rt: HostRuntime) -> Result<String> {
    let alloc = rt.alloc();
    let sri = Integrity::from(alloc, b"hello")?;
    let algorithm = sri.check(alloc, b"hello")?; // Algorithm::Sha256
    printed(alloc, algorithm)
}
