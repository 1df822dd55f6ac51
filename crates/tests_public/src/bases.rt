//! Environments of real folders, and their base folder.
use cacache::env::folders;
use cacache_core::keeping::let_go;
use std::fs;

#[test]
fn an_environment_of_folders_makes_no_folder(rt: HostRuntime) -> cacache::Result<()> {
    let env = folders(rt, "no-such-base")?;
    let_go(env);
    assert!(rt; fs::metadata(&rt, "no-such-base").is_err());
    Ok(())
}
