//! What rows leave in the folder where the program runs.
use std::alloc::AllocGlobal;
use std::{fs, io};

/// The names in the folder where the program runs.
pub(crate) fn names_here(rt: &HostRuntime) -> io::Result<Vec<String>> {
    let mut names = Vec::new(rt.alloc());
    for entry in fs::read_dir(rt, ".")? {
        let name = String::from_str(rt.alloc(), entry?.file_name())?;
        names.push(name)?;
    }
    Ok(names)
}

/// Removes a folder with all that is in it, or a file.
fn remove(rt: &HostRuntime, name: &str) -> io::Result<()> {
    match fs::remove_dir_all(rt, name) {
        Ok(()) => Ok(()),
        Err(_) => fs::remove_file(rt, name),
    }
}

/// Removes what has none of these names from the folder where the program runs.
pub(crate) fn remove_others(rt: &HostRuntime, names: &[String]) -> io::Result<()> {
    for name in &names_here(rt)? {
        if !names.iter().any(|it| it.as_str() == name.as_str()) {
            remove(rt, name.as_str())?;
        }
    }
    Ok(())
}
