//! What somebody else does with files and folders, apart from the calls, and looks at them.
use crate::place::On;
use cacache_core::bytes::Bytes;
use cacache_core::keeping::let_go;
use cacache_core::text::Text;
use cacache_store::store::{Answer, Step, Store};
use std::alloc::{AllocError, Global};

/// Whether the store answered a step with `Done`.
fn is_done<F, T>(answer: &Answer<F, T>) -> bool {
    matches!(answer, Answer::Done)
}

/// Does a step, and says whether it was done.
fn does<S: Store>(env: &mut On<S>, step: Step<S::File, S::Temp>) -> bool {
    let answer = env.store.step(step);
    let is_done = is_done(&answer);
    let_go(answer);
    is_done
}

/// Makes the folder with all above it.
pub fn make_folder<S: Store>(env: &mut On<S>, path: &str) -> Result<bool, AllocError> {
    let path = Text::from_str(env.alloc, path)?;
    Ok(does(env, Step::MakeDirs(path)))
}

/// Removes the file.
pub fn remove_file<S: Store>(env: &mut On<S>, path: &str) -> Result<bool, AllocError> {
    let path = Text::from_str(env.alloc, path)?;
    Ok(does(env, Step::RemoveFile(path)))
}

/// A copy of these bytes.
fn copy_of(alloc: Global, bytes: &[u8]) -> Result<Bytes, AllocError> {
    Bytes::new(alloc, Vec::from_slice(alloc, bytes)?)
}

/// Whether the store took so many bytes.
fn took<F, T>(answer: &Answer<F, T>, count: usize) -> bool {
    matches!(answer, Answer::Took(taken) if *taken == count)
}

/// Puts these bytes at the end of the file, and says whether all were taken.
fn append<S: Store>(env: &mut On<S>, path: &str, bytes: &[u8]) -> Result<bool, AllocError> {
    let path = Text::from_str(env.alloc, path)?;
    let copy = copy_of(env.alloc, bytes)?;
    let answer = env.store.step(Step::Append(path, copy));
    let is_whole = took(&answer, bytes.len());
    let_go(answer);
    Ok(is_whole)
}

/// Makes the folders above the path, and removes the file there, if there is one. Says whether the folders are there.
fn make_way<S: Store>(env: &mut On<S>, path: &str) -> Result<bool, AllocError> {
    if let Some((folder, _)) = path.rsplit_once('/') {
        if !folder.is_empty() && !make_folder(env, folder)? {
            return Ok(false);
        }
    }
    let _was_there = remove_file(env, path)?;
    Ok(true)
}

/// Makes the file anew with these bytes, and the folders above it.
pub fn plant<S: Store>(env: &mut On<S>, path: &str, bytes: &[u8]) -> Result<bool, AllocError> {
    if !make_way(env, path)? {
        return Ok(false);
    }
    append(env, path, bytes)
}

/// Makes a link to the target in place of the file, and the folders above it.
pub fn plant_link<S: Store>(env: &mut On<S>, target: &str, path: &str) -> Result<bool, AllocError> {
    if !make_way(env, path)? {
        return Ok(false);
    }
    make_link(env, target, path)
}

/// Makes a link to the target, if nothing is in its way.
pub fn make_link<S: Store>(env: &mut On<S>, target: &str, path: &str) -> Result<bool, AllocError> {
    let alloc = env.alloc;
    let target = Text::from_str(alloc, target)?;
    let path = Text::from_str(alloc, path)?;
    Ok(does(env, Step::Symlink(target, path)))
}

/// The bytes of an answer to a whole read.
fn bytes_of<F, T>(alloc: Global, answer: &Answer<F, T>) -> Result<Option<Vec<u8>>, AllocError> {
    match answer {
        Answer::Bytes(bytes) => Ok(Some(Vec::from_slice(alloc, bytes.as_slice())?)),
        _ => Ok(None),
    }
}

/// What the file holds, if it can be read.
pub fn held<S: Store>(env: &mut On<S>, path: &str) -> Result<Option<Vec<u8>>, AllocError> {
    let alloc = env.alloc;
    let path = Text::from_str(alloc, path)?;
    let answer = env.store.step(Step::ReadAll(path));
    let bytes = bytes_of(alloc, &answer);
    let_go(answer);
    bytes
}

/// How many names an answer to a folder's reading has.
fn count_of<F, T>(answer: &Answer<F, T>) -> Option<usize> {
    match answer {
        Answer::Names(names) => Some(names.as_slice().len()),
        _ => None,
    }
}

/// How many names the folder has, if it can be read.
pub fn names_in<S: Store>(env: &mut On<S>, path: &str) -> Result<Option<usize>, AllocError> {
    let path = Text::from_str(env.alloc, path)?;
    let answer = env.store.step(Step::ReadDir(path));
    let count = count_of(&answer);
    let_go(answer);
    Ok(count)
}
