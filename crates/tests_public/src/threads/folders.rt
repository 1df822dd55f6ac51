//! Eight threads at one real folder, each with an environment of its own, and writers with like environments.
use cacache::env::{Env, FolderWriter, Folders, ProcessNames, SystemClock, folders};
use cacache::store::FolderStore;
use cacache::{Result, SyncWriter};
use cacache_core::keeping::{beside, let_go};
use std::alloc::{AllocError, Global};
use std::env::temp_dir;
use std::rt::HostRuntime;
use std::test::Fail;
use std::thread::Threads;
use std::{fs, io, thread};

/// How many threads there are, and how many keys each has.
const THREADS: usize = 8;

const KEYS: usize = 1000;

/// How many keys a thread writes for each write of the common one.
const ROUND: usize = 100;

/// The key that each thread writes and reads.
const COMMON: &str = "common";

/// How many writers are open at once.
const WRITERS: usize = 320;

/// A folder of the system that is in memory: thousands of files would take a disk too long.
const MEMORY: &str = "/dev/shm";

/// Makes a folder that nothing else uses.
fn fresh_below(rt: HostRuntime, base: &str, name: &str) -> io::Result<String> {
    let number = std::process::id(rt.process());
    let root = format!(in rt.alloc(); "{base}/tests_public-{name}-{number}")?;
    let (_, root) = beside(fs::create_dir(&rt, root.as_str()), root)?;
    Ok(root)
}

/// Removes a folder and all below.
fn remove(rt: HostRuntime, root: String) -> io::Result<()> {
    fs::remove_dir_all(&rt, root.as_str())
}

/// A fresh folder, in memory if the system has such a one, and otherwise with other temporary files.
fn fresh_folder(rt: HostRuntime, name: &str) -> io::Result<String> {
    match fresh_below(rt, MEMORY, name) {
        Ok(root) => Ok(root),
        Err(error) => {
            let_go(error);
            fresh_below(rt, temp_dir(&rt)?.as_str(), name)
        }
    }
}

/// A thread's key, and its content.
fn text_of(alloc: Global, thread: usize, key: usize) -> std::result::Result<String, AllocError> {
    format!(in alloc; "t{thread}k{key}")
}

/// A key's content.
fn read(env: &mut Folders, cache: &str, key: &str) -> Result<Vec<u8>> {
    cacache::read_sync(env, cache, key)
}

/// Whether a key's content is this text.
fn holds(env: &mut Folders, cache: &str, key: &str, text: &str) -> Result<bool> {
    let bytes = read(env, cache, key)?;
    Ok(bytes.as_slice() == text.as_bytes())
}

/// Whether the common key's content is one of those that threads write there, if it can be read.
fn is_common(env: &mut Folders, cache: &str) -> bool {
    match read(env, cache, COMMON) {
        Ok(bytes) => match bytes.as_slice() {
            [b't', b'0'..=b'7', b'k', key @ ..] => key.iter().all(|byte| byte.is_ascii_digit()),
            _ => false,
        },
        Err(error) => {
            let_go(error);
            true
        }
    }
}

/// Writes a key of the thread, and at each round's beginning the common key with the same text. Whether the common key had
/// a right content then.
fn write(env: &mut Folders, cache: &str, text: &str, key: usize) -> Result<bool> {
    cacache::write_sync(env, cache, text, text.as_bytes())?;
    if key % ROUND != 0 {
        return Ok(true);
    }
    cacache::write_sync(env, cache, COMMON, text.as_bytes())?;
    Ok(is_common(env, cache))
}

/// One thread's work: whether each write was acknowledged, and each read had right bytes.
fn works(env: &mut Folders, cache: &str, thread: usize) -> Result<bool> {
    for key in 0..KEYS {
        let text = text_of(env.alloc, thread, key)?;
        if !write(env, cache, text.as_str(), key)? {
            return Ok(false);
        }
    }
    Ok(true)
}

/// One thread's work at the cache, in an environment of its own.
fn works_at(rt: HostRuntime, cache: &str, thread: usize) -> bool {
    match folders(rt, ".") {
        Ok(mut env) => works(&mut env, cache, thread).unwrap_or(false),
        Err(error) => {
            let_go(error);
            false
        }
    }
}

/// Whether a thread's keys are all there.
fn are_there(env: &mut Folders, cache: &str, thread: usize) -> Result<bool> {
    for key in 0..KEYS {
        let text = text_of(env.alloc, thread, key)?;
        if !holds(env, cache, text.as_str(), text.as_str())? {
            return Ok(false);
        }
    }
    Ok(true)
}

/// Whether the common key can be read, and has one of the threads' texts.
fn common_is_there(env: &mut Folders, cache: &str) -> Result<bool> {
    let bytes = read(env, cache, COMMON)?;
    Ok(bytes.len() > 3 && is_common(env, cache))
}

/// Whether all threads' keys are there, and one of their texts under the common key.
fn all_are_there(env: &mut Folders, cache: &str) -> Result<bool> {
    for thread in 0..THREADS {
        if !are_there(env, cache, thread)? {
            return Ok(false);
        }
    }
    common_is_there(env, cache)
}

/// Whether all threads' keys are there, by an environment of its own.
fn is_whole(rt: HostRuntime, cache: &str) -> Result<bool> {
    let mut env = folders(rt, ".")?;
    all_are_there(&mut env, cache)
}

/// Whether each thread did its work.
fn together<R: Threads + Sync>(
    rt: &R,
    host: HostRuntime,
    cache: &str,
) -> std::result::Result<bool, AllocError> {
    let all = thread::map_indices(rt, host.alloc(), THREADS, &|i| works_at(host, cache, i))?;
    Ok(all.iter().all(|is_well| *is_well))
}

#[test]
fn eight_threads_share_a_folder(rt: HostRuntime) -> std::result::Result<(), Fail> {
    let cache = fresh_folder(rt, "shared")?;
    let (is_well, cache) = beside(together(&rt, rt, cache.as_str()), cache)?;
    let is_whole = is_whole(rt, cache.as_str()).unwrap_or(false);
    remove(rt, cache)?;
    assert!(rt; is_well);
    assert!(rt; is_whole);
    Ok(())
}

/// A writer in an environment of its own, of a process that has the same number as all others and began at the same time.
fn writer(rt: HostRuntime, cache: &str) -> Result<FolderWriter> {
    let names = ProcessNames::random(&rt, 1, 1);
    let store = FolderStore::new(rt);
    let mut env = Env::new(rt.alloc(), store, SystemClock::new(rt), names, ".")?;
    SyncWriter::create(&mut env, cache, "key")
}

/// So many writers.
fn all_writers(rt: HostRuntime, cache: &str) -> Result<Vec<FolderWriter>> {
    let mut writers = Vec::new(rt.alloc());
    for _ in 0..WRITERS {
        writers.push(writer(rt, cache)?)?;
    }
    Ok(writers)
}

/// How many temporary files lie there while so many writers are open, and once they are dropped.
fn temps_of(rt: HostRuntime, cache: &str) -> Result<(usize, usize)> {
    let mut writers = all_writers(rt, cache)?;
    let open = count_below(rt, cache);
    writers.clear();
    Ok((open, count_below(rt, cache)))
}

/// How many files are in the folder of temporary files.
fn count_below(rt: HostRuntime, cache: &str) -> usize {
    let Ok(path) = format!(in rt.alloc(); "{cache}/tmp") else {
        return 0;
    };
    match fs::read_dir(&rt, path.as_str()) {
        Ok(names) => names.count(),
        Err(error) => {
            let_go(error);
            0
        }
    }
}

#[test]
fn like_environments_share_no_number(rt: HostRuntime) -> std::result::Result<(), Fail> {
    let cache = fresh_folder(rt, "like")?;
    let temps = temps_of(rt, cache.as_str());
    let (_, temps) = beside(remove(rt, cache), temps)?;
    assert_eq!(rt; temps?, (WRITERS, 0));
    Ok(())
}
