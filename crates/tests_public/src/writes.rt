//! A writer over a store that takes at most three bytes a write to its temporary file, and interrupts every other
//! one.
use cacache::{Integrity, WriteOpts};
use cacache_core::keeping::{beside, let_go};
use row_places::{Faulty, Mishaps, On, on};
use std::alloc::{AllocError, Global};
use std::io::Write;
use std::test::Fail;

/// An environment over such a store.
fn short(alloc: Global) -> Result<On<Faulty>, AllocError> {
    let mishaps = Mishaps {
        most: 3,
        interrupts: true,
        ..Mishaps::NONE
    };
    on(alloc, Faulty::new(alloc, mishaps)?, ".")
}

/// The value, or what wasn't done.
fn done<T, E: Drop>(tried: Result<T, E>, not_done: &'static str) -> Result<T, &'static str> {
    match tried {
        Ok(value) => Ok(value),
        Err(error) => {
            let_go(error);
            Err(not_done)
        }
    }
}

/// The answer to a commit of `hello world`, or what wasn't done.
fn committed(env: &mut On<Faulty>) -> Result<Integrity, &'static str> {
    let opened = WriteOpts::new().size(11).open_hash_sync(env, "c");
    let mut writer = done(opened, "not opened")?;
    let written = done(writer.write_all(b"hello "), "not written");
    let (_, writer) = beside(written, writer)?;
    let writer = done(writer.write_or_abandon(env, b"world"), "abandoned")?;
    done(writer.commit(env), "not committed")
}

/// The answer, and what the store keeps then.
fn told(env: &mut On<Faulty>) -> Result<String, AllocError> {
    let alloc = env.alloc;
    let answer = committed(env);
    let store = &env.store;
    match &answer {
        Ok(integrity) => {
            format!(in alloc; "{integrity} {} {:?}", store.path, store.kept.as_slice())
        }
        Err(not_done) => String::from_str(alloc, not_done),
    }
}

/// The answer to a short write in an environment of its own, and what the store keeps then.
fn told_of_short(alloc: Global) -> Result<String, AllocError> {
    let mut env = short(alloc)?;
    told(&mut env)
}

#[test]
fn short_writes_make_the_whole_content(rt: HostRuntime) -> Result<(), Fail> {
    let line = told_of_short(rt.alloc())?;
    assert_eq!(rt;
        line.as_str(),
        "sha256-uU0nuZNNPgilLlLX2n2r+sSE7+N6U4DukIj3rOLvzek= c/content-v2/sha256/b9/4d/27b9934d3e08a52e52d7da7dabfac484efe37a5380ee9088f7ace2efcde9 [104, 101, 108, 108, 111, 32, 119, 111, 114, 108, 100]"
    );
    Ok(())
}
