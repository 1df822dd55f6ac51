//! What a `Get` answers on the disk that a loss left.
use crate::losses::history::HOME;
use cacache_calls::{Command, Reply};
use cacache_core::keeping::let_go;
use cacache_core::text::Text;
use cacache_disk::Disk;
use cacache_disk::memory::MemStore;
use cacache_jobs::{Job, drive};
use rows::Flaw;
use rows::answers::{given, shown_error};
use rows::words::{word_of, written_out};
use std::alloc::{AllocError, Global};

/// The line on the reply to a `Get`: its bytes, or its error without a path.
fn replied(alloc: Global, reply: &Reply) -> Result<String, AllocError> {
    match reply {
        Reply::Read(bytes) => format!(in alloc; "gets {}", word_of(bytes.as_slice())),
        Reply::Refused(error) => written_out(alloc, shown_error(alloc, error)?.as_str()),
        _ => String::from_str(alloc, "another reply"),
    }
}

/// What a `Get` of the key `a` answers in a store.
fn got(alloc: Global, store: &mut MemStore) -> Result<String, AllocError> {
    let key = Text::from_str(alloc, "a")?;
    let job = Job::try_new(alloc, HOME, "/", Command::Get(key), 0)?;
    let reply = drive(store, job);
    let line = replied(alloc, &reply);
    let_go(reply);
    line
}

/// What a `Get` of the key `a` answers in a store that begins with this disk.
pub(crate) fn got_from(alloc: Global, disk: &Disk) -> Result<String, Flaw> {
    let mut store = given(MemStore::of(alloc, disk))?;
    Ok(got(alloc, &mut store)?)
}
