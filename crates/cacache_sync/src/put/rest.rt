//! The rest of a target, which a commit reads.
ghost use Rattle.cacache_sync.specs.put.OpenLinkers.{ReadsOn};

use cacache_calls::answers::{Got, got_of};
use cacache_core::errors::{Error, Result};
use cacache_core::hasher::Hasher;
use cacache_jobs::{PIECE, messages, refused};
use cacache_store::store::{Step, Store};
use std::alloc::Global;

/// Reads the target to its end after so many bytes that were read before, hashes it, and answers how many it has.
pub(crate) fn read_rest<S: Store>(
    alloc: Global,
    store: &mut S,
    file: S::File,
    hasher: &mut Hasher,
    before: usize,
) -> Result<usize>
    ensures { ReadsOn before (S.File.seen file) hasher.old hasher.new result
        (S.log store.old) (S.log store.new) }
{
    let mut file = file;
    let mut count = before;
    'pieces: loop {
        let got = match got_of(store.step(Step::Read(file, PIECE))) {
            Ok(got) => got,
            Err(refusal) => return Err(refused(refusal, messages::reading_target(alloc))),
        };
        let Got { file: next, bytes } = got;
        if bytes.is_empty() {
            return Ok(count);
        }
        // a longer file has no size that could be given
        let Some(more) = count.checked_add(bytes.len()) else {
            return Err(Error::OutOfMemory);
        };
        hasher.update(bytes.as_slice());
        count = more;
        file = next;
    }
}
