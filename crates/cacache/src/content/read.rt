//! What contents there are, what is there of one, its bytes at once or in pieces, and its exports.
ghost use Rattle.std.specs.Prelude.{◌≡◌, IfOk, IfErr, map, string_bytes};
ghost use Rattle.cacache_walks.specs.Listing.{AnswersContents, IsByBytes, IsByHash, StopsListing};

pub use cacache_async::exports::{
    CopyHashFuture as CopyAsyncFuture, CopyHashUncheckedFuture as CopyUncheckedAsyncFuture,
    HardLinkHashFuture as HardLinkAsyncFuture, ReflinkHashFuture as ReflinkAsyncFuture,
    copy_hash as copy_async, copy_hash_unchecked as copy_unchecked_async,
    hard_link_hash as hard_link_async, reflink_hash as reflink_async,
};
pub use cacache_async::read::{
    HasContentAsyncFuture, ReadHashFuture as ReadAsyncFuture, has_content_async,
    read_hash as read_async,
};
pub use cacache_async::reader::{OpenAsyncFuture, Reader as AsyncReader, open_async};
use cacache_core::errors::Result;
use cacache_store::env::{Clock, Env, Names};
use cacache_store::store::Store;
pub use cacache_sync::content::reader::{SyncReader as Reader, open};
pub use cacache_sync::{
    copy_hash_sync as copy, copy_hash_unchecked_sync as copy_unchecked,
    hard_link_hash_sync as hard_link, hard_link_hash_unchecked_sync as hard_link_unchecked,
    has_content, read_hash_sync as read, reflink_hash_sync as reflink,
    reflink_hash_unchecked_sync as reflink_unchecked,
};
pub use cacache_walks::Contents;

/// The addresses of a cache's contents, and the paths of all other files and links below its folder
/// of contents. A missing folder counts as empty. Folders are read, contents aren't: a path alone
/// shows which content it belongs to. Nothing changes.
///
/// `IoError` has the fault of a folder that couldn't be read. It has `TooDeep` if a folder is more
/// than sixteen levels below the folder of contents, or if there are more than 2^63 names.
/// `OutOfMemory` is the only other error. The clock and the numbers aren't used.
pub fn list<S: Store, C: Clock, N: Names>(env: &mut Env<S, C, N>, cache: &str) -> Result<Contents>
    ensures lists { IfOk result
        (λ c. AnswersContents cache.now c (S.log env.old.store) (S.log env.new.store)) }
    ensures by_hash { IfOk result (λ c. IsByHash c.addresses.items) }
    ensures by_bytes { IfOk result (λ c. IsByBytes (map string_bytes c.strange.items)) }
    ensures stops { IfErr result
        (λ e. StopsListing cache.now e (S.log env.old.store) (S.log env.new.store)) }
    ensures clock { env.new.clock ≡ env.old.clock }
    ensures names { env.new.names ≡ env.old.names }
    ensures base { env.new.base ≡ env.old.base }
{
    let answer = cacache_walks::list(env, cache);
    env.store.end_walks();
    answer
}
