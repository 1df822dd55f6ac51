//! Commits contents from a temporary file that already has their bytes.
ghost use Rattle.std.specs.Prelude.{◌≡◌};
ghost use Rattle.cacache_core.specs.declared.errors.Error.TheVariants.{OutOfMemory};
ghost use Rattle.cacache_calls.specs.{Sound.{FormsCommit}, Promises.{OnlyStores, Stores}, Runs.{Ran, plain_reply}, Storing.{persist}, declared.reply.Reply.TheVariants.{Refused}};

use crate::run::go_on;
use crate::storing::begin_commit;
use cacache_calls::{Commit, Reply, form_commit};
use cacache_store::env::Env;
use cacache_store::store::Store;

/// Makes the temporary file the content that the commit describes, and finishes the commit. The reply is that of a run of
/// the call from there on. If the store keeps its log, the log gained exactly that run. The commit's entry is well-formed,
/// if it has one that can be written. The clock, the numbers and the base folder stay as they were.
pub fn commit_from<S: Store, C, N>(env: &mut Env<S, C, N>, commit: Commit, file: S::Temp) -> Reply
    ensures ran { Ran (persist commit (S.Temp.seen file))
        (plain_reply result) (S.log env.old.store) (S.log env.new.store) }
    ensures promised { Stores commit (plain_reply result) }
    ensures stored { OnlyStores (plain_reply result) }
    ensures formed { FormsCommit commit }

    // A caller that has no memory left for the reply answers as if the run had run out of memory.
    ensures lost { Ran (persist commit (S.Temp.seen file))
        (Refused OutOfMemory) (S.log env.old.store) (S.log env.new.store) }
    ensures clock { env.new.clock ≡ env.old.clock }
    ensures names { env.new.names ≡ env.old.names }
    ensures base { env.new.base ≡ env.old.base }
{
    form_commit(&commit);
    let phase = begin_commit(env.alloc, commit, file);
    go_on(&mut env.store, env.alloc, phase)
}
