//! What is done about buckets with lines that this crate can't read.
ghost use Rattle.std.specs.Prelude.{IfErr, OnOk};
ghost use Rattle.cacache_keep.specs.Checking.{Allows, RefusesOdd};

use cacache_calls::Refusal;
use cacache_core::errors::{Fault, Result};
use cacache_core::text::Text;
use cacache_jobs::refused;
use std::alloc::{AllocError, Global};

/// What a collection or a repair does about odd lines in a cache's index. A line is odd if it has the right digest of its
/// text and this crate can't read it, such as an entry with `0.5` in its metadata: another reader may read it.
#[derive(Clone, Copy, Debug)]
pub enum OddLines {
    /// It ends with an error that names the bucket, before it changes anything.
    Refuse,
    /// It goes on as if no odd line were there: a content that only such a line names counts as one that no entry has,
    /// and a tombstone may come after such a line.
    Ignore,
}

/// The bucket has an odd line.
fn unknown(alloc: Global, path: &Text) -> std::result::Result<Text, AllocError> {
    Ok(Text::new(format!(in alloc; "Bucket {path} has a line that can't be read here")?))
}

/// Makes sure that there is no bucket with an odd line, if odd lines are refused. The error names the first.
pub(crate) fn check(alloc: Global, choice: OddLines, odd: &[Text]) -> Result<()>
    ensures allows { OnOk result (Allows choice odd.now) }
    ensures refuses { IfErr result (RefusesOdd choice odd.now) }
{
    match choice {
        OddLines::Refuse => match odd.first() {
            Some(path) => {
                let refusal = Refusal::Fault(Fault::Unsupported);
                Err(refused(refusal, unknown(alloc, path)))
            }
            None => Ok(()),
        },
        OddLines::Ignore => Ok(()),
    }
}
