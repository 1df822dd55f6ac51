//! Work that is done with a temporary file.
ghost use Rattle.std.specs.Prelude.{◌≡◌, length};
ghost use Rattle.cacache_polled.specs.declared.kinds.Work.TheVariants.{Write};
ghost use Rattle.cacache_writers.specs.Turning.{Appended, Answered, DoesWork, EndsWork, FitsWork, WorksBy};

use crate::kept::Told;
use crate::removal::RemovableTemp;
use cacache_core::bytes::Bytes;
use cacache_core::errors::Fault;
use cacache_polled::{Completion, Work};
use cacache_store::store::TempFile;

/// Writes some of these bytes to the file.
fn write_piece<T: TempFile>(file: &mut T, bytes: &Bytes) -> Completion
    ensures fits { FitsWork (Write bytes.now) result }
    ensures does { Appended (T.seen file.old).bytes (T.seen file.new).bytes bytes.now result }
    ensures answered { Answered T.writes file.old (length bytes.now) file.new result }
{
    match file.write_some(bytes.as_slice()) {
        Ok(count) => Completion::Wrote(count),
        Err(error) => Completion::Failed(Fault::from(error.kind())),
    }
}

/// Does the work with the file, and says how it ended.
fn do_work<T: RemovableTemp>(work: Work, temp: T) -> (Option<T>, Completion)
    ensures fits { FitsWork work result.1 }
    ensures does { DoesWork T.seen T.contents T.writes T.removes work temp result.0 result.1 }
{
    let mut file = temp;
    match work {
        Work::Write(bytes) => {
            let completion = write_piece(&mut file, &bytes);
            (Some(file), completion)
        }
        Work::Flush => match file.flush() {
            Ok(()) => (Some(file), Completion::Flushed),
            Err(error) => (Some(file), Completion::Failed(Fault::from(error.kind()))),
        },
        Work::Remove => match file.remove() {
            Ok(()) => (None, Completion::Removed),
            Err(fault) => (None, Completion::Failed(fault)),
        },
    }
}

/// Does the work with the file that went out with it. Without a file it fails with `Closed`.
fn done<T: RemovableTemp>(work: Work, temp: Option<T>) -> (Option<T>, Completion)
    ensures ends { EndsWork T.seen T.contents T.writes T.removes work temp result.0 result.1 }
{
    match temp {
        Some(file) => do_work(work, file),
        None => (None, Completion::Failed(Fault::Closed)),
    }
}

/// Work that was taken, and its file.
pub(crate) type Taken<T> = (Option<Work>, Option<T>);

/// Takes work out, does it, and reports how it ended. None if no work was out.
pub(crate) fn work_by<
    T: RemovableTemp,
    Take: FnOnce() -> Taken<T>,
    End: FnOnce(Option<T>, Completion) -> Told<T>,
>(take: Take, end: End) -> Option<Told<T>>
    requires take { Take.IsAlwaysCallable take }
    requires end { End.IsAlwaysCallable end }
    ensures works { WorksBy T.seen T.contents T.writes T.removes (Take.post take) (End.post end)
        result }
{
    let (work, temp) = take();
    match work {
        Some(work) => {
            let (temp, completion) = done(work, temp);
            Some(end(temp, completion))
        }
        None => None,
    }
}
