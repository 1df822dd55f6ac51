//! Laws on one bucket's file, which many processes append to and read, on functions that do nothing.
ghost use Rattle.cacache_system_model.specs.bucket.{Calls.{AppendsWriteOnce, LookupsSeeAnswered, LookupsSeeMoments, ReadsGoToEnd}, Cases.{TornReadsHappen}, Moments.{AnsweredAreRead, BeginningsAreMoments, CompletedWereStarted, EntriesAreWhole, LaterReadsHaveMore, ReadBegins, ReadsAreMoments}, Names.{NamedAnsweredAreRead, NamedReadsAreMoments}, Steps.{ReadsAreOfDisk, StepsLeaveFile, WholeAreOfSteps, WritesAreAppends}};

/// What lookups read of a bucket while other processes append to it and may be killed, whatever bytes it had at first.
///
/// The entries are those that are whole at a moment between the lookup's opening and its last read. Each entry with an
/// append that answered before the lookup began is among them. This is proved of files on which appends exclude each other,
/// and which show their bytes in order and keep them.
pub fn bucket_file_laws()
    ensures moments { LookupsSeeMoments }
    ensures answered { LookupsSeeAnswered }
    ensures writes { AppendsWriteOnce }
    ensures reads { ReadsGoToEnd }
{}

/// What readers read of a bucket's file, in terms of what happens to it: which entries become whole, and in which order.
pub fn bucket_event_laws()
    ensures whole { EntriesAreWhole }
    ensures started { CompletedWereStarted }
    ensures begins { ReadBegins }
    ensures moments { ReadsAreMoments }
    ensures beginnings { BeginningsAreMoments }
    ensures later { LaterReadsHaveMore }
    ensures answered { AnsweredAreRead }
{}

/// What readers read of a bucket that is removed and made anew meanwhile.
///
/// It is what the file that they opened has at a moment. It has the entry of each append that answered before, if nobody
/// removed the bucket between the append's opening and the reader's.
pub fn bucket_name_laws()
    ensures moments { NamedReadsAreMoments }
    ensures answered { NamedAnsweredAreRead }
{}

/// The writes of a bucket's file are `Append` steps of a disk, one after another. Each read is a `ReadAll` after some of them.
pub fn bucket_step_laws()
    ensures appends { WritesAreAppends }
    ensures acts { WholeAreOfSteps }
    ensures disk { StepsLeaveFile }
    ensures reads { ReadsAreOfDisk }
{}

/// A single case: an append of an entry's line, and a read that ends within the line.
pub fn bucket_file_cases()
    ensures { TornReadsHappen }
{}
