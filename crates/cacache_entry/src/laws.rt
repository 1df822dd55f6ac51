//! The laws of entries, buckets and lookups. Each function here does nothing: its clauses are the laws.
ghost use Rattle.cacache_entry.specs.EntryLaws.{NoCauseIsFit, FlatEntriesFit, BareEntriesFit, EmptyHoldsNothing, EntriesSplit, LinesAppend, TornTextsReadAsNothing, TornLinesAddNothing, TornLinesHurtNoOther, LastAnswerDecides, NoAnswerIsNone, LastLineIsEnough};

/// Which entries can be written.
pub fn entry_laws()
    ensures no_cause { NoCauseIsFit }
    ensures flat { FlatEntriesFit }
    ensures bare { BareEntriesFit }
{}

/// What lines and their beginnings add to the bytes of a bucket.
pub fn bucket_laws()
    ensures empty { EmptyHoldsNothing }
    ensures split { EntriesSplit }
    ensures appends { LinesAppend }
    ensures torn_text { TornTextsReadAsNothing }
    ensures torn { TornLinesAddNothing }
    ensures hurts_no_other { TornLinesHurtNoOther }
{}

/// What a lookup finds, and how much of the bucket it reads.
pub fn lookup_laws()
    ensures last_decides { LastAnswerDecides }
    ensures no_answer { NoAnswerIsNone }
    ensures last_line { LastLineIsEnough }
{}
