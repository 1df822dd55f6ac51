//! The laws of the cache's value, each on a function that does nothing.
ghost use Rattle.std.specs.Prelude.{List, ℕ};
ghost use Rattle.cacache_value.specs.{ValueLaws.{StepsKeepPlaced, StepsAct, StepsKeepRooted, TreesShow, WholeLinesAdd, TornLinesAddNone, NothingLeftIsNothing, TracesAct, TracesShow, BucketsGrow, FilesOpen}, Kinds.{PathsAreFor, FoldersAreWays}};

/// A step that a call may make changes what the cache holds by its act, and leaves a tree on which
/// the next one can be made. On each such tree reading steps show what the cache holds.
pub fn step_laws()
    ensures placed { StepsKeepPlaced }
    ensures acts { StepsAct }
    ensures rooted { StepsKeepRooted }
    ensures shows { TreesShow }
{}

/// An append of an entry's line adds the entry if all of the line was left, otherwise no entry.
pub fn append_laws()
    ensures whole { WholeLinesAdd }
    ensures torn { TornLinesAddNone }
    ensures nothing { NothingLeftIsNothing }
{}

/// After any steps the cache holds what their acts make, reading steps show it, and buckets only
/// grow.
pub fn trace_laws()
    ensures acts { TracesAct }
    ensures shows { TracesShow }
    ensures buckets_grow { BucketsGrow }
{}

/// Outside files alone hold nothing of the cache.
pub fn opening_laws()
    ensures { FilesOpen }
{}

/// The paths of contents, buckets and temporary files are for what they should be, and so are their
/// folders.
pub fn path_kind_laws()
    ensures kinds { (cache : List ℕ) → PathsAreFor cache }
    ensures folders { (cache : List ℕ) → FoldersAreWays cache }
{}
