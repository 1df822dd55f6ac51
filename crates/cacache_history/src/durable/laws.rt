//! The law of durable commits, on a function that does nothing.
ghost use Rattle.cacache_history.specs.durable.Outlasting.{HistoriesOutlive};

/// What a durable commit of a legal history stored is there after each later loss of power, while others remove, link
/// and export nothing.
///
/// After its entry come the first of those that the history added there, if the loss names no tail of the bucket;
/// none come if nobody appended there after it.
pub fn durable_laws()
    ensures { HistoriesOutlive }
{}
