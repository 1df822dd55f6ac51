//! Callers' store steps, made by system calls on one machine, as a history of many callers.
ghost use Rattle.cacache_system_model.specs.callers.{Example.{ClearsCanBe, ClearsCanRemove, QuestionsCanBe}, Losing.{SeenLose, StoringLose}, Made.{CachesBegin, CachesGoOn, SystemsMakeHistories}, Numbers.{NumbersDiffer}, Opened.{RunsKeepOpen}, Seen.{SeenMakeHistories}, Storing.{StoringMakeHistories}};

/// What callers do on one machine goes on with the legal history that left its cache, with their replies, if the system
/// calls of each store step follow one another. The history's last tree mirrors the machine's. If a step failed and ended
/// its call, the caller may be recorded as giving the call up.
///
/// - `begin`: a machine that holds only the outside files has a cache without a past.
/// - `goes_on`: once no call is on its way, what acts left is a cache for further acts.
/// - `made` is about any commands, and asks of each step what the step's law asks.
/// - `storing` derives most of that. It asks that the steps' temporary files are open and hold what the calls' states say.
/// - `seen` doesn't ask that: it is about callers as the contracts of their stores see them, whose files are numbers and
///   paths. A clear removes no temporary file of a call that is on its way.
/// - `keep`: the system calls of a step of these calls keep open files open.
/// - `losses` is about the acts of `seen`, and `storing_losses` about those of `storing`, if all is fixed at first, none copies
///   a file, and no sync failed: a loss of power leaves of the machine what it leaves of the history.
/// - `numbers`: acts of calls with any numbers that differ are acts of `seen`, once all calls begin before any step.
/// - `example`: what `seen` asks can be met; `clears`: also by a clear of an empty cache; `removals`: also by each removal of a
///   clear, if no other call is on its way.
pub fn system_history_laws()
    ensures begin { CachesBegin }
    ensures goes_on { CachesGoOn }
    ensures made { SystemsMakeHistories }
    ensures storing { StoringMakeHistories }
    ensures seen { SeenMakeHistories }
    ensures keep { RunsKeepOpen }
    ensures example { QuestionsCanBe }
    ensures clears { ClearsCanBe }
    ensures removals { ClearsCanRemove }
    ensures storing_losses { StoringLose }
    ensures losses { SeenLose }
    ensures numbers { NumbersDiffer }
{}
