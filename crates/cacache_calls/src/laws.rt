//! The laws of the table.
ghost use Rattle.cacache_calls.specs.{Promises.{IoErrorsHaveCauses, CallsAnswer, StatesPromise}, Effects.{PutsCommit, LinksCommit, InsertsSend, DeletesSend, ErrandsOnlyChange}, Licence.{CallsKeepTo}, Replies.{ListsShown, EachKeyOnce, FindsShown, GetsShown, ReadsShown, ExistsShown, GetsMeet}, Rows.{Rows}, Runs.{WantsUntilOver, EffortFalls, MemoryEnds}, Sound.{BeginsSound, StepsAllowed, StaysSound}, Verifying.{ExportsVerify, LinksReadWhole}};

/// In each state a call needs a step until it is over, and every call ends. Each fitting answer lowers the bound on the
/// remaining steps, and out of memory ends the call at once.
pub fn run_laws()
    ensures over { WantsUntilOver }
    ensures falls { EffortFalls }
    ensures memory { MemoryEnds }
{}

/// What holds of every reply, whatever the store answered. Its kind is the command's. Bytes that were read match their
/// integrity. The only integrity answered is the one that was computed or given. A checked export verified what it
/// opened. A link read its whole target.
pub fn promise_laws()
    ensures states { StatesPromise }
    ensures calls { CallsAnswer }
    ensures exports { ExportsVerify }
    ensures links { LinksReadWhole }
{}

/// A call's reply is a function of what its own steps were shown.
pub fn reply_laws()
    ensures finds { FindsShown }
    ensures gets { GetsShown }
    ensures reads { ReadsShown }
    ensures exists { ExistsShown }
    ensures lists { ListsShown }
    ensures once { EachKeyOnce }
    ensures meets { GetsMeet }
    ensures causes { IoErrorsHaveCauses }
{}

/// What the steps of a call do to contents and buckets. A commit does one of three things: nothing; it stores its
/// content; or it stores its content and then sends its entry.
pub fn effect_laws()
    ensures puts { PutsCommit }
    ensures links { LinksCommit }
    ensures inserts { InsertsSend }
    ensures deletes { DeletesSend }
    ensures errands { ErrandsOnlyChange }
{}

/// How many steps calls take if the answers are those that a store would return.
pub fn row_laws()
    ensures { Rows }
{}

/// A call that may begin is always in a sound state, whatever fitting answers its steps get. Its steps name the paths
/// of its own site. Each line is that of a well-formed entry that can be written. Exports go to paths apart from the
/// cache, and links lead outside it.
pub fn sound_laws()
    ensures begins { BeginsSound }
    ensures allowed { StepsAllowed }
    ensures stays { StaysSound }
{}

/// Whatever answers it gets, a call makes only steps that its command's licence allows.
pub fn licence_laws()
    ensures keeps { CallsKeepTo }
{}
