//! What holds of every legal history, on functions that do nothing.
ghost use Rattle.std.specs.Prelude.{List, ℕ};
ghost use Rattle.cacache_disk.specs.declared.luck.Luck.{Luck};
ghost use Rattle.cacache_history.specs.{LegalCases.{CasesHold, LookupCases}, Headline.{HeadlineHolds}, Values.{DigestsMakeIntegrities, MetDigestsAreSame}};

/// The claim as a whole, of every legal history: see `Headline`.
///
/// At each place the cache holds what the acts of the steps before it made. Between two removals a
/// bucket only grows and a content stays; a bucket is that of some key and holds entries of its own
/// keys; a content that is bytes has the digest of its address. Lookups, reads, questions, listings
/// and checked exports answer by what the cache held at their own steps, and change nothing. Each
/// commit did nothing, put its content, or put its content and then its entry, and unless somebody
/// removed it that content is there. A removal removes at most its content, and with a key the key's
/// bucket. Each move is one of a call's, each entry was written by one, and a lookup goes by the last
/// entry that was written. An `IoError` has a cause in its call's own steps.
pub fn history_laws()
    ensures headline { HeadlineHolds }
{}

/// What may come in a legal history, case by case: no second call of a busy caller, no step, answer or reply except
/// the call's own, and no export or link to a path that isn't allowed.
///
/// And one history: a lookup on a disk that holds nothing is legal with its own reply, and not with an entry.
pub fn legal_cases()
    ensures cases { CasesHold }
    ensures lookups { (cache key : List ℕ) (luck : Luck) → LookupCases cache key luck }
{}

/// The digest of bytes under an algorithm makes an integrity, and bytes that meet it have that digest.
pub fn digest_laws()
    ensures formed { DigestsMakeIntegrities }
    ensures same { MetDigestsAreSame }
{}
