//! Laws, on functions that do nothing.
ghost use Rattle.cacache_laws.specs.trees.{Answers.{AnswersAgree, LooksAnswer, TreesAreRooted}, Collecting.{CachesLinkOut}, Compacting.{CompactTextsAnswer, CompactTextsClose, CompactTextsKeepFound, CompactTextsSettle}, Contents.{ContentsShown, HoldingsAgree}, Housed.{CachesAreHoused, IndexesLead}, Index.{IndexesAgree, IndexesFind}, Later.{SparedKeysStay, TombstonesFit}, Verifying.{TombstonesHide}, Walks.{WalksFind, WalksStayBelow}};

/// A walk finds exactly the files and links that are below its folder, each as it is at one of the places where the
/// walk read.
pub fn walk_laws()
    ensures finds { WalksFind }
    ensures below { WalksStayBelow }
{}

/// A call that only looks answers what the tree of the log gives, and one tree gives one answer.
pub fn answer_laws()
    ensures rooted { TreesAreRooted }
    ensures calls { LooksAnswer }
    ensures agree { AnswersAgree }
{}

/// A listing of the contents lists the addresses that the cache holds, and these are one list.
pub fn holding_laws()
    ensures shown { ContentsShown }
    ensures agree { HoldingsAgree }
{}

/// A listing of the index without errors lists what the lookup of each key finds, and one tree has one such list.
pub fn index_laws()
    ensures finds { IndexesFind }
    ensures agree { IndexesAgree }
{}

/// Links lead out of a cache that only calls wrote to, as laws of collections ask.
pub fn collect_laws()
    ensures links { CachesLinkOut }
{}

/// A call that added a tombstone hides its key alone. In a cache that only calls wrote to each thing lies in its place,
/// and then the index lists what lookups find.
pub fn repair_laws()
    ensures hides { TombstonesHide }
    ensures caches { CachesAreHoused }
    ensures leads { IndexesLead }
{}

/// A bucket's bytes that are compacted answer each lookup as before and list the same. They have the same odd lines,
/// no two lines that decide one key, and without odd lines one entry for each item. A second compaction changes
/// nothing, unless it is the first durable one. They end with a line feed if the compaction is durable or the bytes
/// end with one. Each reader of lines that reads as we do what we can read finds the same line for each key.
pub fn compact_laws()
    ensures answer { CompactTextsAnswer }
    ensures settle { CompactTextsSettle }
    ensures closes { CompactTextsClose }
    ensures found { CompactTextsKeepFound }
{}

/// If each thing is where it may be, a key that leads to bytes still leads to the same entry and bytes after any calls
/// that spare it, over or broken off (`stay`). One of the texts written since may be there instead, if it meets the integrity.
pub fn spared_laws()
    ensures fit { TombstonesFit }
    ensures stay { SparedKeysStay }
{}
