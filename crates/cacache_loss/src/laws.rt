//! The laws of losses of power, each on a function that does nothing.
ghost use Rattle.cacache_loss.specs.{LossLaws.{ContentsSurvive, CommitsSurvive, FoundSurvive, SparedTempsAreLeft, BucketsSurvive, EntriesSurvive, LookupsSurvive}, LostTrees.{MomentsFollowTrees, OpeningsStandWell, MovesKeepMoments, LossesLeaveTrees, FixedTreesStay}, ChangedNames.{OpeningsChangedNone, MovesChangeFew, LossesLeaveOneTree, HistoriesLeaveCaches}, Syncs.{OwnFoldersAreEnough, FiveForContents, FourForBuckets}, LostValues.{ContentsAreHeld, EntriesAreHeld}, LossCases.{LossRows, UndonePutsGo, FailedSyncsFixNothing}};

/// What a durable commit put and wrote is there after each loss of power, while others make calm
/// steps: its content, its line of the bucket, and what a lookup finds by it.
pub fn loss_laws()
    ensures contents { ContentsSurvive }
    ensures commits { CommitsSurvive }
    ensures spared { SparedTempsAreLeft }
    ensures found { FoundSurvive }
    ensures buckets { BucketsSurvive }
    ensures entries { EntriesSurvive }
    ensures lookups { LookupsSurvive }
{}

/// The tree is that of a cache at each moment, and after each loss too. If all is fixed, a loss
/// changes nothing.
pub fn tree_laws()
    ensures trees { MomentsFollowTrees }
    ensures opens { OpeningsStandWell }
    ensures moments { MovesKeepMoments }
    ensures losses { LossesLeaveTrees }
    ensures fixed { FixedTreesStay }
{}

/// A loss leaves one tree, since finitely many names change: at each moment of a history that
/// begins with a cache's tree, it is one of a cache, and reading steps show what that holds.
pub fn loss_history_laws()
    ensures none { OpeningsChangedNone }
    ensures few { MovesChangeFew }
    ensures one { LossesLeaveOneTree }
    ensures caches { HistoriesLeaveCaches }
{}

/// Which folders a durable commit has to sync: five for its content, four for its bucket.
pub fn folder_laws()
    ensures folders { OwnFoldersAreEnough }
    ensures content { FiveForContents }
    ensures bucket { FourForBuckets }
{}

/// What is left at the paths of contents and buckets is what the cache then holds.
pub fn value_laws()
    ensures contents { ContentsAreHeld }
    ensures entries { EntriesAreHeld }
{}

/// Single cases, which show that the definitions say what they should.
pub fn loss_cases()
    ensures rows { LossRows }
    ensures undone { UndonePutsGo }
    ensures failed { FailedSyncsFixNothing }
{}
