//! The laws of paths, texts and integrities. Each topic has a function that does nothing. Call it
//! if a proof needs its laws.
ghost use Rattle.cacache_core.specs.Laws.{ListsFindsHashes, MeetsFindsBytes, MatchingFindsShared, OwnIsMet, KeysHaveDigests, PathsDiffer, NoneBegins, KindsAreApart, NamesAreProper, JoinedTextsName, JoinedTextsSpell, PrintedTextsRead, IntegrityTextsRead, ReadTextsAreIntegrities};

/// There are three kinds of paths: of contents, of buckets and of temporary files. Two paths of one
/// kind are equal only if their hashes, digests of keys or numbers are equal. No path is below
/// another. Each path's text names something below the cache's folder, with its names unchanged and
/// a slash before each.
pub fn path_laws()
    ensures digests { KeysHaveDigests }
    ensures differ { PathsDiffer }
    ensures none_begins { NoneBegins }
    ensures apart { KindsAreApart }
    ensures proper { NamesAreProper }
    ensures texts { JoinedTextsName }
    ensures spelled { JoinedTextsSpell }
{}

/// An integrity's printed text parses as that integrity. A text parses as an integrity exactly if
/// its words are the texts of its hashes.
pub fn text_laws()
    ensures printed { PrintedTextsRead }
    ensures read { IntegrityTextsRead }
    ensures integrities { ReadTextsAreIntegrities }
{}

/// Two tests compute: whether bytes meet an integrity, and whether two integrities match. Each
/// agrees with its relation. Bytes meet their own integrity.
pub fn integrity_laws()
    ensures lists { ListsFindsHashes }
    ensures meets { MeetsFindsBytes }
    ensures matching { MatchingFindsShared }
    ensures own { OwnIsMet }
{}
