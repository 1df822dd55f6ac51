//! Single cases, which show that the definitions say what they should.
ghost use Rattle.std.specs.Prelude.{◌≡◌, ◌++◌, List, ℕ, Ok};
ghost use Rattle.cacache_core.specs.{declared.integrity.digest.Hash.{Hash}, Paths.{Names, names_of, content_names, bucket_names_of}};
ghost use Rattle.cacache_disk.specs.{declared.luck.Luck.{Luck}, Tree.{Tree}};
ghost use Rattle.cacache_entry.specs.{Entry.{Entry}, FittingEntries.{IsEntry, IsWritable}};
ghost use Rattle.cacache_value.specs.{Value.{Value}, SingleCases.{KindCases, TreeCases, LinkCases, LinesAppend, ContentCases, RemovedBucketsGo, OtherBucketsKeep, FolderCases, row_folder}};

/// What single paths are for.
pub fn kind_cases()
    ensures { KindCases }
{}

/// What a tree holds with a file, a link or nothing at the path of a content or a bucket.
pub fn tree_cases()
    ensures { (home : Names) (t : Tree) → TreeCases home t }
{}

/// What a content that is a link shows.
pub fn link_cases()
    ensures { (t : Tree) (target : List ℕ) → LinkCases t target }
{}

/// Appends to a bucket that took all of a line, took less, failed and left all or less of it, only
/// made the file, or changed nothing.
pub fn append_cases()
    ensures bucket { LinesAppend }
    ensures others { OtherBucketsKeep }
{}

/// Contents that are put, replaced, linked and removed, and a bucket that is removed.
pub fn content_cases()
    ensures contents { (home : Names) (v : Value) (path : List ℕ) (a : Hash)
        → names_of path ≡ Ok (home ++ content_names a) → ContentCases home v path a }
    ensures bucket { RemovedBucketsGo }
{}

/// Folders that are made, made in part and removed.
pub fn folder_cases()
    ensures { (path : List ℕ) (luck : Luck)
        → names_of path ≡ Ok row_folder → FolderCases path luck }
{}
