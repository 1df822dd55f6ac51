//! The contents and the places of the scripts, with what `openssl dgst` and `base64` say about them: nothing here is
//! asked of the cache's own code.

/// The cache's folder.
pub(crate) const CACHE: &str = "/cache";

/// The key of all calls.
pub(crate) const KEY: &str = "a";

/// The folder of temporary files, with those above it.
pub(crate) const TEMPS: [&str; 2] = ["/cache", "/cache/tmp"];

/// The folder of the key's bucket, with those above it.
pub(crate) const INDEX: [&str; 4] = [
    "/cache",
    "/cache/index-v5",
    "/cache/index-v5/86",
    "/cache/index-v5/86/f7",
];

/// The key's bucket.
pub(crate) const BUCKET: &str = "/cache/index-v5/86/f7/e437faa5a7fce15d1ddcb9eaeaea377667b8";

/// A content that is put.
#[derive(Clone, Copy, PartialEq, Eq, Debug)]
pub(crate) enum Content {
    One,
    Two,
}

/// All contents.
pub(crate) const CONTENTS: [Content; 2] = [Content::One, Content::Two];

impl Content {
    /// Its bytes.
    pub(crate) fn text(self) -> &'static str {
        match self {
            Content::One => "one",
            Content::Two => "two",
        }
    }

    /// The integrity of its bytes.
    pub(crate) fn integrity(self) -> &'static str {
        match self {
            Content::One => "sha256-dpLDrTVAu4A8Ags67mbNiIcSMjTqDG5xQ8Ct1z/0Me0=",
            Content::Two => "sha256-P8TM/nRYcOLA2Z9x8w/wZWyN7dQcwdfT03aw2+aF4vM=",
        }
    }

    /// Its place.
    pub(crate) fn path(self) -> &'static str {
        match self {
            Content::One => {
                "/cache/content-v2/sha256/76/92/c3ad3540bb803c020b3aee66cd8887123234ea0c6e7143c0add73ff431ed"
            }
            Content::Two => {
                "/cache/content-v2/sha256/3f/c4/ccfe745870e2c0d99f71f30ff0656c8dedd41cc1d7d3d376b0dbe685e2f3"
            }
        }
    }

    /// The folder of its place, with those above it.
    pub(crate) fn folders(self) -> [&'static str; 5] {
        let (upper, lower) = match self {
            Content::One => (
                "/cache/content-v2/sha256/76",
                "/cache/content-v2/sha256/76/92",
            ),
            Content::Two => (
                "/cache/content-v2/sha256/3f",
                "/cache/content-v2/sha256/3f/c4",
            ),
        };
        [
            "/cache",
            "/cache/content-v2",
            "/cache/content-v2/sha256",
            upper,
            lower,
        ]
    }

    /// The time of its put.
    pub(crate) fn moment(self) -> u64 {
        match self {
            Content::One => 1,
            Content::Two => 2,
        }
    }

    /// The line of its entry, without the line feed in front.
    pub(crate) fn line(self) -> &'static str {
        match self {
            Content::One => {
                "a983db51c28f64ee98d66d33b3a66a73abb285e8c346d6e67d098daec763bb7c\t{\"key\":\"a\",\"integrity\":\"sha256-dpLDrTVAu4A8Ags67mbNiIcSMjTqDG5xQ8Ct1z/0Me0=\",\"time\":1,\"size\":3,\"metadata\":null,\"raw_metadata\":null}"
            }
            Content::Two => {
                "d21caef1ce9e8799f0215575036a8d69ba90cca631c1f28d103861b61b432ba3\t{\"key\":\"a\",\"integrity\":\"sha256-P8TM/nRYcOLA2Z9x8w/wZWyN7dQcwdfT03aw2+aF4vM=\",\"time\":2,\"size\":3,\"metadata\":null,\"raw_metadata\":null}"
            }
        }
    }
}
