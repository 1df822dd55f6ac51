//! What callers see of calls that are under way, failed or given up.
use crate::making::{HELLO, STORED_HELLO, world_of};
use crate::playing::{Act, Row, played};
use cacache_core::errors::Fault;
use cacache_core::keeping::beside;
use cacache_disk::Luck;
use cacache_world::World;
use std::alloc::{AllocError, Global};
use std::test::Fail;

/// The callers.
const A: usize = 0;

const B: usize = 1;

const C: usize = 2;

const D: usize = 3;

/// The integrities of `one` and `two`, as `openssl dgst -sha256 -binary | base64` prints their
/// digests.
const ONE: &str = "sha256-dpLDrTVAu4A8Ags67mbNiIcSMjTqDG5xQ8Ct1z/0Me0=";

const TWO: &str = "sha256-P8TM/nRYcOLA2Z9x8w/wZWyN7dQcwdfT03aw2+aF4vM=";

/// What puts of `one` and `two` reply.
const STORED_ONE: &str = "stored sha256-dpLDrTVAu4A8Ags67mbNiIcSMjTqDG5xQ8Ct1z/0Me0=";

const STORED_TWO: &str = "stored sha256-P8TM/nRYcOLA2Z9x8w/wZWyN7dQcwdfT03aw2+aF4vM=";

/// What lookups of `a`, `x` and `b` find.
const FOUND_A: &str = "found a sha256-dpLDrTVAu4A8Ags67mbNiIcSMjTqDG5xQ8Ct1z/0Me0= 3";

const FOUND_X: &str = "found x sha256-dpLDrTVAu4A8Ags67mbNiIcSMjTqDG5xQ8Ct1z/0Me0= 3";

const FOUND_B: &str = "found b sha256-uU0nuZNNPgilLlLX2n2r+sSE7+N6U4DukIj3rOLvzek= 11";

/// Ten bytes of a line, and the line of `x` with `one`. `sha256sum` prints the digests of both
/// entries' texts.
const TORN_AND_WHOLE: &str =
    "\nb25bf698a\n6f7e5d09fcce9e8f096116464755fe9b08f8b60f4df4b6f36eafe70f45064d77\t{\"key\":\"x\",\"integrity\":\"sha256-dpLDrTVAu4A8Ags67mbNiIcSMjTqDG5xQ8Ct1z/0Me0=\",\"time\":1234567,\"size\":3,\"metadata\":null,\"raw_metadata\":null}";

/// Whether the bucket of `x`, which `sha1sum` names, holds a text.
fn bucket_holds(world: &World, text: &str) -> Result<bool, AllocError> {
    let path = "c/index-v5/11/f6/ad8ec52a2984abaafd7c3b516503785c2072";
    Ok(match world.disk().shared(path)? {
        Some(bytes) => bytes.as_slice() == text.as_bytes(),
        None => false,
    })
}

/// The third move writes the content; one that takes nothing ends the call.
const NOTHING_WRITTEN: &[Row] = &[
    (
        A,
        Act::Put("b", "hello world"),
        3,
        Luck::Take(0),
        "WriteZero",
    ),
    (A, Act::Find("b"), 1, Luck::Plain, "nothing"),
    (A, Act::GetHash(HELLO), 1, Luck::Plain, "NotFound"),
];

/// The fifth move persists the content. The sixth of the second put asks for it.
const PUT_TWICE: &[Row] = &[
    (
        A,
        Act::Put("a", "hello world"),
        7,
        Luck::Plain,
        STORED_HELLO,
    ),
    (
        A,
        Act::Put("b", "hello world"),
        5,
        Luck::Fail(Fault::Device, None),
        "more",
    ),
    (A, Act::Go, 3, Luck::Plain, STORED_HELLO),
    (A, Act::GetHash(HELLO), 1, Luck::Plain, "read hello world"),
    (A, Act::Find("b"), 1, Luck::Plain, FOUND_B),
];

/// The seventh move appends the entry.
const IN_SIGHT: &[Row] = &[
    (A, Act::Put("a", "one"), 5, Luck::Plain, "more"),
    (B, Act::Find("a"), 1, Luck::Plain, "nothing"),
    (B, Act::GetHash(ONE), 1, Luck::Plain, "read one"),
    (A, Act::Go, 1, Luck::Plain, "more"),
    (A, Act::Go, 1, Luck::Plain, STORED_ONE),
    (B, Act::Find("a"), 1, Luck::Plain, FOUND_A),
    (C, Act::Put("x", "two"), 7, Luck::Take(10), "ShortAppend"),
    (B, Act::Find("x"), 1, Luck::Plain, "nothing"),
    (D, Act::Put("x", "one"), 7, Luck::Plain, STORED_ONE),
    (B, Act::Find("x"), 1, Luck::Plain, FOUND_X),
];

/// A call that is given up keeps what it did.
const STOPPED: &[Row] = &[
    (A, Act::Put("a", "one"), 5, Luck::Plain, "more"),
    (A, Act::Stop, 0, Luck::Plain, "more"),
    (B, Act::GetHash(ONE), 1, Luck::Plain, "read one"),
    (B, Act::Find("a"), 1, Luck::Plain, "nothing"),
];

/// An append that failed may have taken all. A line has some 200 bytes.
const TOOK_ALL: &[Row] = &[
    (
        A,
        Act::Put("a", "one"),
        7,
        Luck::Fail(Fault::Device, Some(1000)),
        "Device",
    ),
    (B, Act::Find("a"), 1, Luck::Plain, FOUND_A),
];

/// A removal reads the entry, then removes its content, then the bucket.
const REMOVED: &[Row] = &[
    (A, Act::Put("a", "one"), 7, Luck::Plain, STORED_ONE),
    (B, Act::RemoveFully("a"), 1, Luck::Plain, "more"),
    (C, Act::Put("a", "two"), 7, Luck::Plain, STORED_TWO),
    (B, Act::Go, 2, Luck::Plain, "done"),
    (A, Act::Find("a"), 1, Luck::Plain, "nothing"),
    (A, Act::GetHash(ONE), 1, Luck::Plain, "NotFound"),
    (A, Act::GetHash(TWO), 1, Luck::Plain, "read two"),
];

/// A failed persist asks for the content, which isn't there.
const NOT_PERSISTED: &[Row] = &[
    (
        A,
        Act::Put("a", "hello world"),
        5,
        Luck::Fail(Fault::Device, None),
        "more",
    ),
    (A, Act::Go, 1, Luck::Plain, "Device"),
];

/// A short write is continued.
const WRITTEN_IN_TWO: &[Row] = &[
    (A, Act::Put("a", "hello world"), 3, Luck::Take(3), "more"),
    (A, Act::Go, 5, Luck::Plain, STORED_HELLO),
];

const STORIES: [&[Row]; 6] = [
    NOTHING_WRITTEN,
    PUT_TWICE,
    STOPPED,
    TOOK_ALL,
    REMOVED,
    NOT_PERSISTED,
];

/// What comes of the rows in a world of their own, with four callers.
fn told(alloc: Global, rows: &[Row]) -> Result<String, AllocError> {
    let mut world = world_of(alloc, 4)?;
    played(alloc, &mut world, rows)
}

#[test]
fn stories_come_out_as_they_are_told(rt: HostRuntime) -> Result<(), Fail> {
    for rows in STORIES {
        let came = told(rt.alloc(), rows)?;
        assert_eq!(rt; came.as_str(), "");
    }
    Ok(())
}

/// What comes of an entry in sight, and whether its bucket then holds the torn line and the whole one.
fn in_sight(alloc: Global, world: &mut World) -> Result<(String, bool), AllocError> {
    let came = played(alloc, world, IN_SIGHT)?;
    let (holds, came) = beside(bucket_holds(world, TORN_AND_WHOLE), came)?;
    Ok((came, holds))
}

/// What comes of an entry in sight, in a world of its own.
fn in_sight_alone(alloc: Global) -> Result<(String, bool), AllocError> {
    let mut world = world_of(alloc, 4)?;
    in_sight(alloc, &mut world)
}

#[test]
fn an_entry_is_seen_when_its_line_is_whole(rt: HostRuntime) -> Result<(), Fail> {
    let (came, holds) = in_sight_alone(rt.alloc())?;
    assert_eq!(rt; came.as_str(), "");
    assert!(rt; holds);
    Ok(())
}

/// What comes of a short write, and how many records there are then.
fn continued(alloc: Global) -> Result<(String, usize), AllocError> {
    let mut world = world_of(alloc, 4)?;
    let (came, world) = beside(played(alloc, &mut world, WRITTEN_IN_TWO), world)?;
    Ok((came, world.history().len()))
}

#[test]
fn a_short_write_is_continued(rt: HostRuntime) -> Result<(), Fail> {
    let (came, records) = continued(rt.alloc())?;
    assert_eq!(rt; came.as_str(), "");
    assert_eq!(rt; records, 9);
    Ok(())
}
