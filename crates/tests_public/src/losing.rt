//! What a loss of power leaves of a durable put that found a link in the place of its content.
use crate::making::{STORED_HELLO, world_of};
use crate::playing::{Act, Row, played};
use cacache::read_sync;
use cacache::store::MemStore;
use cacache::world::Loss;
use cacache_core::errors::Fault;
use cacache_core::keeping::{beside, let_go};
use cacache_core::text::Text;
use cacache_disk::Luck;
use cacache_world::World;
use row_places::on;
use std::alloc::{AllocError, Global};
use std::test::Fail;

/// Where the content `hello world` lies, by the digest that `openssl dgst -sha256` prints.
const CONTENT: &str =
    "c/content-v2/sha256/b9/4d/27b9934d3e08a52e52d7da7dabfac484efe37a5380ee9088f7ace2efcde9";

/// A link is stored. Then the sixth move of a durable put can't move its content to its place, and the put finds the link.
pub(crate) const FINDS_A_LINK: &[Row] = &[
    (0, Act::Link("a"), 8, Luck::Plain, STORED_HELLO),
    (
        0,
        Act::PutDurably("b", "hello world"),
        6,
        Luck::Fail(Fault::Device, None),
        "more",
    ),
    (0, Act::Go, 14, Luck::Plain, STORED_HELLO),
];

/// A store that begins with what is left after a loss that undoes the content's name if no sync fixed it.
fn left(alloc: Global, world: &World) -> Result<MemStore, AllocError> {
    let undone = vec![in alloc; Text::from_str(alloc, CONTENT)?]?;
    let tails = Vec::new(alloc);
    let Ok(disk) = world.lose(&Loss { undone, tails }) else {
        return Err(AllocError);
    };
    match MemStore::of(alloc, &disk) {
        Ok(store) => Ok(store),
        Err(_) => Err(AllocError),
    }
}

/// What is read there of the put's key.
fn read_left(alloc: Global, world: &World) -> Result<Vec<u8>, AllocError> {
    let mut env = on(alloc, left(alloc, world)?, "/")?;
    match read_sync(&mut env, "c", "b") {
        Ok(bytes) => Ok(bytes),
        Err(error) => {
            let_go(error);
            Err(AllocError)
        }
    }
}

/// What comes of the rows, and what is read after the loss.
fn read_back(alloc: Global) -> Result<(String, Vec<u8>), AllocError> {
    let mut world = world_of(alloc, 1)?;
    let came = played(alloc, &mut world, FINDS_A_LINK);
    let read = read_left(alloc, &world);
    let_go(world);
    let (came, read) = beside(came, read)?;
    Ok((came, read?))
}

#[test]
fn a_durable_put_that_found_a_link_outlives_a_loss(rt: HostRuntime) -> Result<(), Fail> {
    let (came, read) = read_back(rt.alloc())?;
    assert_eq!(rt; came.as_str(), "");
    assert_eq!(rt; read.as_slice(), b"hello world".as_slice());
    Ok(())
}
