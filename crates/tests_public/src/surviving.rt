//! What the functions of `uses_worlds` read after a loss of power. Their clauses allow an error of each world, since memory may be
//! refused.
use crate::losing::FINDS_A_LINK;
use crate::making::world_of;
use crate::playing::played;
use cacache::world::{Loss, World};
use cacache_core::keeping::let_go;
use row_places::{Numbers, Still};
use std::alloc::{AllocError, Global};
use std::test::Fail;
use uses_worlds::{Reads, goes_on, link_survives, survives};

/// A loss that undoes no name and cuts no file.
fn mild(alloc: Global) -> Loss {
    Loss {
        undone: Vec::new(alloc),
        tails: Vec::new(alloc),
    }
}

/// A clock.
fn clock() -> Still {
    Still {
        moment: 1000,
        asked: 0,
    }
}

/// Numbers that no caller of the world has.
fn numbers() -> Numbers {
    Numbers { next: 7 }
}

/// Whether `hello world` was read.
fn is_hello(read: cacache::Result<Vec<u8>>) -> bool {
    match read {
        Ok(bytes) => bytes.as_slice() == b"hello world".as_slice(),
        Err(error) => {
            let_go(error);
            false
        }
    }
}

/// Whether `newer` was read of the key that was written since, and `hello world` of the other.
fn are_both(reads: cacache::Result<Reads>) -> bool {
    match reads {
        Ok(Reads { since, before }) => {
            since.as_slice() == b"newer".as_slice()
                && before.as_slice() == b"hello world".as_slice()
        }
        Err(error) => {
            let_go(error);
            false
        }
    }
}

/// Whether `survives`, `link_survives` and `goes_on` read what was put in a world.
fn read_by_each(alloc: Global, world: &World) -> [bool; 3] {
    let loss = mild(alloc);
    let alone = is_hello(survives(world, &loss, "b", clock(), numbers()));
    let linked = is_hello(link_survives(world, &loss, "b", clock(), numbers()));
    let later = are_both(goes_on(world, &loss, "c", b"newer", "b", clock(), numbers()));
    [alone, linked, later]
}

/// What came of a durable put that found a link, and whether each of the three reads what was put.
fn read_after_a_put(alloc: Global) -> Result<(String, [bool; 3]), AllocError> {
    let mut world = world_of(alloc, 1)?;
    let came = played(alloc, &mut world, FINDS_A_LINK);
    let read = read_by_each(alloc, &world);
    let_go(world);
    Ok((came?, read))
}

#[test]
fn what_was_put_is_read_after_a_loss(rt: HostRuntime) -> Result<(), Fail> {
    let (came, read) = read_after_a_put(rt.alloc())?;
    assert_eq!(rt; came.as_str(), "");
    assert_eq!(rt; read, [true, true, true]);
    Ok(())
}
