//! What a world refuses, and where it stops.
use crate::making::{put, world_of};
use cacache_calls::{Command, Export, How, Source};
use cacache_core::keeping::{beside, let_go};
use cacache_core::text::Text;
use cacache_disk::Luck;
use cacache_world::{Event, World, WorldFault};
use std::alloc::{AllocError, Global};
use std::test::Fail;

/// An export of the key's content to a path.
fn export_to(alloc: Global, to: &str) -> Result<Command, AllocError> {
    let to = Text::from_str(alloc, to)?;
    let (key, to) = beside(Text::from_str(alloc, "a"), to)?;
    let export = Export {
        how: How::Copy,
        checked: true,
        to,
    };
    Ok(Command::Export(Source::Key(key), export))
}

/// Why a caller makes no move, if it makes none.
fn refused(world: &mut World, caller: usize) -> Option<WorldFault> {
    match world.move_one(caller, Luck::Plain) {
        Ok(moved) => {
            let_go(moved);
            None
        }
        Err(fault) => Some(fault),
    }
}

/// Why the third of three callers without calls makes no move, and why a fourth, and whether no record was made.
fn idle(alloc: Global) -> Result<(Option<WorldFault>, Option<WorldFault>, bool), AllocError> {
    let mut world = world_of(alloc, 3)?;
    let third = refused(&mut world, 2);
    let fourth = refused(&mut world, 3);
    Ok((third, fourth, world.history().is_empty()))
}

#[test]
fn callers_without_calls_make_no_moves(rt: HostRuntime) -> Result<(), Fail> {
    let (third, fourth, is_empty) = idle(rt.alloc())?;
    assert!(rt; third == Some(WorldFault::Idle));
    assert!(rt; fourth == Some(WorldFault::NoCaller));
    assert!(rt; is_empty);
    Ok(())
}

/// Events, the fourth of which finds no call.
fn events(alloc: Global) -> Result<Vec<Event>, AllocError> {
    let put = put(alloc, "a", "hello world")?;
    let events = vec![in alloc;
        Event::Begin(1, put),
        Event::Move(1, Luck::Plain),
        Event::Stop(1),
        Event::Move(1, Luck::Plain),
        Event::Begin(1, Command::Ls),
    ]?;
    Ok(events)
}

/// How they are played in a world of two callers, and how many records there are then.
fn played(alloc: Global) -> Result<(Result<(), WorldFault>, usize), AllocError> {
    let events = events(alloc)?;
    let (mut world, events) = beside(world_of(alloc, 2), events)?;
    let played = world.play(events.as_slice());
    Ok((played, world.history().len()))
}

#[test]
fn events_are_played_up_to_the_first_fault(rt: HostRuntime) -> Result<(), Fail> {
    let (played, records) = played(rt.alloc())?;
    assert!(rt; played == Err(WorldFault::Idle));
    assert_eq!(rt; records, 3);
    Ok(())
}

/// Where the exports go.
const TARGETS: [&str; 6] = ["c", "c/x", "//c/./x", "/w", "/w/t", "/w/o"];

/// Whether a world begins an export to a path, or why it doesn't.
fn begun(alloc: Global, world: &mut World, to: &str) -> Result<Result<(), WorldFault>, AllocError> {
    Ok(world.begin(0, export_to(alloc, to)?))
}

/// Whether a world begins an export to each of the targets, one after the other.
fn all_begun(alloc: Global, world: &mut World) -> Result<Vec<Result<(), WorldFault>>, AllocError> {
    let mut all = Vec::new(alloc);
    for to in TARGETS {
        let one = begun(alloc, world, to)?;
        all.push(one)?;
    }
    Ok(all)
}

/// Whether a world of one caller begins each of these exports.
fn all_begun_alone(alloc: Global) -> Result<Vec<Result<(), WorldFault>>, AllocError> {
    let mut world = world_of(alloc, 1)?;
    all_begun(alloc, &mut world)
}

#[test]
fn exports_go_apart_from_the_cache_and_the_outside_files(rt: HostRuntime) -> Result<(), Fail> {
    let bad = Err(WorldFault::BadCommand);
    let all = all_begun_alone(rt.alloc())?;
    assert_eq!(rt;
        all.as_slice(),
        [bad, bad, bad, bad, bad, Ok(())].as_slice()
    );
    Ok(())
}
