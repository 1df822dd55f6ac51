//! Calls ask the clock and the numbers before their first step.
ghost use Rattle.std.specs.Prelude.{◌≡◌};
ghost use Rattle.cacache.specs.Stores.{Fits, Logs, plain_step, plain_answer};

use cacache::content::write::Writer;
use cacache::env::{Clock, Env, Names};
use cacache::index::{delete, insert};
use cacache::store::{Answer, MemStore, Step, Store};
use cacache::{Algorithm, SyncToLinker, SyncWriter, WriteOpts};
use cacache_core::keeping::{beside, let_go};
use std::alloc::Global;
use std::cell::Cell;
use std::test::Fail;

/// A store that counts its steps.
#[derive(Drop)]
struct Counting<'a, S> {
    store: S,
    steps: &'a Cell<u64>,
}

impl<'a, S: Store> Store for Counting<'a, S> {
    type File = S::File;

    type Temp = S::Temp;

    ghost log = { λ it. S.log it.store };

    fn step(&mut self, step: Step<S::File, S::Temp>) -> Answer<S::File, S::Temp>
        ensures fits { Fits (plain_step S.File.seen S.Temp.seen step)
            (plain_answer S.File.seen S.Temp.seen result) }
        ensures logged { Logs (S.log self.old.store) (S.log self.new.store)
            (plain_step S.File.seen S.Temp.seen step)
            (plain_answer S.File.seen S.Temp.seen result) }
    {
        self.steps.set(self.steps.get().saturating_add(1));
        self.store.step(step)
    }

    fn end_walks(&mut self)
        ensures logged { S.log self.new.store ≡ S.log self.old.store }
    {
        self.store.end_walks();
    }
}

/// A clock, or a source of numbers, that counts how often it is asked, and how often after a step.
#[derive(Drop)]
struct Noting<'a> {
    steps: &'a Cell<u64>,
    asked: u64,
    late: u64,
}

impl<'a> Noting<'a> {
    /// One that wasn't asked yet.
    fn new(steps: &'a Cell<u64>) -> Noting<'a> {
        Noting {
            steps,
            asked: 0,
            late: 0,
        }
    }

    /// Notes that it is asked.
    fn ask(&mut self) -> u64 {
        self.asked = self.asked.saturating_add(1);
        if self.steps.get() > 0 {
            self.late = self.late.saturating_add(1);
        }
        self.asked
    }
}

impl Clock for Noting<'_> {
    fn now(&mut self) -> u64 {
        self.ask()
    }
}

impl Names for Noting<'_> {
    fn fresh(&mut self) -> u64 {
        self.ask()
    }
}

type Noted<'a> = Env<Counting<'a, MemStore>, Noting<'a>, Noting<'a>>;

/// Opens a writer, and commits it as a call of its own.
fn write(env: &mut Noted<'_>, steps: &Cell<u64>) {
    if let Ok(writer) = SyncWriter::create(env, "c", "w") {
        steps.set(0);
        let_go(writer.commit(env));
    }
}

/// Opens a linker, and commits it as a call of its own.
fn link(env: &mut Noted<'_>, steps: &Cell<u64>) {
    if let Ok(linker) = SyncToLinker::open(env, "c", "l", "t") {
        steps.set(0);
        let_go(linker.commit(env));
    }
}

/// Stores bytes that are moved in.
fn write_vec(env: &mut Noted<'_>) {
    if let Ok(data) = Vec::from_slice(env.alloc, b"a") {
        let_go(cacache::write_vec_sync(env, "c", "a", data));
    }
}

/// Makes the call in parts of this place in the table below.
fn make_in_parts(env: &mut Noted<'_>, steps: &Cell<u64>, place: usize) {
    match place {
        6 => write(env, steps),
        7 => link(env, steps),
        8 => let_go(WriteOpts::new().open_hash_sync(env, "c")),
        _ => let_go(Writer::new(env, "c", Algorithm::Sha256, None)),
    }
}

/// Makes the call of this place in the table below.
fn make(env: &mut Noted<'_>, steps: &Cell<u64>, place: usize) {
    match place {
        0 => let_go(cacache::write_sync(env, "c", "a", b"a")),
        1 => let_go(cacache::write_hash_sync(env, "c", b"a")),
        2 => let_go(insert(env, "c", "a", WriteOpts::new())),
        3 => let_go(delete(env, "c", "a")),
        4 => let_go(cacache::link_to_sync(env, "c", "l", "t")),
        5 => write_vec(env),
        _ => make_in_parts(env, steps, place),
    }
}

/// How often clock and numbers were asked after each call of the table, and how often after a step.
fn how_often(env: &mut Noted<'_>, steps: &Cell<u64>) -> Result<Vec<(u64, u64, u64)>, Fail> {
    let mut counts = Vec::new(env.alloc);
    for place in 0..10 {
        steps.set(0);
        make(env, steps, place);
        let late = env.clock.late.saturating_add(env.names.late);
        counts.push((env.clock.asked, env.names.asked, late))?;
    }
    Ok(counts)
}

/// A disk in memory with the file `t`.
fn disk(alloc: Global) -> Result<MemStore, Fail> {
    let mut store = MemStore::new(alloc)?;
    let (_, store) = beside(store.plant("t", b"hello"), store)?;
    Ok(store)
}

/// The counts on that disk.
fn counts(alloc: Global, steps: &Cell<u64>) -> Result<Vec<(u64, u64, u64)>, Fail> {
    let store = Counting {
        store: disk(alloc)?,
        steps,
    };
    let mut env = Env::new(alloc, store, Noting::new(steps), Noting::new(steps), "/")?;
    how_often(&mut env, steps)
}

#[test]
fn calls_ask_before_their_first_step(rt: HostRuntime) -> Result<(), Fail> {
    let steps = Cell::new(0);
    let counts = counts(rt.alloc(), &steps)?;
    let wanted = [
        (1, 1, 0),
        (1, 2, 0),
        (2, 2, 0),
        (3, 2, 0),
        (4, 2, 0),
        (5, 3, 0),
        (6, 4, 0),
        (7, 4, 0),
        (7, 5, 0),
        (7, 6, 0),
    ];
    assert_eq!(rt; counts.as_slice(), wanted.as_slice());
    Ok(())
}
