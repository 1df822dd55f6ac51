//! The worker of a polled file.
ghost use Rattle.std.specs.Prelude.{◌≡◌};
ghost use Rattle.cacache_writers.specs.{declared.worker.Turned.TheVariants.{Over}, Turning.{CountsAsks, FreelyTurns, TurnsTo}};

use crate::kept::Told;
use crate::removal::RemovableTemp;
use crate::shared::Shared;
use crate::work::{Taken, work_by};
use cacache_jobs::{Gate, Pass};
use cacache_polled::Completion;
use std::alloc::Global;
use std::sync::{Arc, Wait};
use std::thread;
use std::time::{Clock, Duration};

/// What came of a turn.
#[derive(Clone, Copy, Debug, PartialEq, Eq)]
pub enum Turned {
    /// The work that was out is done, or failed.
    Did,
    /// No work was out.
    NoWork,
    /// The gate answered `NotYet`.
    NotYet,
    /// No work comes any more.
    Over,
}

/// Does a polled file's work, in a thread of its own or of the caller's.
#[derive(Drop)]
pub struct Worker<T> {
    pub(crate) shared: Arc<Shared<T>, Global>,
    /// How often the gate was asked; 2^64 - 1 stays as it is.
    asked: u64,
}

impl<T: Drop> Worker<T> {
    pub(crate) fn new(shared: Arc<Shared<T>, Global>) -> Worker<T>
        ensures shared { result.shared ≡ shared }
        ensures asked { result.asked ≡ 0 }
    {
        Worker { shared, asked: 0 }
    }
}

impl<T: RemovableTemp> Worker<T> {
    /// Does the work that is out, if the gate lets it. The gate is asked at most once, and only if work is out;
    /// after `Quit` that work ends undone, and the next commit is cancelled. It is over if the polled file was
    /// dropped, committed or closed, and after `Quit`.
    ///
    /// `Wait` is for the lock that it shares with the polled file.
    pub fn turn<R: Wait, G: Gate>(&mut self, rt: &R, gate: &G) -> Turned
        ensures shared { self.new.shared ≡ self.old.shared }
        ensures asked { CountsAsks self.old.asked self.new.asked result }
    {
        let shared: &Shared<T> = &self.shared;
        turn_by(
            &mut self.asked,
            || shared.is_over(rt),
            || shared.has_work(rt),
            |turn| gate.pass(turn),
            || work_by(
                || shared.take(rt),
                |temp, completion| shared.end(rt, temp, completion),
            ),
            || shared.give_up(rt),
        )
    }

    /// Takes turns until one is over, and sleeps a millisecond after each that had nothing to do. The example of
    /// `Writer::create` runs one in a thread of its own, and joins it: until it returns it may have the temporary file
    /// of a writer that was dropped.
    ///
    /// `Wait` is for the lock and for sleeping, `Clock` for how long. Unless its gate says `Quit`, it doesn't
    /// return before the polled file is dropped, committed or closed.
    pub fn run<R: Wait + Clock, G: Gate>(mut self, rt: &R, gate: &G) {
        let rest = || thread::sleep(rt, Duration::from_millis(1));
        run_by(rt, rest, || self.turn(rt, gate))
    }

    /// A turn for a thread of `Workers`, which no gate holds back. A polled file whose lock is taken, as by a commit, has
    /// no work then.
    pub(crate) fn free_turn<R: Wait>(&self, rt: &R) -> Turned {
        let shared: &Shared<T> = &self.shared;
        free_turn_by(
            || shared.take_free(),
            |temp, completion| shared.end(rt, temp, completion),
        )
    }
}

/// A turn that does what work it can take at once.
fn free_turn_by<
    T: RemovableTemp,
    Take: FnOnce() -> Option<Taken<T>>,
    End: FnOnce(Option<T>, Completion) -> Told<T>,
>(take: Take, end: End) -> Turned
    requires take { Take.IsAlwaysCallable take }
    requires end { End.IsAlwaysCallable end }
    ensures turns { FreelyTurns T.seen T.contents T.writes T.removes (Take.post take)
        (End.post end) result }
{
    let Some(taken) = take() else {
        return Turned::Over;
    };
    match work_by(move || taken, end) {
        Some(_told) => Turned::Did,
        None => Turned::NoWork,
    }
}

/// A turn: looks whether it is over and whether work is out, asks for its number, and works or gives up.
fn turn_by<
    T: Drop,
    IsOver: FnOnce() -> bool,
    HasWork: FnOnce() -> bool,
    Ask: FnOnce(u64) -> Pass,
    Work: FnOnce() -> Option<Told<T>>,
    GiveUp: FnOnce() -> Option<Told<T>>,
>(
    asked: &mut u64,
    is_over: IsOver,
    has_work: HasWork,
    ask: Ask,
    work: Work,
    give_up: GiveUp,
) -> Turned
    requires is_over { IsOver.IsAlwaysCallable is_over }
    requires has_work { HasWork.IsAlwaysCallable has_work }
    requires ask { Ask.IsAlwaysCallable ask }
    requires work { Work.IsAlwaysCallable work }
    requires give_up { GiveUp.IsAlwaysCallable give_up }
    ensures turns { TurnsTo (IsOver.post is_over) (HasWork.post has_work) (Ask.post ask)
        (Work.post work) (GiveUp.post give_up) asked.old asked.new result }
{
    if is_over() {
        return Turned::Over;
    }
    if !has_work() {
        return Turned::NoWork;
    }
    let turn = *asked;
    *asked = turn.saturating_add(1);
    match ask(turn) {
        Pass::Go => match work() {
            Some(_told) => Turned::Did,
            None => Turned::NoWork,
        },
        Pass::NotYet => Turned::NotYet,
        Pass::Quit => {
            let _told = give_up();
            Turned::Over
        }
    }
}

/// Takes turns until one is over, and rests after each that had nothing to do.
pub(crate) fn run_by<R: Wait, Rest: Fn(), Turn: FnMut() -> Turned>(
    rt: &R,
    rest: Rest,
    mut turn: Turn,
)
    requires rest { Rest.IsAlwaysCallable rest }
    requires turn { Turn.IsAlwaysCallable turn }
    ensures over { (before after : Turn) × Turn.step before Over after }
{
    for _ in rt.forever() {
        match turn() {
            Turned::Did => {}
            Turned::NoWork | Turned::NotYet => rest(),
            Turned::Over => return,
        }
    }
    unreachable!()
}
