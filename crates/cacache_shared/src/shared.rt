//! One world for several threads. Each caller has a seat, which holds one part of the ledger.
ghost use Rattle.std.specs.Prelude.{◌≡◌, ◌<◌, ◌≤◌, [], All, sum_by, length, vec_capacity, IfOk, IfErr, OnOk, OnErr};
ghost use Rattle.cacache_shared.specs.{Lines.{moves}, Seats.{SeatAgrees, SeatGoes, SeatTurns, fresh_seats, with_command}};

use crate::blank::Blank;
use crate::closing::{all_agree, merge_seats};
use crate::counting::count_all;
use crate::inside::Inside;
use crate::lines::{moves_in, records_in};
use crate::seat::{Seat, Went};
use cacache_calls::Command;
use cacache_core::keeping::let_go;
use cacache_disk::Luck;
use cacache_world::{World, WorldFault};
use std::alloc::Global;
use std::marker::PhantomData;
use std::sync::ledger::{Book, Ledger};
use std::sync::{Mutex, Wait};

/// How many callers there are. Each has one part of the ledger.
#[derive(Drop)]
struct Callers<L: Ledger> {
    count: u64,
    of: PhantomData<L>,
    ghost all: { count ≡ L.parts },
    ghost some: { 0 < count },
}

/// A world that threads share. Contracts see how many records it had at first.
#[derive(Drop)]
pub struct SharedWorld<L: Ledger> {
    inside: Mutex<Inside<L>>,
    callers: Callers<L>,
    from: usize,
    alloc: Global,
}

impl<L: Ledger> SharedWorld<L> {
    /// A shared world, and a seat for each of its callers. The blank has a part for each.
    ///
    /// # Errors
    ///
    /// The world as it was, if memory is refused.
    pub fn new(blank: Blank<L>, world: World) -> Result<(SharedWorld<L>, Vec<Seat<L>>), World>
        requires each { blank.blank.parts ≡ world.setup.callers }
        ensures same { IfErr result (λ w. w ≡ world) }
        ensures seats { IfOk result (λ r.
            r.1.items ≡ fresh_seats world.records world.setup.callers) }
        ensures from { IfOk result (λ r. r.0.from ≡ length world.records) }
    {
        let alloc = world.allocator();
        let count = world.callers();
        let from = world.history().len();
        let Ok(mut seats) = Vec::with_capacity(alloc, count) else {
            let_go(blank);
            return Err(world);
        };
        let callers = Callers {
            count: count as u64,
            of: PhantomData,
        };
        let book = make_seats(blank, &world, &mut seats);
        let shared = SharedWorld {
            inside: Mutex::new(Inside::new(world, book)),
            callers,
            from,
            alloc,
        };
        Ok((shared, seats))
    }

    /// The seat's caller begins a call. It waits until no other thread is inside the world.
    ///
    /// # Errors
    ///
    /// The seat stays as it was, and so does the world: for `World::begin`'s faults, and `OutOfMemory`
    /// if memory is refused.
    pub fn begin<R: Wait>(
        &self,
        rt: &R,
        seat: &mut Seat<L>,
        command: Command,
    ) -> Result<(), WorldFault>
        ensures began { OnOk result (seat.new ≡ with_command command seat.old) }
        ensures same { OnErr result (seat.new ≡ seat.old) }
    {
        self.inside.lock(rt).begin(seat, command)
    }

    /// The seat's caller makes one move, the next step of its own call, which turns out as the luck says. The reply that
    /// the seat gets if the call is over is that of this move. It waits until no other thread is inside the world.
    ///
    /// # Errors
    ///
    /// The seat stays as it was, and so does the world: for `World::move_one`'s faults, and
    /// `OutOfMemory` if memory is refused.
    #[tactic(auto, using(crate::proofs::Storms::turn_goes, crate::proofs::Storms::holds_turn))]
    pub fn go<R: Wait>(&self, rt: &R, seat: &mut Seat<L>, luck: Luck) -> Result<Went, WorldFault>
        ensures turn { IfOk result (λ went. SeatTurns luck went seat.old seat.new) }
        ensures goes { IfOk result (λ went. SeatGoes went seat.old seat.new) }
        ensures same { OnErr result (seat.new ≡ seat.old) }
    {
        self.inside.lock(rt).go(seat, luck)
    }

    /// The world again, if each seat is here and agrees with its caller's records: it counts the caller's moves, and
    /// since it was made holds the commands and replies, JSON values by their texts. No record is there except those
    /// that the seats count.
    ///
    /// # Errors
    ///
    /// The shared world and the seats as they were, if memory is refused, a seat is missing, or one
    /// doesn't agree.
    pub fn close(self, seats: Vec<Seat<L>>) -> Result<World, (SharedWorld<L>, Vec<Seat<L>>)>
        ensures told { IfOk result (λ w. sum_by (λ s. s.records) seats.items ≡ length w.records) }
        ensures sum { IfOk result (λ w. sum_by (λ s. s.count) seats.items ≡ moves w.records) }
        ensures each { IfOk result (λ w. All (SeatAgrees self.from w.records) seats.items) }
        ensures same { IfErr result (λ r. (r.1.items ≡ seats.items) × (r.0.from ≡ self.from)) }
    {
        let SharedWorld {
            inside,
            callers,
            from,
            alloc,
        } = self;
        let inside = inside.into_inner();
        if seats.len() as u64 != callers.count
            || !count_all(&inside.world, seats.as_slice())
            || !all_agree(alloc, &inside.world, from, seats.as_slice())
        {
            let shared = SharedWorld {
                inside: Mutex::new(inside),
                callers,
                from,
                alloc,
            };
            return Err((shared, seats));
        }
        let Inside { world, mut book } = inside;
        let Some(mut all) = merge_seats(seats) else {
            unreachable!()
        };
        book.audit(&mut all);
        Ok(world)
    }
}

/// Makes a seat for each caller of a world, for which there is room, and the book that counts all records.
#[tactic(auto, using(crate::proofs::Callers::all_counted, crate::proofs::Callers::moves_few))]
fn make_seats<L: Ledger>(blank: Blank<L>, world: &World, seats: &mut Vec<Seat<L>>) -> Book<L>
    requires each { blank.blank.parts ≡ world.now.setup.callers }
    requires none { seats.old.items ≡ [] }
    requires room { world.now.setup.callers ≤ vec_capacity seats.old }
    ensures seats { seats.new.items ≡ fresh_seats world.now.records world.now.setup.callers }
    ensures total { result.total ≡ length world.now.records }
{
    let alloc = world.allocator();
    let count = world.callers();
    world.stands();
    let (mut book, mut rest) = blank.open();
    for caller in 0..count {
        let records = records_in(world, caller);
        let moves = moves_in(world, caller);
        let mut share = rest.split_off(1, 0);
        book.add(&mut share, records);
        seats
            .push(Seat::new(alloc, caller, records, moves, share))
            .unwrap();
    }
    book
}
