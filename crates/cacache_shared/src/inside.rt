//! What lies under the lock: each method is one hold of it.
ghost use Rattle.std.specs.Prelude.{◌≡◌, ◌+◌, ◌<◌, ◌^◌, IfOk, OnOk, OnErr, length};
ghost use Rattle.cacache_shared.specs.Seats.{HoldsTurn, SeatBegins};

use crate::seat::{Seat, Went, note, note_reply, room_for};
use cacache_calls::Command;
use cacache_core::keeping::let_go;
use cacache_disk::Luck;
use cacache_world::{World, WorldFault};
use std::sync::ledger::{Book, Ledger};

/// The world, and a book that counts its records: what no seat counts can't be added.
#[derive(Drop)]
pub(crate) struct Inside<L: Ledger> {
    pub(crate) world: World,
    pub(crate) book: Book<L>,
    ghost counted: { length world.records ≡ book.total },
}

impl<L: Ledger> Inside<L> {
    /// A world, and a book that counts its records.
    pub(crate) fn new(world: World, book: Book<L>) -> Inside<L>
        requires { length world.records ≡ book.total }
        ensures world { result.world ≡ world }
        ensures book { result.book ≡ book }
    {
        Inside { world, book }
    }

    /// The seat's caller begins a call, which the seat counts and notes.
    #[tactic(auto, using(crate::proofs::Storms::one_more))]
    pub(crate) fn begin(&mut self, seat: &mut Seat<L>, command: Command) -> Result<(), WorldFault>
        ensures begins { OnOk result
            (SeatBegins command self.old.world self.new.world seat.old seat.new) }
        ensures world { OnErr result (self.new.world ≡ self.old.world) }
        ensures seat { OnErr result (seat.new ≡ seat.old) }
    {
        let kept = match room_for(&mut seat.commands, &command) {
            Ok(kept) => kept,
            Err(_) => {
                let_go(command);
                return Err(WorldFault::OutOfMemory);
            }
        };
        match self.world.begin(seat.caller, command) {
            Ok(()) => {
                // A list has fewer than 2^64 items, so that the count fits.
                let _records = self.world.history().len();
                note(&mut seat.commands, kept);
                seat.count_record(&mut self.book);
                Ok(())
            }
            Err(fault) => {
                let_go(kept);
                Err(fault)
            }
        }
    }

    /// The seat's caller makes one move, which the seat counts, with its reply if the call is over.
    #[tactic(auto, using(crate::proofs::Storms::one_more, crate::proofs::Storms::moved_adds))]
    pub(crate) fn go(&mut self, seat: &mut Seat<L>, luck: Luck) -> Result<Went, WorldFault>
        ensures moves { IfOk result (λ went.
            HoldsTurn luck went self.old.world self.new.world seat.old seat.new) }
        ensures world { OnErr result (self.new.world ≡ self.old.world) }
        ensures seat { OnErr result (seat.new ≡ seat.old) }
    {
        if seat.replies.reserve(1).is_err() {
            return Err(WorldFault::OutOfMemory);
        }
        self.world.stands();
        let moved = self.world.move_one(seat.caller, luck)?;
        self.world.stands();
        // A list has fewer than 2^64 items, so that the counts fit.
        let _records = self.world.history().len();
        let went = note_reply(&mut seat.replies, moved);
        seat.count_record(&mut self.book);
        seat.count += 1;
        Ok(went)
    }
}
