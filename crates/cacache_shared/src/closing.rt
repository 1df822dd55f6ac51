//! Whether seats agree with the records of a world, and what they count together.
ghost use Rattle.std.specs.Prelude.{◌≡◌, ◌+◌, All, sum_by, map, vec_len, IsTrue, IfSome, IfNone};
ghost use Rattle.cacache_threads.specs.Said.{said_command, said_reply};
ghost use Rattle.cacache_shared.specs.{Lines.{commands_of, replies_of}, Seats.{SeatAgrees}};

use crate::agreeing::{commands_agree, replies_agree};
use crate::lines::{later_in, moves_in};
use crate::seat::Seat;
use cacache_history::Record;
use cacache_world::World;
use std::alloc::Global;
use std::sync::ledger::{Ledger, Share};

/// Whether each seat agrees with its caller's records; false if memory is refused.
pub(crate) fn all_agree<L: Ledger>(
    alloc: Global,
    world: &World,
    from: usize,
    seats: &[Seat<L>],
) -> bool
    ensures { IsTrue result → All (SeatAgrees from world.now.records) seats.now }
{
    seats.iter().all(|seat| agrees(alloc, world, from, seat))
}

/// Whether a seat agrees with its caller's records; false if memory is refused.
fn agrees<L: Ledger>(alloc: Global, world: &World, from: usize, seat: &Seat<L>) -> bool
    ensures { IsTrue result → SeatAgrees from world.now.records seat.now }
{
    if seat.count() != moves_in(world, seat.caller()) {
        return false;
    }
    let later = later_in(world, from);
    began_these(alloc, later, seat) && got_these(alloc, later, seat)
}

/// Whether the seat's commands are those that its caller began in these records.
fn began_these<L: Ledger>(alloc: Global, later: &[Record], seat: &Seat<L>) -> bool
    ensures { IsTrue result → map said_command seat.now.commands
        ≡ map said_command (commands_of seat.now.caller later.now) }
{
    match commands_agree(alloc, later, seat.caller(), seat.commands()) {
        Ok(agree) => agree,
        Err(_) => false,
    }
}

/// Whether the seat's replies are those that its caller was given in these records.
fn got_these<L: Ledger>(alloc: Global, later: &[Record], seat: &Seat<L>) -> bool
    ensures { IsTrue result → map said_reply seat.now.replies
        ≡ map said_reply (replies_of seat.now.caller later.now) }
{
    match replies_agree(alloc, later, seat.caller(), seat.replies()) {
        Ok(agree) => agree,
        Err(_) => false,
    }
}

/// All parts of the seats in one share, which counts all their records. None if there are no seats.
pub(crate) fn merge_seats<L: Ledger>(seats: Vec<Seat<L>>) -> Option<Share<L>>
    ensures none { IfNone result (vec_len seats ≡ 0) }
    ensures parts { IfSome result (λ all. all.parts ≡ vec_len seats) }
    ensures amount { IfSome result (λ all. all.amount ≡ sum_by (λ s. s.records) seats.items) }
{
    let mut all: Option<Share<L>> = None;
    for seat in seats {
        let share = seat.into_share();
        all = Some(join_shares(all, share));
    }
    all
}

/// Both shares in one.
fn join_shares<L: Ledger>(all: Option<Share<L>>, share: Share<L>) -> Share<L>
    ensures none { IfNone all (result ≡ share) }
    ensures parts { IfSome all (λ s. result.parts ≡ s.parts + share.parts) }
    ensures amount { IfSome all (λ s. result.amount ≡ s.amount + share.amount) }
{
    match all {
        None => share,
        Some(mut all) => {
            all.merge(share);
            all
        }
    }
}
