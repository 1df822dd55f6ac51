//! Whether seats count all moves of a world together.
ghost use Rattle.std.specs.Prelude.{◌≡◌, sum_by, IsTrue};
ghost use Rattle.cacache_shared.specs.Lines.{is_move, moves};

use crate::seat::Seat;
use cacache_history::Record;
use cacache_world::World;
use std::sync::ledger::Ledger;

/// Whether a record is a move.
fn is_move(line: &Record) -> bool
    ensures { result ≡ is_move line.now }
{
    match line {
        Record::Moved(_, _, _, _) => true,
        _ => false,
    }
}

/// How many moves there are in these records.
fn count_moves(lines: &[Record]) -> usize
    ensures { result ≡ moves lines.now }
{
    let mut count = 0;
    for line in lines {
        if is_move(line) {
            count += 1;
        }
    }
    count
}

/// How many moves a world has.
pub(crate) fn all_moves(world: &World) -> u64
    ensures { result ≡ moves world.now.records }
{
    count_moves(world.history()) as u64
}

/// Whether the seats together count all moves of the world.
pub(crate) fn count_all<L: Ledger>(world: &World, seats: &[Seat<L>]) -> bool
    ensures { IsTrue result → sum_by (λ s. s.count) seats.now ≡ moves world.now.records }
{
    let mut left = all_moves(world);
    for seat in seats {
        let Some(less) = left.checked_sub(seat.count()) else {
            return false;
        };
        left = less;
    }
    left == 0
}
