//! One caller of a shared world.
ghost use Rattle.std.specs.Prelude.{◌≡◌, ◌+◌, ◌<◌, ◌≤◌, ◌^◌, ◌++◌, ◌∷◌, [], IfOk, OnOk, vec_len, vec_capacity};
ghost use Rattle.cacache_shared.specs.Seats.{blank_seat, replies_after, went_of};

use cacache_calls::{Command, Reply};
use cacache_world::Move;
use std::alloc::{AllocError, Global};
use std::marker::Model;
use std::sync::ledger::{Book, Ledger, Share};

/// What came of a move.
#[derive(Clone, Copy, Debug, PartialEq, Eq)]
pub enum Went {
    /// The call goes on.
    More,
    /// The call is over, and the seat has its reply.
    Done,
}

/// One caller of a shared world. It can't be copied. Contracts see the caller, how many records and how
/// many moves are its own, what it began and what it was answered.
#[derive(Drop)]
pub struct Seat<L: Ledger> {
    pub(crate) caller: usize,
    pub(crate) records: u64,
    pub(crate) count: u64,
    pub(crate) commands: Vec<Command>,
    pub(crate) replies: Vec<Reply>,
    pub(crate) share: Share<L>,
}

impl<L: Ledger> Model for Seat<L> {
    ghost use Rattle.std.specs.Prelude.{◌≡◌, ◌≤◌};
    ghost use Rattle.std.specs.Coded.{codes};
    ghost use Rattle.cacache_calls.specs.JsonCode.{data_code};
    ghost use Rattle.cacache_shared.specs.Seats.{Taken};

    ghost Value = { Taken };

    ghost coded = { Prim.hlevel (codes, data_code) };

    ghost view = { λ s. record {
      caller = s.caller;
      records = s.records;
      count = s.count;
      commands = s.commands.items;
      replies = s.replies.items;
    } };

    ghost invariant = { λ s.
        (s.share.parts ≡ 1) × (s.share.amount ≡ s.records) × (s.count ≤ s.records) };
}

impl<L: Ledger> Seat<L> {
    /// The seat of a caller that has so many records, so many of them moves.
    pub(crate) fn new(
        alloc: Global,
        caller: usize,
        records: u64,
        count: u64,
        share: Share<L>,
    ) -> Seat<L>
        requires parts { share.parts ≡ 1 }
        requires amount { share.amount ≡ records }
        requires moves { count ≤ records }
        ensures { result ≡ blank_seat caller records count }
    {
        Seat {
            caller,
            records,
            count,
            commands: Vec::new(alloc),
            replies: Vec::new(alloc),
            share,
        }
    }

    /// The caller's number, from 0.
    pub fn caller(&self) -> usize
        ensures { result ≡ self.now.caller }
    {
        self.caller
    }

    /// How many records of the world are the caller's: beginnings, moves and, from before the seat was made, stops.
    pub fn records(&self) -> u64
        ensures { result ≡ self.now.records }
    {
        self.records
    }

    /// How many moves the caller made, since the world was made.
    pub fn count(&self) -> u64
        ensures { result ≡ self.now.count }
    {
        self.count
    }

    /// The commands that it began since the seat was made, oldest first.
    pub fn commands(&self) -> &[Command]
        ensures { result.now ≡ self.now.commands }
    {
        self.commands.as_slice()
    }

    /// The replies that it was given since the seat was made, oldest first.
    pub fn replies(&self) -> &[Reply]
        ensures { result.now ≡ self.now.replies }
    {
        self.replies.as_slice()
    }

    /// One record more is the caller's, which the book counts too.
    pub(crate) fn count_record(&mut self, book: &mut Book<L>)
        requires fits { book.old.total + 1 < 2 ^ 64 }
        ensures known { self.old.records ≤ book.old.total }
        ensures total { book.new.total ≡ book.old.total + 1 }
        ensures seat { self.new ≡ record self.old { records = self.old.records + 1 } }
    {
        book.audit(&mut self.share);
        book.add(&mut self.share, 1);
        self.records += 1;
    }

    /// Its part of the ledger.
    pub(crate) fn into_share(self) -> Share<L>
        ensures { (result.parts ≡ 1) × (result.amount ≡ self.records) }
    {
        let Seat {
            caller: _,
            records: _,
            count: _,
            commands: _,
            replies: _,
            share,
        } = self;
        share
    }
}

/// A copy of a command, and room for it.
pub(crate) fn room_for(
    commands: &mut Vec<Command>,
    command: &Command,
) -> Result<Command, AllocError>
    ensures copy { IfOk result (λ kept. kept ≡ command.now) }
    ensures same { commands.new.items ≡ commands.old.items }
    ensures room { OnOk result (vec_len commands.new < vec_capacity commands.new) }
{
    commands.reserve(1)?;
    command.copy()
}

/// One command more, for which there is room.
pub(crate) fn note(commands: &mut Vec<Command>, last: Command)
    requires { vec_len commands.old < vec_capacity commands.old }
    ensures { commands.new.items ≡ commands.old.items ++ last ∷ [] }
{
    commands.push(last).unwrap();
}

/// The reply of a move, if there is one, is noted: there is room for it.
pub(crate) fn note_reply(replies: &mut Vec<Reply>, move_made: Move) -> Went
    requires { vec_len replies.old < vec_capacity replies.old }
    ensures told { result ≡ went_of move_made }
    ensures noted { replies.new.items ≡ replies_after move_made replies.old.items }
{
    match move_made {
        Move::More => Went::More,
        Move::Done(reply) => {
            replies.push(reply).unwrap();
            Went::Done
        }
    }
}
