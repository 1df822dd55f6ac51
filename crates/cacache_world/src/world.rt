//! Callers with calls that take turns on one disk.
ghost use Rattle.std.specs.Prelude.{◌≡◌, IfOk, IfErr, OnOk, OnErr, []};
ghost use Rattle.cacache_history.specs.{durable.{QuietMoves.{FewCalls}, Outlasting.{Outlives}}, Headline.{Headline}, History.{IsLegal}, declared.record.Record.TheVariants.{Began, Stopped}};
ghost use Rattle.cacache_world.specs.{WorldKept.{setup_of, history_of, last, FilesAreApart, AddsRecord, MovesOn}, declared.event.WorldFault.TheVariants.{OutOfMemory}, Played.{LeftBy}, Faults.{CantMove, CantBegin, CantOpen}};

use crate::callers::{check_has_call, idle, lift, make_room, note, place};
use crate::event::{Move, WorldFault};
use crate::losing::nodes_left;
use crate::outside::plant_all;
use crate::starting::prepare;
use crate::turn::{Call, Turn, advance, turn_parts};
use cacache_calls::Command;
use cacache_core::bytes::Bytes;
use cacache_core::keeping::let_go;
use cacache_core::text::Text;
use cacache_disk::{Disk, Luck};
use cacache_history::Record;
use cacache_loss::Loss;
use std::alloc::Global;
use std::marker::Model;

/// The callers, their calls, the disk, and all that happened. Contracts see the history, which is
/// legal and leads to the disk and the calls as they are.
#[derive(Drop)]
pub struct World {
    alloc: Global,
    cache: Text,
    outside: Vec<(Text, Bytes)>,
    disk: Disk,
    calls: Vec<Option<Call>>,
    begun: u64,
    records: Vec<Record>,
}

impl Model for World {
    ghost use Rattle.cacache_history.specs.History.{History};
    ghost use Rattle.cacache_world.specs.WorldKept.{history_told, WorldIsKept};
    ghost use Rattle.cacache_calls.specs.JsonCode.{data_code};
    ghost use Rattle.std.specs.Coded.{codes};

    ghost Value = { History };

    ghost coded = { Prim.hlevel (codes, data_code) };

    ghost view = { history_told };

    ghost invariant = { WorldIsKept };
}

impl World {
    /// A world in which nothing happened yet: the outside files, and callers without a call.
    ///
    /// # Errors
    ///
    /// `BadCommand` if an outside file can't be one: its path names nothing, or doesn't lie apart
    /// from the cache and from the files before it. `OutOfMemory` if memory is refused.
    #[tactic(auto, using(crate::proofs::Worlds::new_keeps))]
    pub fn new(
        alloc: Global,
        callers: usize,
        cache: Text,
        outside: Vec<(Text, Bytes)>,
    ) -> Result<World, WorldFault>
        ensures world { IfOk result (λ world.
            world ≡ history_of (setup_of cache outside.items callers) []) }
        ensures apart { OnOk result (FilesAreApart cache outside.items) }
        ensures why { IfErr result (λ fault. CantOpen cache outside.items fault) }
    {
        let disk = match plant_all(alloc, cache.as_str(), outside.as_slice()) {
            Ok(disk) => disk,
            Err(fault) => return Err(fault),
        };
        let Ok(calls) = idle(alloc, callers) else {
            return Err(WorldFault::OutOfMemory);
        };
        Ok(World {
            alloc,
            cache,
            outside,
            disk,
            calls,
            begun: 0,
            records: Vec::new(alloc),
        })
    }

    /// How many calls began in its history, which is legal.
    fn calls_begun(&self) -> u64
        ensures legal { IsLegal self.now }
        ensures count { result ≡ (last self.now).begun }
    {
        self.begun
    }

    /// The claim as a whole holds of every world: see `Headline`. What its durable commits stored
    /// outlasts each loss of power: see `Outlives`. Nothing is done.
    pub fn stands(&self)
        ensures headline { Headline self.now }
        ensures durable { Outlives self.now }
        ensures few { FewCalls self.now }
    {
        let _count = self.calls_begun();
    }

    /// A caller without a call begins one.
    ///
    /// # Errors
    ///
    /// Nothing changes then. The first of these that holds: `NoCaller` if there is no such caller;
    /// `Busy` if it has a call; `BadCommand` for an export to a destination that doesn't lie apart
    /// from the cache and from each outside file, or for a link to a target that is no outside
    /// file; `OutOfMemory` if memory is refused.
    pub fn begin(&mut self, caller: usize, command: Command) -> Result<(), WorldFault>
        ensures adds { OnOk result (AddsRecord self.old (Began caller command) self.new) }
        ensures same { OnErr result (self.new ≡ self.old) }
        ensures why { IfErr result (λ fault. CantBegin self.old caller command fault) }
    {
        let job = match prepare(
            self.alloc,
            &self.cache,
            self.outside.as_slice(),
            &self.calls,
            &mut self.records,
            self.begun,
            caller,
            &command,
        ) {
            Ok(job) => job,
            Err(fault) => {
                let_go(command);
                return Err(fault);
            }
        };
        note(&mut self.records, Record::Began(caller, command));
        place(&mut self.calls, caller, Some(job));
        self.begun += 1;
        Ok(())
    }

    /// A caller gives its call up.
    ///
    /// # Errors
    ///
    /// Nothing changes then. `NoCaller` if there is no such caller, `Idle` if it has no call,
    /// `OutOfMemory` if memory is refused.
    pub fn stop(&mut self, caller: usize) -> Result<(), WorldFault>
        ensures adds { OnOk result (AddsRecord self.old (Stopped caller) self.new) }
        ensures same { OnErr result (self.new ≡ self.old) }
        ensures why { IfErr result (λ fault. CantMove self.old caller fault) }
    {
        check_has_call(&self.calls, caller)?;
        if make_room(&mut self.records).is_err() {
            return Err(WorldFault::OutOfMemory);
        }
        let _job = lift(&mut self.calls, caller);
        note(&mut self.records, Record::Stopped(caller));
        Ok(())
    }

    /// A caller's call makes its next step, which turns out as the luck says. If memory is refused
    /// after the step, the call ends with `OutOfMemory`. A call that is over before any step makes
    /// none, and gives its own reply.
    ///
    /// # Errors
    ///
    /// Nothing changes then. `NoCaller` if there is no such caller, `Idle` if it has no call,
    /// `OutOfMemory` if memory is refused before the step, or for the reply of a call that makes
    /// none.
    pub fn move_one(&mut self, caller: usize, luck: Luck) -> Result<Move, WorldFault>
        ensures adds { IfOk result (λ move. MovesOn self.old caller luck move self.new) }
        ensures same { OnErr result (self.new ≡ self.old) }
        ensures why { IfErr result (λ fault. CantMove self.old caller fault) }
    {
        check_has_call(&self.calls, caller)?;
        if make_room(&mut self.records).is_err() {
            return Err(WorldFault::OutOfMemory);
        }
        let job = lift(&mut self.calls, caller);
        match advance(self.alloc, &mut self.disk, job, luck) {
            Turn::Over(reply, copy) => {
                note(
                    &mut self.records,
                    Record::Moved(caller, luck, None, Some(copy)),
                );
                Ok(Move::Done(reply))
            }
            Turn::Back(job) => {
                place(&mut self.calls, caller, Some(job));
                Err(WorldFault::OutOfMemory)
            }
            Turn::Made(step, answer, after) => {
                let (call, reply, told) = turn_parts(after);
                let made = Some((step, answer));
                note(&mut self.records, Record::Moved(caller, luck, made, reply));
                place(&mut self.calls, caller, call);
                Ok(told)
            }
        }
    }

    /// How many callers there are.
    pub fn callers(&self) -> usize
        ensures { result ≡ self.now.setup.callers }
    {
        self.calls.len()
    }

    /// The cache's text.
    pub fn cache(&self) -> &str
        ensures { result.now ≡ self.now.setup.cache }
    {
        self.cache.as_str()
    }

    /// Where its memory is taken from.
    pub fn allocator(&self) -> Global {
        self.alloc
    }

    /// The disk as the last event left it.
    pub fn disk(&self) -> &Disk
        ensures { result.now ≡ (last self.now).tree }
    {
        &self.disk
    }

    /// The disk that is left if the power goes now. The world goes on as if it hadn't.
    ///
    /// # Errors
    ///
    /// `OutOfMemory` if memory is refused.
    pub fn lose(&self, loss: &Loss) -> Result<Disk, WorldFault>
        ensures lost { IfOk result (λ disk. LeftBy self.now loss.now disk) }
        ensures memory { IfErr result (λ fault. fault ≡ OutOfMemory) }
    {
        let cache = self.cache.as_str();
        let outside = self.outside.as_slice();
        match nodes_left(self.alloc, cache, outside, self.records.as_slice(), loss) {
            Ok(nodes) => Ok(Disk::of(nodes)),
            Err(_) => Err(WorldFault::OutOfMemory),
        }
    }

    /// What happened, oldest first.
    pub fn history(&self) -> &[Record]
        ensures { result.now ≡ self.now.records }
    {
        self.records.as_slice()
    }
}
