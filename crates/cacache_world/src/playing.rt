//! Events in their order.
ghost use Rattle.std.specs.Prelude.{◌≡◌, OnOk, OnErr, IfErr};
ghost use Rattle.cacache_history.specs.{durable.{QuietMoves.{FewCalls}, Outlasting.{Outlives}}, Headline.{Headline}};
ghost use Rattle.cacache_world.specs.Played.{Happens, HappenAll, CantBe, StopAt};

use crate::event::{Event, WorldFault};
use crate::world::World;

impl World {
    /// Makes one event.
    fn happen(&mut self, event: &Event) -> Result<(), WorldFault>
        ensures happens { OnOk result (Happens event.now self.old self.new) }
        ensures same { OnErr result (self.new ≡ self.old) }
        ensures why { IfErr result (λ fault. CantBe event.now self.old fault) }
    {
        match event {
            Event::Begin(caller, command) => match command.copy() {
                Ok(copy) => self.begin(*caller, copy),
                Err(_) => Err(WorldFault::OutOfMemory),
            },
            Event::Move(caller, luck) => match self.move_one(*caller, *luck) {
                Ok(_) => Ok(()),
                Err(fault) => Err(fault),
            },
            Event::Stop(caller) => self.stop(*caller),
        }
    }

    /// Makes the events in their order, up to the first that can't be. The claim as a whole holds
    /// of what happened: see `Headline`. What its durable commits stored outlasts each later loss of
    /// power: see `Outlives`.
    ///
    /// # Errors
    ///
    /// The fault of that event. Those before it have happened.
    pub fn play(&mut self, events: &[Event]) -> Result<(), WorldFault>
        ensures all { OnOk result (HappenAll events.now self.old self.new) }
        ensures until { IfErr result (λ fault. StopAt events.now self.old self.new fault) }
        ensures headline { Headline self.new }
        ensures durable { Outlives self.new }
        ensures few { FewCalls self.new }
    {
        let outcome = self.run(events);
        self.stands();
        outcome
    }

    /// Carries out the events in order, and stops at the first that can't be carried out.
    fn run(&mut self, events: &[Event]) -> Result<(), WorldFault>
        ensures all { OnOk result (HappenAll events.now self.old self.new) }
        ensures until { IfErr result (λ fault. StopAt events.now self.old self.new fault) }
    {
        for event in events {
            match self.happen(event) {
                Ok(()) => {}
                Err(fault) => return Err(fault),
            }
        }
        Ok(())
    }
}
