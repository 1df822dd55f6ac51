//! The script: six calls of three callers, each made to its end before the next, with one change in a run.
use crate::facts::Content;
use crate::model::Call;
use crate::side::{Came, Sides};
use crate::tally::Tally;
use cacache_core::keeping::let_go;
use cacache_disk::Luck;
use std::alloc::{AllocError, Global};

/// How many callers the script has.
pub(crate) const CALLERS: usize = 3;

/// The calls in their order, each with its caller.
const SCRIPT: [(usize, Call); 6] = [
    (0, Call::Put(Content::One)),
    (1, Call::Find),
    (2, Call::Put(Content::Two)),
    (2, Call::Get),
    (1, Call::RemoveFully),
    (0, Call::Ls),
];

/// More moves than a call makes.
const MOST: usize = 20;

/// What is otherwise in a run than in the script under plain luck. Moves are counted from 0.
#[derive(Clone, Copy, Debug)]
pub(crate) enum Change {
    Nothing,
    /// Nothing but that memory may be refused once, as `rt try --fail-alloc` does.
    Memory,
    /// The move of this number has this luck.
    Luck(usize, Luck),
    /// After the move of this number its caller gives its call up, and makes no other.
    Stop(usize),
}

/// A run of the script.
pub(crate) struct Run {
    pub(crate) sides: Sides,
    change: Change,
    /// How many moves were made.
    moves: usize,
    /// Who makes no more calls.
    gone: Option<usize>,
}

// Written out, so that it is a call of its own: whoever lets one go has a proof that doesn't go through its parts.
impl Drop for Run {
    fn drop(self) {
        let Run {
            sides: _sides,
            change: _,
            moves: _,
            gone: _,
        } = self;
    }
}

impl Run {
    /// Before the first call.
    pub(crate) fn new(alloc: Global, change: Change) -> Result<Run, AllocError> {
        let spares = matches!(change, Change::Memory);
        let sides = Sides::new(alloc, CALLERS, spares)?;
        Ok(Run {
            sides,
            change,
            moves: 0,
            gone: None,
        })
    }

    /// The luck of the next move.
    fn luck(&self) -> Luck {
        match self.change {
            Change::Luck(number, luck) if number == self.moves => luck,
            _ => Luck::Plain,
        }
    }

    /// Whether the caller stops after the next move.
    fn stops(&self) -> bool {
        match self.change {
            Change::Stop(number) => number == self.moves,
            _ => false,
        }
    }

    /// After a move: the caller stops. Whether world and model agree on that.
    fn stop(&mut self, caller: usize) -> bool {
        self.gone = Some(caller);
        self.sides.stop(caller)
    }

    /// A caller's call makes its next step: None if the call goes on, and otherwise what came.
    fn step(&mut self, alloc: Global, caller: usize) -> Result<Option<Came>, AllocError> {
        let (luck, stops) = (self.luck(), self.stops());
        let came = self.sides.go(caller, luck)?;
        self.moves = self.moves.saturating_add(1);
        if stops && !self.stop(caller) {
            let_go(came);
            let text = String::from_str(alloc, "another answer to a stop")?;
            return Ok(Some(Came::Differs(text)));
        }
        match came {
            Came::On if !stops => Ok(None),
            came => Ok(Some(came)),
        }
    }

    /// Makes all moves of a caller's call.
    fn moves(&mut self, alloc: Global, caller: usize) -> Result<Came, AllocError> {
        for _ in 0..MOST {
            if let Some(came) = self.step(alloc, caller)? {
                return Ok(came);
            }
        }
        Ok(Came::Differs(String::from_str(alloc, "a call without an end")?))
    }

    /// Makes a call: how the sides differ, if they do.
    fn call(
        &mut self,
        alloc: Global,
        caller: usize,
        call: Call,
        tally: &mut Tally,
    ) -> Result<Option<String>, AllocError> {
        if self.gone == Some(caller) {
            return Ok(None);
        }
        self.sides.begin(caller, call)?;
        match self.moves(alloc, caller)? {
            Came::On => Ok(None),
            Came::Over(reply) => {
                tally.reply(reply.as_str());
                Ok(None)
            }
            Came::Differs(text) => Ok(Some(text)),
        }
    }

    /// Makes all calls of the script: how the sides differ, if they do.
    pub(crate) fn calls(
        &mut self,
        alloc: Global,
        tally: &mut Tally,
    ) -> Result<Option<String>, AllocError> {
        for (caller, call) in &SCRIPT {
            if let Some(text) = self.call(alloc, *caller, *call, tally)? {
                return Ok(Some(text));
            }
        }
        tally.run(self.moves);
        self.sides.differing()
    }
}

/// How the sides of a run with this change differ, if they do.
pub(crate) fn played(
    alloc: Global,
    change: Change,
    tally: &mut Tally,
) -> Result<Option<String>, AllocError> {
    let mut run = Run::new(alloc, change)?;
    run.calls(alloc, tally)
}
