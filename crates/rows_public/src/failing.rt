//! A store with one step that fails.
ghost use Rattle.std.specs.Prelude.{None};
ghost use Rattle.cacache.specs.Stores.{Fits, Logs, plain_step, plain_answer};

use cacache::errors::Fault;
use cacache::store::{Answer, Step, Store};
use cacache_core::keeping::let_go;
use row_places::Walks;

/// Another store, with one step that fails.
#[derive(Drop)]
pub(crate) struct Failing<'a, S> {
    pub(crate) store: &'a mut S,
    /// How many steps it was asked for.
    pub(crate) asked: usize,
    /// The number of the step that fails, counted from 0.
    pub(crate) fails: usize,
    /// Why it fails; None if memory is refused.
    pub(crate) fault: Option<Fault>,
    /// What it heard of walks. In those that weren't begun nothing changes.
    pub(crate) walks: Walks,
}

impl<'a, S: Store> Store for Failing<'a, S> {
    type File = S::File;

    type Temp = S::Temp;

    ghost log = { λ _. None };

    fn step(&mut self, step: Step<S::File, S::Temp>) -> Answer<S::File, S::Temp>
        ensures fits { Fits (plain_step S.File.seen S.Temp.seen step)
            (plain_answer S.File.seen S.Temp.seen result) }
        ensures logged { Logs None None (plain_step S.File.seen S.Temp.seen step)
            (plain_answer S.File.seen S.Temp.seen result) }
    {
        let number = self.asked;
        self.asked = number.saturating_add(1);
        if self.walks.refuses(&step) {
            let_go(step);
            return Answer::Failed(Fault::Device);
        }
        if number != self.fails {
            return self.store.step(step);
        }
        match self.fault {
            Some(fault) => {
                let_go(step);
                Answer::Failed(fault)
            }
            None => Answer::NoMemory(step),
        }
    }

    fn begin_walks(&mut self) {
        self.walks.begin();
        self.store.begin_walks();
    }

    fn end_walks(&mut self) {
        self.walks = Walks::new();
        self.store.end_walks();
    }
}
