//! A store that answers by a script, and keeps its log.
ghost use Rattle.std.specs.Prelude.{◌≡◌, ◌∷◌, ◌++◌, ◌<◌, [], false, Some, IfSome, OnOk, vec_len, vec_capacity};
ghost use Rattle.cacache_store.specs.Plain.{Fits, Logs, is_no_memory};

use crate::calls::fitting::{Told, fitting};
use crate::calls::replies::shown_reply;
use crate::calls::steps::shown_step;
use cacache_calls::Reply;
use cacache_core::keeping::{beside, let_go};
use cacache_store::store::{Answer, LogItem, PlainAnswer, PlainFile, PlainStep, PlainTemp, Store};
use rows::Flaw;
use rows::words::is_nothing;
use std::alloc::{AllocError, Global};

/// A store that answers by a script: one text for each step.
#[derive(Drop)]
pub(crate) struct Script {
    alloc: Global,
    /// The answers still to give, the next one last.
    answers: Vec<String>,
    log: Vec<LogItem>,
    /// The steps that were handed back, in words.
    refused: String,
    /// Why the script can't go on.
    flaw: Option<Flaw>,
}

/// Room for one item more.
fn make_room(log: &mut Vec<LogItem>) -> Result<(), AllocError>
    ensures items { log.new.items ≡ log.old.items }
    ensures room { OnOk result (vec_len log.new < vec_capacity log.new) }
{
    log.reserve(1)?;
    Ok(())
}

/// One item more, for which there is room.
fn note(log: &mut Vec<LogItem>, item: LogItem)
    requires { vec_len log.old < vec_capacity log.old }
    ensures { log.new.items ≡ log.old.items ++ item ∷ [] }
{
    let_go(log.push(item));
}

/// One step more of those that were asked for, in words.
fn add(steps: &mut String, step: &str) -> Result<(), AllocError> {
    if !steps.is_empty() {
        steps.push_str("; ")?;
    }
    steps.push_str(step)
}

/// One step more of those that were asked for.
pub(crate) fn add_step(
    alloc: Global,
    steps: &mut String,
    step: &PlainStep,
) -> Result<(), AllocError> {
    let shown = shown_step(alloc, step)?;
    add(steps, shown.as_str())
}

impl Script {
    /// A script of answers with `;` between, and an empty log.
    pub(crate) fn new(alloc: Global, words: &str) -> Result<Script, AllocError> {
        let mut answers = Vec::new(alloc);
        for words in words.split(';') {
            if !is_nothing(words) {
                answers.push(String::from_str(alloc, words.trim())?)?;
            }
        }
        answers.reverse();
        Ok(Script {
            alloc,
            answers,
            log: Vec::new(alloc),
            refused: String::new(alloc),
            flaw: None,
        })
    }

    /// What the script says to the step; None if it refuses memory, or can't go on.
    fn told(&mut self, step: &PlainStep) -> Option<Told>
        ensures fits { IfSome result (λ told. Fits step.now told.answer) }
        ensures copy { IfSome result (λ told. told.copy ≡ told.answer) }
        ensures made { IfSome result (λ told. is_no_memory told.answer ≡ false) }
        ensures log { self.new.log ≡ self.old.log }
    {
        let Some(words) = self.answers.pop() else {
            self.flaw = Some(Flaw::NoAnswerLeft);
            return None;
        };
        if words.as_str() == "NoMemory" {
            return None;
        }
        match fitting(self.alloc, step, words.as_str()) {
            Ok(told) => Some(told),
            Err(flaw) => {
                self.flaw = Some(flaw);
                None
            }
        }
    }

    /// Notes that the step was handed back.
    fn refuse(&mut self, step: &PlainStep)
        ensures { self.new.log ≡ self.old.log }
    {
        if add_step(self.alloc, &mut self.refused, step).is_err() {
            self.flaw = Some(Flaw::NoMemory);
        }
    }

    /// Adds the steps of the log and those that were handed back, in words.
    fn add_steps(&self, steps: &mut String) -> Result<(), AllocError> {
        for item in &self.log {
            if let LogItem::Made(step, _) = item {
                add_step(self.alloc, steps, step)?;
            }
        }
        if !self.refused.is_empty() {
            add(steps, self.refused.as_str())?;
        }
        if steps.is_empty() {
            add(steps, "-")?;
        }
        Ok(())
    }

    /// The steps of the log and those that were handed back, in words.
    fn steps(&self) -> Result<String, AllocError> {
        let mut steps = String::new(self.alloc);
        let (_, steps) = beside(self.add_steps(&mut steps), steps)?;
        Ok(steps)
    }

    /// The steps of the log and those that were handed back, in words, and the reply.
    pub(crate) fn came(&self, reply: &Reply) -> Result<String, Flaw> {
        if let Some(flaw) = self.flaw {
            return Err(flaw);
        }
        if !self.answers.is_empty() {
            return Err(Flaw::Unfit);
        }
        let steps = self.steps()?;
        let (reply, steps) = beside(shown_reply(self.alloc, reply), steps)?;
        Ok(format!(in self.alloc; "{steps} | {reply}")?)
    }
}

impl Store for Script {
    type File = PlainFile;

    type Temp = PlainTemp;

    ghost log = { λ script. Some script.log.items };

    fn step(&mut self, step: PlainStep) -> PlainAnswer
        ensures fits { Fits step result }
        ensures logged { Logs (Some self.old.log.items) (Some self.new.log.items) step result }
    {
        if make_room(&mut self.log).is_err() {
            self.flaw = Some(Flaw::NoMemory);
            return Answer::NoMemory(step);
        }
        match self.told(&step) {
            Some(Told { answer, copy }) => {
                note(&mut self.log, LogItem::Made(step, copy));
                answer
            }
            None => {
                self.refuse(&step);
                Answer::NoMemory(step)
            }
        }
    }

    /// Does nothing: a script holds nothing open.
    fn end_walks(&mut self)
        ensures same { self.new ≡ self.old }
    {}
}
