//! The calls of the scripts, move by move, as the definitions say: the step that comes next, what it does to the
//! value under its luck, and the reply if the call is over. A put, a lookup and a walk have files of their own.
use crate::facts::Content;
use crate::looking::{get, remove, seek};
use crate::putting::put;
use crate::value::Value;
use crate::walking::walk;
use cacache_core::errors::Fault;
use cacache_core::keeping::set;
use cacache_disk::Luck;
use std::alloc::{AllocError, Global};

/// A call of the scripts.
#[derive(Clone, Copy, PartialEq, Eq, Debug)]
pub(crate) enum Call {
    Put(Content),
    Find,
    Get,
    RemoveFully,
    Ls,
}

/// How far a call is: the step that comes next.
#[derive(Clone, Copy)]
pub(crate) enum At {
    /// The steps of a put. So many bytes were written.
    TempFolder,
    Temp,
    Write(usize),
    ContentFolder,
    Persist,
    /// The persist failed so: whether the content is there.
    Ask(Fault),
    IndexFolder,
    Append,
    /// The bucket is read, and then what it leads to.
    Look,
    Content(Content),
    Bucket,
    /// The folder of this level is listed, or below the last one the bucket is read.
    Level(usize),
}

/// What a move comes to.
#[derive(Drop)]
pub(crate) enum After {
    On(At),
    Over(String),
}

/// A call that is under way.
#[derive(Clone, Copy)]
pub(crate) struct Going {
    pub(crate) call: Call,
    /// How many calls began before.
    pub(crate) number: u64,
    pub(crate) at: At,
}

/// The value, and the call of each caller.
pub(crate) struct Model {
    pub(crate) alloc: Global,
    pub(crate) value: Value,
    calls: Vec<Option<Going>>,
    begun: u64,
}

// Written out, so that it is a call of its own: whoever lets one go has a proof that doesn't go through its parts.
impl Drop for Model {
    fn drop(self) {
        let Model {
            alloc: _,
            value: _value,
            calls: _calls,
            begun: _,
        } = self;
    }
}

/// Where a call begins.
fn first(call: Call) -> At {
    match call {
        Call::Put(_) => At::TempFolder,
        Call::Find | Call::Get | Call::RemoveFully => At::Look,
        Call::Ls => At::Level(0),
    }
}

impl Model {
    /// Before any call of so many callers.
    pub(crate) fn new(alloc: Global, callers: usize) -> Result<Model, AllocError> {
        let mut calls = Vec::new(alloc);
        for _ in 0..callers {
            calls.push(None)?;
        }
        Ok(Model {
            alloc,
            value: Value::new(alloc),
            calls,
            begun: 0,
        })
    }

    /// Puts a caller's call in its place, or none.
    fn place(&mut self, caller: usize, call: Option<Going>) {
        if let Some(slot) = self.calls.get_mut(caller) {
            set(slot, call);
        }
    }

    /// The call of a caller.
    fn call_of(&self, caller: usize) -> Option<Going> {
        match self.calls.get(caller) {
            Some(call) => *call,
            None => None,
        }
    }

    /// A caller begins a call.
    pub(crate) fn begin(&mut self, caller: usize, call: Call) {
        let going = Going {
            call,
            number: self.begun,
            at: first(call),
        };
        self.place(caller, Some(going));
        self.begun = self.begun.saturating_add(1);
    }

    /// A caller gives its call up: whether it has one.
    pub(crate) fn stop(&mut self, caller: usize) -> bool {
        let is_there = self.call_of(caller).is_some();
        self.place(caller, None);
        is_there
    }

    /// A caller's call makes its next step: the reply, if the call is over then.
    pub(crate) fn go(&mut self, caller: usize, luck: Luck) -> Result<Option<String>, AllocError> {
        let Some(going) = self.call_of(caller) else {
            return Ok(Some(String::from_str(self.alloc, "no call")?));
        };
        match self.moved(going, luck)? {
            After::On(at) => {
                self.place(caller, Some(Going { at, ..going }));
                Ok(None)
            }
            After::Over(reply) => {
                self.place(caller, None);
                Ok(Some(reply))
            }
        }
    }

    /// What the next step of a call comes to.
    fn moved(&mut self, going: Going, luck: Luck) -> Result<After, AllocError> {
        let alloc = self.alloc;
        let value = &mut self.value;
        match going.call {
            Call::Put(content) => put(alloc, value, going, content, luck),
            Call::Find => seek(alloc, value, luck),
            Call::Get => get(alloc, value, going.at, luck),
            Call::RemoveFully => remove(alloc, value, going.at, luck),
            Call::Ls => walk(alloc, value, going.at, luck),
        }
    }
}
