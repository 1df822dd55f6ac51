//! The core of a writer: what it is asked, and what it learns of its work.
use crate::answers::bytes_of;
use crate::steps::{Stepped, in_turn};
use cacache_core::errors::{Fault, Result as Answered};
use cacache_core::integrity::Algorithm;
use cacache_core::keeping::let_go;
use cacache_polled::{Completion, Finish, Polled, Request, Work, WriterCore};
use rows::Flaw;
use rows::answers::given;
use rows::words::{cut, number_of, word_of};
use std::alloc::{AllocError, Global};

/// What a core answers to a poll. A poll for which memory was refused changed nothing, so it is made once more.
fn polled(alloc: Global, core: &mut WriterCore, poll: Request<'_>) -> Answered<Polled> {
    match core.poll(alloc, poll) {
        Err(error) => {
            let_go(error);
            core.poll(alloc, poll)
        }
        answered => answered,
    }
}

/// Work that is handed out.
fn shown_work(alloc: Global, work: &Work) -> Result<String, AllocError> {
    match work {
        Work::Write(bytes) => { format!(in alloc; "Pending (write {})", word_of(bytes.as_slice())) }
        Work::Flush => String::from_str(alloc, "Pending (flush)"),
        Work::Remove => String::from_str(alloc, "Pending (remove)"),
    }
}

/// What a core answered.
fn shown(alloc: Global, polled: &Polled) -> Result<String, AllocError> {
    match polled {
        Polled::Wrote(count) => format!(in alloc; "Ok({count})"),
        Polled::Done => String::from_str(alloc, "Ok"),
        Polled::Failed(fault) => format!(in alloc; "Err({fault:?})"),
        Polled::Pending => String::from_str(alloc, "Pending"),
        Polled::Start(work) => shown_work(alloc, work),
    }
}

/// What a poll gives.
fn asked(alloc: Global, core: &mut WriterCore, poll: Request<'_>) -> Result<String, Flaw> {
    let polled = given(polled(alloc, core, poll))?;
    let line = shown(alloc, &polled);
    let_go(polled);
    Ok(line?)
}

/// The fault of this name.
fn fault_of(name: &str) -> Result<Fault, Flaw> {
    match name {
        "Device" => Ok(Fault::Device),
        "NotFound" => Ok(Fault::NotFound),
        _ => Err(Flaw::NotRead),
    }
}

/// What a step reports to a core about its work.
fn completion_of(name: &str, what: &str) -> Result<Completion, Flaw> {
    match name {
        "wrote" => Ok(Completion::Wrote(number_of(what)?)),
        "failed" => Ok(Completion::Failed(fault_of(what)?)),
        "flushed" => Ok(Completion::Flushed),
        "removed" => Ok(Completion::Removed),
        "gone" => Ok(Completion::Gone),
        _ => Err(Flaw::NotRead),
    }
}

/// What comes of a completion: nothing, or it is handed back.
fn told(core: &mut WriterCore, completion: Completion) -> &'static str {
    match core.complete(completion) {
        Ok(()) => "-",
        Err(back) if back == completion => "refused",
        Err(_) => "another one is refused",
    }
}

/// What a commit found.
fn found(alloc: Global, finish: &Finish) -> Result<String, AllocError> {
    match finish {
        Finish::Busy => String::from_str(alloc, "Busy"),
        Finish::Closed => String::from_str(alloc, "Closed"),
        Finish::Cancelled => String::from_str(alloc, "Cancelled"),
        Finish::Failed(fault) => format!(in alloc; "Failed({fault:?})"),
        Finish::Held(integrity, count) => format!(in alloc; "Held({integrity}, {count})"),
    }
}

/// What a commit finds before its first step.
fn finished(alloc: Global, core: &mut WriterCore) -> Result<String, Flaw> {
    let finish = given(core.finish(alloc))?;
    let line = found(alloc, &finish);
    let_go(finish);
    Ok(line?)
}

/// What a step that isn't a poll gives.
fn ended(alloc: Global, core: &mut WriterCore, name: &str, what: &str) -> Result<String, Flaw> {
    let word = match name {
        "finish" => return finished(alloc, core),
        "is_closed" => if core.is_closed() { "yes" } else { "no" },
        _ => told(core, completion_of(name, what)?),
    };
    Ok(String::from_str(alloc, word)?)
}

/// A core that is asked.
#[derive(Drop)]
struct Questions {
    alloc: Global,
    core: WriterCore,
}

impl Stepped for Questions {
    fn step(&mut self, step: &str) -> Result<String, Flaw> {
        let alloc = self.alloc;
        let (name, what) = cut(step);
        match name {
            "write" => asked(alloc, &mut self.core, Request::Write(bytes_of(what))),
            "flush" => asked(alloc, &mut self.core, Request::Flush),
            "close" => asked(alloc, &mut self.core, Request::Close),
            _ => ended(alloc, &mut self.core, name, what),
        }
    }
}

/// What the steps of a row give, one after another, from a core that was asked nothing yet.
pub(crate) fn asked_in_turn(alloc: Global, steps: &str) -> Result<String, Flaw> {
    let core = WriterCore::new(Algorithm::Sha256);
    in_turn(alloc, &mut Questions { alloc, core }, steps)
}
