//! The core of a polled writer.
ghost use Rattle.std.specs.Prelude.{◌≡◌, ◌++◌, ◌∷◌, ◌↔◌, ℕ, List, [], IfOk, IfErr, IsOk, IfSome, IfNone, IsTrue};
ghost use Rattle.cacache_core.specs.{declared.errors.Error.TheVariants.{OutOfMemory}, Hashers.{algorithm_of}};
ghost use Rattle.cacache_polled.specs.{Table.{ask_write, write_again as again, fresh, polled, completed, ended_write, closed, ask_of, ask_flush, ask_close}, Events.{Event, asks, ends, Answered, Ended, HasHeld, HasSeen, CommitFinds, busy}};

use crate::kinds::{Completion, Desk, Finish, Finished, Polled, Request, State, Work};
use cacache_core::bytes::Bytes;
use cacache_core::errors::{Fault, Result};
use cacache_core::hasher::Hasher;
use cacache_core::integrity::Algorithm;
use std::alloc::Global;

/// What a polled writer knows of its work. It holds the bytes that were taken by their digest and their count.
#[derive(Drop)]
pub struct WriterCore {
    pub(crate) desk: Desk,
    pub(crate) hasher: Hasher,
    /// How many bytes are held; 2^64 - 1 stays as it is.
    pub(crate) count: u64,
}

/// A poll that writes while these bytes are out, or aren't answered.
fn write_again(out: &Bytes, bytes: &[u8]) -> Polled
    ensures { result ≡ again out.now bytes.now }
{
    if out.as_slice() == bytes {
        Polled::Pending
    } else {
        Polled::Failed(Fault::OtherBytes)
    }
}

impl WriterCore {
    /// A core that was asked nothing yet.
    pub fn new(algorithm: Algorithm) -> WriterCore
        ensures desk { result.desk ≡ fresh }
        ensures held { HasHeld result [] }
        ensures seen { HasSeen result [] }
        ensures algorithm { algorithm_of result.hasher ≡ algorithm }
    {
        WriterCore {
            desk: Desk {
                state: State::Idle,
                finished: None,
                flushed: None,
                is_gone: false,
                kept: None,
            },
            hasher: Hasher::new(algorithm),
            count: 0,
        }
    }

    /// Whether no work comes any more.
    pub fn is_closed(&self) -> bool
        ensures { IsTrue result ↔ (self.now.desk.state ≡ State.Closed) }
    {
        matches!(self.desk.state, State::Closed)
    }

    /// One poll, by the table: what it answers, and what it changes. It does no work itself.
    ///
    /// `OutOfMemory` is the only error, and changes nothing. Only a write that starts work can meet it.
    pub fn poll(&mut self, alloc: Global, poll: Request<'_>) -> Result<Polled>
        ensures told { IfOk result (λ r. r ≡ (polled self.old.desk (ask_of poll.entry)).1) }
        ensures after { IfOk result
            (λ _. self.new.desk ≡ (polled self.old.desk (ask_of poll.entry)).0) }
        ensures held { self.new ≡ record self.old { desk = self.new.desk } }
        ensures err { IfErr result (λ e. (e ≡ OutOfMemory) × (self.new ≡ self.old)) }
        ensures seen { IfOk result (λ _. (events : List Event) → HasSeen self.old events
            → HasSeen self.new (events ++ asks (ask_of poll.entry) ∷ [])) }
        ensures flush { ask_of poll.entry ≡ ask_flush → IsOk result }
        ensures close { ask_of poll.entry ≡ ask_close → IsOk result }
    {
        self.answer(alloc, poll)
    }

    /// What `poll` does, by the table.
    fn answer(&mut self, alloc: Global, poll: Request<'_>) -> Result<Polled>
        ensures answered { Answered self.old self.new (ask_of poll.entry) result }
        ensures flush { ask_of poll.entry ≡ ask_flush → IsOk result }
        ensures close { ask_of poll.entry ≡ ask_close → IsOk result }
    {
        match poll {
            Request::Write(bytes) => self.poll_write(alloc, bytes),
            Request::Flush => Ok(self.poll_flush()),
            Request::Close => Ok(self.poll_close()),
        }
    }

    /// A poll that writes, by the table.
    fn poll_write(&mut self, alloc: Global, bytes: &[u8]) -> Result<Polled>
        ensures { Answered self.old self.new (ask_write bytes.now) result }
    {
        match &self.desk.state {
            State::Closed | State::Busy(Work::Remove) => Ok(Polled::Failed(Fault::Closed)),
            State::Busy(Work::Write(out)) => Ok(write_again(out, bytes)),
            State::Busy(Work::Flush) => match &self.desk.finished {
                Some(f) => Ok(write_again(&f.bytes, bytes)),
                None => Ok(Polled::Pending),
            },
            State::Idle => self.write_idle(alloc, bytes),
        }
    }

    /// A poll that writes while no work is out, by the table.
    fn write_idle(&mut self, alloc: Global, bytes: &[u8]) -> Result<Polled>
        requires { self.now.desk.state ≡ State.Idle }
        ensures { Answered self.old self.new (ask_write bytes.now) result }
    {
        match self.desk.finished.take() {
            Some(f) if f.bytes.as_slice() == bytes => match f.outcome {
                Ok(count) => Ok(Polled::Wrote(count)),
                Err(fault) => Ok(Polled::Failed(fault)),
            },
            Some(f) => {
                self.desk.finished = Some(f);
                Ok(Polled::Failed(Fault::OtherBytes))
            }
            None if bytes.is_empty() => Ok(Polled::Wrote(0)),
            None => {
                let kept = Bytes::new(alloc, Vec::from_slice(alloc, bytes)?)?;
                let out = kept.share()?;
                self.desk.state = State::Busy(Work::Write(kept));
                self.desk.flushed = None;
                Ok(Polled::Start(Work::Write(out)))
            }
        }
    }

    /// A poll that flushes, by the table.
    fn poll_flush(&mut self) -> Polled
        ensures { Answered self.old self.new ask_flush (Ok result) }
    {
        match &self.desk.state {
            State::Closed => Polled::Done,
            State::Busy(_) => Polled::Pending,
            State::Idle => match self.desk.flushed.take() {
                Some(Ok(())) => Polled::Done,
                Some(Err(fault)) => Polled::Failed(fault),
                None => {
                    self.desk.state = State::Busy(Work::Flush);
                    Polled::Start(Work::Flush)
                }
            },
        }
    }

    /// A poll that closes, by the table.
    fn poll_close(&mut self) -> Polled
        ensures { Answered self.old self.new ask_close (Ok result) }
    {
        match &self.desk.state {
            State::Closed => match self.desk.kept.take() {
                Some(fault) => Polled::Failed(fault),
                None => Polled::Done,
            },
            State::Busy(_) => Polled::Pending,
            State::Idle => {
                self.desk.state = State::Busy(Work::Remove);
                Polled::Start(Work::Remove)
            }
        }
    }

    /// A write is over.
    fn end_write(&mut self, outcome: std::result::Result<usize, Fault>)
        ensures desk { self.new.desk ≡ ended_write self.old.desk self.old.desk.state outcome }
        ensures held { self.new ≡ record self.old { desk = self.new.desk } }
    {
        if let State::Busy(Work::Write(bytes)) = std::mem::replace(
            &mut self.desk.state,
            State::Idle,
        ) {
            self.desk.finished = Some(Finished { bytes, outcome });
        }
    }

    /// The work that is out ended so. It takes no memory.
    ///
    /// An ending that doesn't fit the work is handed back, and changes nothing.
    pub fn complete(&mut self, completion: Completion) -> std::result::Result<(), Completion>
        ensures refused { IfNone (completed self.old.desk completion)
            ((result ≡ Err completion) × (self.new ≡ self.old)) }
        ensures desk { IfSome (completed self.old.desk completion)
            (λ d. IsOk result × (self.new.desk ≡ d.0)) }
        ensures held { IfSome (completed self.old.desk completion)
            (λ d. (m : List ℕ) → HasHeld self.old m → HasHeld self.new (m ++ d.1)) }
        ensures seen { (events : List Event) → HasSeen self.old events
            → HasSeen self.new (events ++ ends completion ∷ []) }
        ensures algorithm { algorithm_of self.new.hasher ≡ algorithm_of self.old.hasher }
    {
        self.end(completion)
    }

    /// What `complete` does, by the table.
    fn end(&mut self, completion: Completion) -> std::result::Result<(), Completion>
        ensures ended { Ended self.old self.new completion result }
        ensures algorithm { algorithm_of self.new.hasher ≡ algorithm_of self.old.hasher }
    {
        let count = self.count;
        match (&self.desk.state, completion) {
            (State::Busy(Work::Write(bytes)), Completion::Wrote(n)) if n <= bytes.len() => {
                self.hasher.update(&bytes.as_slice()[..n]);
                self.count = count.saturating_add(n as u64);
                self.end_write(Ok(n));
            }
            (State::Busy(Work::Write(_)), Completion::Failed(fault)) => self.end_write(Err(fault)),
            (State::Busy(Work::Flush), Completion::Flushed) => {
                self.desk.state = State::Idle;
                self.desk.flushed = Some(Ok(()));
            }
            (State::Busy(Work::Flush), Completion::Failed(fault)) => {
                self.desk.state = State::Idle;
                self.desk.flushed = Some(Err(fault));
            }
            (State::Busy(Work::Remove), Completion::Removed) => self.desk.state = State::Closed,
            (State::Busy(Work::Remove), Completion::Failed(fault)) => {
                self.desk.state = State::Closed;
                self.desk.kept = Some(fault);
            }
            (State::Busy(_), Completion::Gone) => {
                self.desk.state = State::Closed;
                self.desk.is_gone = true;
            }
            (_, completion) => return Err(completion),
        }
        Ok(())
    }

    /// What a commit does up to its first step. The core is closed then, unless work is out.
    ///
    /// `OutOfMemory` is the only error, and closes the core too.
    pub fn finish(&mut self, alloc: Global) -> Result<Finish>
        ensures found { IfOk result
            (λ f. (m : List ℕ) → HasHeld self.old m → CommitFinds self.old m f) }
        ensures err { IfErr result (λ e. e ≡ OutOfMemory) }
        ensures after { self.new.desk ≡ closed self.old.desk }
        ensures busy { busy self.old.desk → (self.new ≡ self.old) × (result ≡ Ok Finish.Busy) }
        ensures free { result ≡ Ok Finish.Busy → busy self.old.desk }
        ensures algorithm { algorithm_of self.new.hasher ≡ algorithm_of self.old.hasher }
    {
        match self.desk.state {
            State::Busy(_) => return Ok(Finish::Busy),
            State::Closed => {
                return Ok(if self.desk.is_gone {
                    Finish::Cancelled
                } else {
                    Finish::Closed
                });
            }
            State::Idle => {}
        }
        self.desk.state = State::Closed;
        if let Some(finished) = &self.desk.finished {
            if let Err(fault) = finished.outcome {
                return Ok(Finish::Failed(fault));
            }
        }
        let fresh = Hasher::new(self.hasher.algorithm());
        let hasher = std::mem::replace(&mut self.hasher, fresh);
        Ok(Finish::Held(hasher.result(alloc)?, self.count))
    }
}
