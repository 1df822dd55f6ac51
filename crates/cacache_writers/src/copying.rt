//! Readers that are copied by polls.
ghost use Rattle.std.specs.Prelude.{◌≡◌, ◌<◌, ◌≤◌, ◌↔◌, ◌++◌, [], ⊤, ℕ, List, Result, IfOk, IsTrue, drop, length, take};
ghost use Rattle.futures.specs.{Poll.{IfReady, OnPending}, Task.{Covers, IsArmed, Keeps}};
ghost use Rattle.cacache_core.specs.{declared.errors.Error.{Error}, Errors.{fault_of}};
ghost use Rattle.cacache_async.specs.Futures.{TellsFault};
ghost use Rattle.cacache_writers.specs.Writing.{CopiesOn, Fills, GoesOn, IsFilling, IsFresh, ReadsBehind, ReadsNext, WritesNext, held_of, piece_of, WritesOn};

use crate::writing::{PIECE, PollWrite, write_on};
use cacache_core::errors::{Error, Fault, Result};
use cacache_core::text::Text;
use cacache_store::store::failed;
use futures::Future;
use futures::task::{Context, Poll};
use std::alloc::{AllocError, Global};
use std::io;
use std::io::{ErrorKind, Read};
use std::sync::Wait;

/// What a copy has read.
#[derive(Drop)]
pub struct Gathered {
    /// What reads are made into: empty before the first, then of one length.
    buffer: Vec<u8>,
    /// How many of its bytes were read: the piece that is handed on next.
    read: usize,
    /// How many of these were taken.
    taken: usize,
    /// How many bytes were read in all; 2^64 - 1 stays as it is.
    count: u64,
    /// How the reads ended: at the end of the reader, or by an error of this kind. None while they go on.
    ended: Option<std::result::Result<(), ErrorKind>>,
}

/// The future of `Writer::copy_from`: ready with the number of bytes once the reader has ended and all were taken, or
/// with the first error.
#[derive(Drop)]
pub struct CopyFuture<'a, R, W, F> {
    rt: &'a R,
    alloc: Global,
    writer: &'a mut W,
    reader: F,
    gathered: Gathered,
}

impl Gathered {
    /// Whether reads go on before anything is written.
    fn is_filling(&self) -> bool
        ensures { IsTrue result ↔ IsFilling self.now }
    {
        let piece = last_read(&self.buffer, self.read);
        piece.len() < PIECE && self.taken == 0 && self.ended.is_none()
    }

    /// Reads some bytes to the end of the piece, and returns how many.
    fn read_on<F: Read>(&mut self, reader: &mut F) -> io::Result<usize>
        requires { length (piece_of self.old) < 65536 }
        ensures fills { Fills (F.remaining reader.old) self.old
            (F.remaining reader.new) self.new result }
        ensures same { (self.new.count ≡ self.old.count) × (self.new.ended ≡ self.old.ended) }
    {
        let start = last_read(&self.buffer, self.read).len();
        self.read = start;
        make_room(&mut self.buffer)?;
        let count = read_behind(reader, &mut self.buffer, start)?;
        self.read = start + count;
        Ok(count)
    }

    /// Reads some bytes to the end of the piece, and notes how many, or how the reads ended.
    fn read_next<F: Read>(&mut self, reader: &mut F)
        requires { length (piece_of self.old) < 65536 }
        ensures { ReadsNext (F.remaining reader.old) self.old (F.remaining reader.new) self.new }
    {
        match self.read_on(reader) {
            Ok(0) => self.ended = Some(Ok(())),
            Ok(size) => self.count = self.count.saturating_add(size as u64),
            Err(error) if error.kind() == ErrorKind::Interrupted => {}
            Err(error) => self.ended = Some(Err(error.kind())),
        }
    }

    /// What comes once all of the piece was taken: the next piece, or the end of the copy.
    fn go_on(&mut self, cx: &mut Context<'_>, alloc: Global) -> Poll<Result<u64>>
        requires { held_of self.old ≡ [] }
        ensures goes { GoesOn self.old.ended self.new result }
        ensures same { (self.new.count ≡ self.old.count) × (self.new.ended ≡ self.old.ended) }
        ensures none { held_of self.new ≡ [] }
        ensures armed { OnPending result (IsArmed cx.new) }
        ensures kept { Keeps cx.old cx.new }
    {
        match self.ended {
            None => {
                self.read = 0;
                self.taken = 0;
                cx.yield_now()
            }
            Some(Ok(())) => Poll::Ready(Ok(self.count)),
            Some(Err(kind)) => Poll::Ready(Err(unread(alloc, kind))),
        }
    }

    /// Writes on what is held of the piece. Once all of it was taken, reads go on, or the copy ends.
    fn write_next<R: Wait, W: PollWrite>(
        &mut self,
        rt: &R,
        cx: &mut Context<'_>,
        alloc: Global,
        writer: &mut W,
    ) -> Poll<Result<u64>>
        ensures writes { WritesNext W.polls writer.old self.old writer.new self.new result }
        ensures armed { OnPending result (IsArmed cx.new) }
        ensures kept { Keeps cx.old cx.new }
    {
        let piece = last_read(&self.buffer, self.read);
        match write_held(rt, cx, alloc, writer, piece, &mut self.taken) {
            Poll::Ready(Ok(())) => self.go_on(cx, alloc),
            Poll::Ready(Err(error)) => Poll::Ready(Err(error)),
            Poll::Pending => Poll::Pending,
        }
    }
}

/// Makes the buffer at least as long as a piece.
fn make_room(buffer: &mut Vec<u8>) -> std::result::Result<(), AllocError>
    ensures front { (more : List ℕ) × (buffer.new.items ≡ buffer.old.items ++ more) }
    ensures room { IfOk result (λ _. 65536 ≤ length buffer.new.items) }
{
    if buffer.len() < PIECE {
        buffer.resize(PIECE, 0)?;
    }
    Ok(())
}

/// Reads some bytes to the place behind so many of the buffer, and returns how many.
fn read_behind<F: Read>(reader: &mut F, buffer: &mut [u8], start: usize) -> io::Result<usize>
    requires { start < length buffer.old }
    ensures { ReadsBehind (F.remaining reader.old) (take start buffer.old)
        (F.remaining reader.new) buffer.new result }
{
    reader.read(&mut buffer[start..])
}

/// Why a copy ends early: its reader failed, with an error of this kind.
fn unread(alloc: Global, kind: ErrorKind) -> Error
    ensures { TellsFault (fault_of kind) result }
{
    let text = format!(in alloc; "Failed to read what is copied: {kind}");
    failed(Fault::from(kind), text.map(Text::new))
}

/// What was read last.
fn last_read(buffer: &[u8], read: usize) -> &[u8]
    ensures { result.now ≡ take read buffer.now }
{
    buffer.get(..read).unwrap_or(buffer)
}

/// What of the bytes isn't taken yet.
fn untaken(held: &[u8], taken: usize) -> &[u8]
    ensures { result.now ≡ drop taken held.now }
{
    held.get(taken..).unwrap_or(b"")
}

/// Writes on what is held, and counts what was taken of it.
fn write_held<R: Wait, W: PollWrite>(
    rt: &R,
    cx: &mut Context<'_>,
    alloc: Global,
    writer: &mut W,
    held: &[u8],
    taken: &mut usize,
) -> Poll<Result<()>>
    ensures writes { WritesOn W.polls writer.old (drop taken.old held.now)
        writer.new (drop taken.new held.now) result }
    ensures armed { OnPending result (IsArmed cx.new) }
    ensures kept { Keeps cx.old cx.new }
{
    let mut rest = untaken(held, *taken);
    let polled = write_on(rt, cx, alloc, writer, &mut rest);
    *taken = held.len().saturating_sub(rest.len());
    polled
}

impl<'a, R: Wait, W: PollWrite, F: Read + Drop> CopyFuture<'a, R, W, F> {
    pub(crate) fn new(
        rt: &'a R,
        alloc: Global,
        writer: &'a mut W,
        reader: F,
    ) -> CopyFuture<'a, R, W, F>
        ensures lent { (result.writer.ghost_name ≡ writer.entry.ghost_name)
            × (result.writer.now ≡ writer.entry.now) }
        ensures waits { (result.reader ≡ reader) × IsFresh result.gathered }
    {
        let gathered = Gathered {
            buffer: Vec::new(alloc),
            read: 0,
            taken: 0,
            count: 0,
            ended: None,
        };
        CopyFuture {
            rt,
            alloc,
            writer,
            reader,
            gathered,
        }
    }
}

impl<'a, R: Wait, W: PollWrite, F: Read + Drop> Future for CopyFuture<'a, R, W, F> {
    type Output = Result<u64>;

    fn poll(&mut self, cx: &mut Context<'_>) -> Poll<Result<u64>>
        ensures copies { CopiesOn W.polls
            self.old.writer.now self.old.gathered (F.remaining self.old.reader)
            self.new.writer.now self.new.gathered (F.remaining self.new.reader) result }
        ensures lent { self.new.writer.ghost_name ≡ self.old.writer.ghost_name }
        // What each future owes.
        ensures value { IfReady result (λ _. ⊤) }
        ensures again { OnPending result ⊤ }
        ensures same { OnPending result ((r : Result ℕ Error) → ⊤ → ⊤) }
        ensures registered { OnPending result (Covers cx.new (λ _. ⊥)) }
        ensures kept { Keeps cx.old cx.new }
    {
        let gathered = &mut self.gathered;
        if gathered.is_filling() {
            gathered.read_next(&mut self.reader);
            return cx.yield_now();
        }
        gathered.write_next(self.rt, cx, self.alloc, self.writer)
    }
}
