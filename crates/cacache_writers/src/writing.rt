//! Bytes that are written by polls, piece by piece.
ghost use Rattle.std.specs.Prelude.{◌≡◌, ◌<◌, ℕ, List, Result, ⊤, IfOk, IfErr, drop, min};
ghost use Rattle.futures.specs.{declared.task.Poll.{Poll}, Poll.{IfReady, OnPending}, Task.{Covers, IsArmed, Keeps}};
ghost use Rattle.cacache_core.specs.declared.errors.{Error.{Error}, Fault.TheVariants.{WriteZero}};
ghost use Rattle.cacache_async.specs.Futures.{TellsFault};
ghost use Rattle.cacache_writers.specs.Writing.{WritesOn, piece_len as len_of, next_piece as piece_of};

use cacache_async::polling;
use cacache_core::errors::{Fault, Result};
use futures::Future;
use futures::task::{Context, Poll};
use std::alloc::Global;
use std::sync::Wait;

/// How many bytes a writer gets at once.
pub(crate) const PIECE: usize = 65536;

/// What is written by polls.
pub trait PollWrite: Drop {
    /// What a poll may answer about these bytes: the writer before, the bytes, the answer and the writer after.
    ghost polls: { Self → List ℕ → Poll (Result ℕ Error) → Self → Type 0 } = { λ _ _ _ _. ⊤ };

    /// Begins to write these bytes, and is pending; polled again with the same bytes, it answers how many were taken.
    fn poll_write<R: Wait>(
        &mut self,
        rt: &R,
        cx: &mut Context<'_>,
        data: &[u8],
    ) -> Poll<Result<usize>>
        ensures earned { polls self.old data.now result self.new }
        ensures armed { OnPending result (IsArmed cx.new) }
        ensures kept { Keeps cx.old cx.new };
}

/// How many bytes a writer gets next.
fn piece_len(rest: &[u8]) -> usize
    ensures { result ≡ len_of rest.now }
{
    rest.len().min(PIECE)
}

/// The bytes that a writer gets next.
fn next_piece(rest: &[u8]) -> &[u8]
    ensures { result.now ≡ piece_of rest.now }
{
    &rest[..piece_len(rest)]
}

/// What is left after so many bytes of the next piece were taken. `IoError` with `WriteZero` if none was.
fn left_after(alloc: Global, rest: &[u8], count: usize) -> Result<&[u8]>
    ensures left { IfOk result (λ left. left.now ≡ drop (min count (len_of rest.now)) rest.now) }
    ensures some { IfOk result (λ _. 0 < count) }
    ensures zero { IfErr result (λ e. (count ≡ 0) × TellsFault WriteZero e) }
{
    if count == 0 {
        return Err(polling(alloc, Fault::WriteZero));
    }
    let taken = count.min(piece_len(rest));
    Ok(&rest[taken..])
}

/// Asks the writer about the next piece, and drops what it took from the rest. Ready once nothing is left.
pub(crate) fn write_on<R: Wait, W: PollWrite>(
    rt: &R,
    cx: &mut Context<'_>,
    alloc: Global,
    writer: &mut W,
    rest: &mut &[u8],
) -> Poll<Result<()>>
    ensures writes { WritesOn W.polls writer.old rest.old.now writer.new rest.new.now result }
    ensures armed { OnPending result (IsArmed cx.new) }
    ensures kept { Keeps cx.old cx.new }
{
    if rest.is_empty() {
        return Poll::Ready(Ok(()));
    }
    match writer.poll_write(rt, cx, next_piece(rest)) {
        Poll::Ready(Ok(count)) => match left_after(alloc, rest, count) {
            Ok(left) => {
                *rest = left;
                if left.is_empty() {
                    Poll::Ready(Ok(()))
                } else {
                    cx.yield_now()
                }
            }
            Err(error) => Poll::Ready(Err(error)),
        },
        Poll::Ready(Err(error)) => Poll::Ready(Err(error)),
        Poll::Pending => Poll::Pending,
    }
}

/// The future of `Writer::write_all`: ready once all bytes were taken, or with the first error.
#[derive(Drop)]
pub struct WriteAllFuture<'a, R, W> {
    rt: &'a R,
    alloc: Global,
    writer: &'a mut W,
    /// What wasn't taken yet.
    rest: &'a [u8],
}

impl<'a, R: Wait, W: PollWrite> WriteAllFuture<'a, R, W> {
    pub(crate) fn new(
        rt: &'a R,
        alloc: Global,
        writer: &'a mut W,
        data: &'a [u8],
    ) -> WriteAllFuture<'a, R, W>
        ensures lent { (result.writer.ghost_name ≡ writer.entry.ghost_name)
            × (result.writer.now ≡ writer.entry.now) }
        ensures waits { result.rest ≡ data.entry }
    {
        let rest = data;
        WriteAllFuture {
            rt,
            alloc,
            writer,
            rest,
        }
    }
}

impl<'a, R: Wait, W: PollWrite> Future for WriteAllFuture<'a, R, W> {
    type Output = Result<()>;

    fn poll(&mut self, cx: &mut Context<'_>) -> Poll<Result<()>>
        ensures writes { WritesOn W.polls self.old.writer.now self.old.rest.now
            self.new.writer.now self.new.rest.now result }
        ensures lent { self.new.writer.ghost_name ≡ self.old.writer.ghost_name }
        // What each future owes.
        ensures value { IfReady result (λ _. ⊤) }
        ensures again { OnPending result ⊤ }
        ensures same { OnPending result ((r : Result ⊤ Error) → ⊤ → ⊤) }
        ensures registered { OnPending result (Covers cx.new (λ _. ⊥)) }
        ensures kept { Keeps cx.old cx.new }
    {
        write_on(self.rt, cx, self.alloc, self.writer, &mut self.rest)
    }
}
