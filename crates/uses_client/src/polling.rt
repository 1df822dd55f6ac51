//! A whole write by polls.
ghost use Rattle.std.specs.Prelude.{◌≡◌, ◌<◌};
ghost use Rattle.futures.specs.{Poll.{OnPending}, Task.{IsArmed, Keeps}};
ghost use Rattle.uses_client.specs.Writing.{WritesWithin};

use cacache::Result;
use cacache::laws::write_laws;
use cacache::polled::{PollWrite, WriteAllFuture};
use futures::Future;
use futures::task::{Context, Poll};
use std::sync::Wait;

/// Polls a whole write at most so many times, and answers how it ended. Ok says that the writer took each byte once, in
/// order. An error is the writer's, or says that it took nothing. While it is pending, a later call goes on with what is
/// left.
pub fn write_within<R: Wait, W: PollWrite>(
    cx: &mut Context<'_>,
    write: &mut WriteAllFuture<'_, R, W>,
    times: u64,
) -> Poll<Result<()>>
    ensures writes { WritesWithin W.polls write.old.writer.now write.old.rest.now
        write.new.writer.now write.new.rest.now times result }
    ensures lent { write.new.writer.ghost_name ≡ write.old.writer.ghost_name }
    ensures armed { 0 < times → OnPending result (IsArmed cx.new) }
    ensures kept { Keeps cx.old cx.new }
{
    write_laws();
    for _ in 0..times {
        if let Poll::Ready(answer) = write.poll(cx) {
            return Poll::Ready(answer);
        }
    }
    Poll::Pending
}
