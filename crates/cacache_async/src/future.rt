//! The future of a call.
ghost use Rattle.std.specs.Prelude.{◌≡◌, ⊤, None, IfSome, IfNone};
ghost use Rattle.futures.specs.{Poll.{IfReady, OnPending}, Task.{Covers, Keeps}};
ghost use Rattle.cacache_async.specs.Futures.{MayAnswer, SaysOver, TellsFault, Waits};

use crate::call::Call;
use cacache_core::errors::{Error, Fault, Result};
use cacache_core::text::Text;
use cacache_store::env::Env;
use cacache_store::store::failed;
use futures::Future;
use futures::task::{Context, Poll};
use std::alloc::{AllocError, Global};

/// Makes its call at the first poll, which is ready: it answers what the call answers, and changes what the call changes.
/// A later poll answers `IoError` with `Closed`, and changes nothing.
#[derive(Drop)]
pub struct CallFuture<'a, S, C, N, K> {
    env: &'a mut Env<S, C, N>,
    call: Option<K>,
}

/// The error of a poll that failed so: `IoError` with the fault, or `OutOfMemory` if there is no memory for its
/// message.
pub fn polling(alloc: Global, fault: Fault) -> Error
    ensures { TellsFault fault result }
{
    failed(fault, message(alloc))
}

fn message(alloc: Global) -> std::result::Result<Text, AllocError> {
    Text::from_str(alloc, "Error while polling cache contents")
}

impl<'a, S, C, N, K> CallFuture<'a, S, C, N, K> {
    /// The future of the call in this environment.
    pub fn new(env: &'a mut Env<S, C, N>, call: K) -> CallFuture<'a, S, C, N, K>
        ensures { Waits result env.entry call }
    {
        let call = Some(call);
        CallFuture { env, call }
    }
}

impl<'a, S, C, N, K: Call<S, C, N>> Future for CallFuture<'a, S, C, N, K> {
    type Output = Result<K::Output>;

    // What the call may answer, or that it was made before.
    ghost gives = { λ f r. MayAnswer K.makes f.call f.env.now r };

    fn poll(&mut self, cx: &mut Context<'_>) -> Poll<Result<K::Output>>
        // The first poll is the call; later ones change nothing.
        ensures first { IfSome self.old.call
            (λ call. IfReady result (λ r. K.makes call self.old.env.now r self.new.env.now)) }
        ensures later { IfNone self.old.call
            (IfReady result SaysOver × (self.new.env.now ≡ self.old.env.now)) }
        ensures ready { OnPending result ⊥ }
        ensures over { self.new.call ≡ None }
        ensures env { self.new.env.ghost_name ≡ self.old.env.ghost_name }
        // What each future owes.
        ensures value { IfReady result (MayAnswer K.makes self.old.call self.old.env.now) }
        ensures again { OnPending result ⊤ }
        ensures same { OnPending result ((r : _) → MayAnswer K.makes self.new.call
            self.new.env.now r → MayAnswer K.makes self.old.call self.old.env.now r) }
        ensures registered { OnPending result (Covers cx.new (λ _. ⊥)) }
        ensures kept { Keeps cx.old cx.new }
    {
        let _ = cx;
        match self.call.take() {
            Some(call) => Poll::Ready(call.make(self.env)),
            None => Poll::Ready(Err(polling(self.env.alloc, Fault::Closed))),
        }
    }
}
