//! The commit of a polled writer as a future.
ghost use Rattle.std.specs.{Prelude.{◌≡◌, ⊤, List, Result, Some, None, IfNone, IfSome}, Arc.{arc_value}};
ghost use Rattle.futures.specs.{Poll.{IfReady, OnPending}, Task.{Covers, Keeps}};
ghost use Rattle.cacache_core.specs.declared.{errors.Error.{Error}, integrity.digest.Hash.{Hash}};
ghost use Rattle.cacache_async.specs.Futures.{SaysOver};
ghost use Rattle.cacache_writers.specs.Opening.{GivesLocked};

use crate::about::About;
use crate::commit::commit_held;
use crate::file::PolledFile;
use crate::shared::Shared;
use cacache_async::polling;
use cacache_core::errors::{Fault, Result};
use cacache_core::integrity::Integrity;
use cacache_core::keeping::set;
use cacache_store::env::{Clock, Env, Names};
use cacache_store::store::Store;
use futures::Future;
use futures::task::{Context, Poll};
use std::sync::Wait;

/// The future of `Writer::commit`: pending while work is out, and then it commits. A later poll answers `IoError` with
/// `Closed`.
#[derive(Drop)]
pub struct WriterCommitFuture<'a, R: Wait, S, C, N, T> {
    rt: &'a R,
    env: &'a mut Env<S, C, N>,
    file: PolledFile<T>,
    /// What the caller said about the content; None after the answer.
    about: Option<About>,
}

/// The future of `AsyncWriter::close`.
pub type AsyncWriterCloseFuture<'a, R, S, C, N, T> = WriterCommitFuture<'a, R, S, C, N, T>;

impl<'a, R: Wait, S: Store<Temp = T>, C: Clock, N: Names, T: Drop> WriterCommitFuture<
    'a,
    R,
    S,
    C,
    N,
    T,
> {
    pub(crate) fn new(
        rt: &'a R,
        env: &'a mut Env<S, C, N>,
        file: PolledFile<T>,
        about: About,
    ) -> WriterCommitFuture<'a, R, S, C, N, T>
        ensures lent { (result.env.ghost_name ≡ env.entry.ghost_name)
            × (result.env.now ≡ env.entry.now) }
        ensures waits { (result.file ≡ file) × (result.about ≡ Some about) }
    {
        let about = Some(about);
        WriterCommitFuture {
            rt,
            env,
            file,
            about,
        }
    }
}

impl<'a, R: Wait, S: Store<Temp = T>, C: Clock, N: Names, T: Drop> Future
    for WriterCommitFuture<'a, R, S, C, N, T> {
    type Output = Result<Integrity>;

    ghost needs = { λ f s. s ≡ (arc_value f.file.shared).source.id };

    fn poll(&mut self, cx: &mut Context<'_>) -> Poll<Result<Integrity>>
        ensures pending { OnPending result ((self.new.env.now ≡ self.old.env.now)
            × (self.new.about ≡ self.old.about)) }
        ensures over { IfReady result (λ _. self.new.about ≡ None) }
        ensures gives { IfSome self.old.about (λ about. IfReady result (GivesLocked T.seen S.log
            C.given self.old.env.now self.new.env.now (Some about))) }
        ensures rest { (self.new.env.now.names ≡ self.old.env.now.names)
            × (self.new.env.now.base ≡ self.old.env.now.base) }
        ensures later { IfNone self.old.about (IfReady result SaysOver
            × (self.new.env.now ≡ self.old.env.now)) }
        ensures env { self.new.env.ghost_name ≡ self.old.env.ghost_name }
        // What each future owes.
        ensures value { IfReady result (λ _. ⊤) }
        ensures again { OnPending result ⊤ }
        ensures same { OnPending result ((r : Result (List Hash) Error) → ⊤ → ⊤) }
        ensures registered { OnPending result
            (Covers cx.new (λ s. s ≡ (arc_value self.new.file.shared).source.id)) }
        ensures kept { Keeps cx.old cx.new }
    {
        if self.about.is_none() {
            return Poll::Ready(Err(polling(self.env.alloc, Fault::Closed)));
        }
        let rt = self.rt;
        let shared: &Shared<T> = &self.file.shared;
        let mut guard = shared.kept.lock(rt);
        let kept = &mut *guard;
        match commit_held(self.env, &mut kept.core, &mut kept.temp, &mut self.about) {
            None => {
                let polled = cx.register(&shared.source, &mut kept.waker);
                shared.release(guard);
                polled
            }
            Some(answer) => {
                set(&mut self.about, None);
                Poll::Ready(answer)
            }
        }
    }
}
