//! What a polled file and its workers share: the core, the temporary file and the work that is out.
ghost use Rattle.std.specs.Prelude.{◌≡◌, IfSome, IsTrue, None};
ghost use Rattle.cacache_polled.specs.declared.kinds.Completion.TheVariants.{Gone};

use crate::kept::{Kept, Told};
use crate::work::Taken;
use cacache_core::keeping::let_go;
use cacache_polled::Completion;
use futures::task::Source;
use std::alloc::Global;
use std::snapshot::Snapshot;
use std::sync::atomic::{AtomicBool, Ordering};
use std::sync::{Arc, Mutex, MutexGuard, Wait};
use std::thread::Parker;

/// How often a drop tries the lock.
const TRIES: u32 = 1000;

/// The lock, and what is outside it.
#[derive(Drop)]
pub struct Shared<T> {
    /// What waiting tasks wait for.
    pub source: Source,
    /// The polled file was dropped.
    pub is_left: AtomicBool,
    /// Where the thread of `Workers` sleeps that does the work, if one does.
    pub(crate) bell: Mutex<Option<Arc<Parker, Global>>>,
    pub kept: Mutex<Kept<T>>,
}

impl<T: Drop> Shared<T> {
    /// Nothing was asked yet, and nobody sleeps for it.
    pub(crate) fn new(kept: Kept<T>) -> Shared<T> {
        Shared {
            source: Source::new(),
            is_left: AtomicBool::new(false),
            bell: Mutex::new(None),
            kept: Mutex::new(kept),
        }
    }

    /// Whether no work comes any more: the polled file was dropped, or its core is closed.
    pub(crate) fn is_over<R: Wait>(&self, rt: &R) -> bool {
        self.is_left.load(Ordering::SeqCst) || self.kept.lock(rt).core.is_closed()
    }

    /// Whether work was handed out that no worker has taken.
    pub(crate) fn has_work<R: Wait>(&self, rt: &R) -> bool {
        self.kept.lock(rt).work.is_some()
    }

    /// Takes the work, and the file with it.
    pub(crate) fn take<R: Wait>(&self, rt: &R) -> Taken<T> {
        self.kept.lock(rt).take()
    }

    /// Takes the work, and the file with it. None if no work comes any more. It waits for nobody: while the lock is
    /// taken there is no work, and who releases it rings the bell.
    pub(crate) fn take_free(&self) -> Option<Taken<T>> {
        if self.is_left.load(Ordering::SeqCst) {
            return None;
        }
        let Some(mut guard) = self.kept.try_lock() else {
            return Some((None, None));
        };
        let kept = &mut *guard;
        if kept.core.is_closed() {
            None
        } else {
            Some(kept.take())
        }
    }

    /// From now on this bell rings.
    pub(crate) fn hang<R: Wait>(&self, rt: &R, bell: Arc<Parker, Global>) {
        let mut guard = self.bell.lock(rt);
        *guard = Some(bell);
    }

    /// Wakes the thread of `Workers` that does the work, if one does.
    fn ring(&self) {
        let Some(guard) = self.bell.try_lock() else {
            return;
        };
        if let Some(bell) = &*guard {
            bell.unpark();
        }
    }

    /// Releases the lock, and rings the bell if work is out.
    pub(crate) fn release(&self, guard: MutexGuard<'_, Kept<T>>) {
        let is_out = guard.work.is_some();
        drop(guard);
        if is_out {
            self.ring();
        }
    }

    /// Ends the work that was taken out. The file is dropped if the polled file was dropped meanwhile.
    pub(crate) fn end<R: Wait>(&self, rt: &R, temp: Option<T>, completion: Completion) -> Told<T>
        ensures told { (result.ending ≡ completion) × (result.temp.value ≡ temp) }
    {
        let mut guard = self.kept.lock(rt);
        let kept = &mut *guard;
        let told = kept.end(temp, completion);
        if self.is_left.load(Ordering::SeqCst) {
            let_go(kept.temp.take());
        }
        told
    }

    /// Drops the file that lies under the lock, if nobody has the lock.
    fn lets_go(&self) -> bool {
        let Some(mut guard) = self.kept.try_lock() else {
            return false;
        };
        let kept = &mut *guard;
        let_go(kept.temp.take());
        true
    }

    /// Notes that the polled file was dropped, and drops the file, unless a worker has it out or keeps the lock: then
    /// it goes with the worker's work or with the worker. A drop has no runtime to wait with, so it tries the lock.
    pub(crate) fn leave(&self) {
        self.is_left.store(true, Ordering::SeqCst);
        for _ in 0..TRIES {
            if self.lets_go() {
                break;
            }
        }
        self.ring();
    }

    /// Ends the work that no worker has taken.
    pub(crate) fn give_up<R: Wait>(&self, rt: &R) -> Option<Told<T>>
        ensures gone { IfSome result (λ told. told.ending ≡ Gone) }
    {
        self.kept.lock(rt).give_up()
    }

    /// No worker comes any more. It answers what lies under the lock then.
    pub(crate) fn quit<R: Wait>(&self, rt: &R) -> Snapshot<Kept<T>>
        ensures gone { IsTrue result.value.is_gone × (result.value.work ≡ None) }
    {
        let mut guard = self.kept.lock(rt);
        let kept = &mut *guard;
        kept.quit();
        Snapshot::of(kept)
    }
}
