//! What the future of a call answers at its two first polls.
use cacache::errors::Fault;
use cacache::{Error, Result as Answered};
use cacache_core::keeping::let_go;
use futures::Future;
use futures::executor::block_on;
use rows::Flaw;
use std::alloc::AllocGlobal;
use std::random::RandomSource;
use std::sync::Wait;

/// Whether this is the answer of a poll after the call's answer.
fn is_closed<T>(answer: &Answered<T>) -> bool {
    matches!(answer, Err(Error::IoError(Fault::Closed, _)))
}

/// What the future's first poll answers; its second one must be closed.
pub(crate) fn awaited<R, F, T>(rt: &R, future: F) -> Result<Answered<T>, Flaw>
where
    R: Wait + RandomSource + AllocGlobal,
    F: Future<Output = Answered<T>>,
    T: Drop,
    requires { (f : F) → F.can_poll f }
{
    let mut future = future;
    let Ok(first) = block_on(rt, &mut future) else {
        return Err(Flaw::Refused);
    };
    match block_on(rt, &mut future) {
        Ok(second) if is_closed(&second) => Ok(first),
        _ => {
            let_go(first);
            Err(Flaw::NotClosed)
        }
    }
}
