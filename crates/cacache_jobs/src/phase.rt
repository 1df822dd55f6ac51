//! How far a call is while none of its steps is outstanding.
ghost use Rattle.cacache_calls.specs.{Common.{refuse, fails}, Runs.{EndsAs}};

use crate::stage::Stage;
use cacache_calls::{Refusal, Reply};
use cacache_core::errors::Error;
use cacache_core::text::Text;
use cacache_store::store::{Step, failed};
use std::alloc::AllocError;

/// How far a call is while none of its steps is outstanding.
#[derive(Drop)]
pub enum Phase<F, T> {
    /// It is at this stage, and needs this step.
    Wanting(Stage<T>, Step<F, T>),
    Over(Reply),
}

/// The error of a call if its step was refused. A fault carries the message.
pub fn refused(refusal: Refusal, message: Result<Text, AllocError>) -> Error
    ensures { EndsAs result (refuse refusal fails) }
{
    match refusal {
        Refusal::Memory => Error::OutOfMemory,
        Refusal::Fault(fault) => failed(fault, message),
    }
}
