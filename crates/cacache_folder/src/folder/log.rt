//! Ghost data: a copy of a value, and a log of steps with their answers. Only clauses see them. They take no memory, and their
//! functions do nothing at run time.
ghost use Rattle.std.specs.{Prelude.{◌≡◌, List, [], ◌∷◌, ◌++◌}, Borrow.{ftrue}};

use std::marker::{Model, PhantomData};

/// A value as it was at some moment.
#[derive(Drop)]
pub(crate) struct Snapshot<T> {
    of: PhantomData<T>,
    pub ghost value: { T },
}

impl<T> Model for Snapshot<T> {
    ghost also_owns = { λ _. ftrue };
}

// It owns nothing, so it may go to another thread.
unsafe impl<T: Send> Send for Snapshot<T> {}

impl<T> Snapshot<T> {
    /// The value as it is now.
    pub(crate) fn of(value: &T) -> Snapshot<T>
        ensures { result.value ≡ value.now }
    {
        Snapshot { of: PhantomData }
    }
}

/// Steps and their answers, oldest first.
#[derive(Drop)]
pub(crate) struct StepLog<S, A> {
    of: PhantomData<(S, A)>,
    pub ghost items: { List (S × A) },
}

impl<S, A> Model for StepLog<S, A> {
    ghost also_owns = { λ _. ftrue };
}

// It owns nothing, so it may go to another thread.
unsafe impl<S: Send, A: Send> Send for StepLog<S, A> {}

impl<S, A> StepLog<S, A> {
    /// No steps.
    pub(crate) fn new() -> StepLog<S, A>
        ensures { result.items ≡ [] }
    {
        StepLog { of: PhantomData }
    }

    /// The log with one more step and its answer.
    pub(crate) fn with(&self, step: &Snapshot<S>, answer: &A) -> StepLog<S, A>
        ensures { result.items ≡ self.now.items ++ (step.now.value, answer.now) ∷ [] }
    {
        StepLog { of: PhantomData }
    }
}
