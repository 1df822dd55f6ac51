//! Stores that may know why a step failed.
ghost use Rattle.std.specs.{Prelude.{◌≡◌, Option, None}, declared.io.ErrorKind.{ErrorKind}};

use cacache_disk::memory::MemStore;
use cacache_folder::SystemStore;
use cacache_store::store::Store;
use cacache_system::System;
use std::io::ErrorKind;

/// A store that may know more of a failed step than its fault. A caller that has only real folders needs no such
/// trait, and calls `SystemStore::reason`.
pub trait Reasons: Store {
    /// What it knows.
    ghost known: { Self → Option ErrorKind };

    /// The system's kind of error that made the last failed step fail. None if the store knows none.
    fn reason(&self) -> Option<ErrorKind>
        ensures { result ≡ known self.now };
}

impl<Y: System + AllocGlobal + Clone + Drop> Reasons for SystemStore<Y> {
    ghost known = { λ store. store.runner.reason };

    fn reason(&self) -> Option<ErrorKind> {
        SystemStore::reason(self)
    }
}

impl Reasons for MemStore {
    ghost known = { λ _. None };

    fn reason(&self) -> Option<ErrorKind> {
        None
    }
}
