//! Temporary files that are removed without a store.
ghost use Rattle.std.specs.Prelude.{◌≡◌, Result, Ok, ⊤};
ghost use Rattle.cacache_core.specs.declared.errors.Fault.{Fault};
ghost use Rattle.cacache_writers.specs.Opening.{TellsRemoval};

use cacache_core::errors::Fault;
use cacache_core::keeping::let_go;
use cacache_folder::FolderTemp;
use cacache_store::store::{PlainTemp, TempFile};
use std::io;
use std::os::fd::AsRawFd;
use std::random::RandomSource;
use std::rt::Files;

/// A temporary file that removes itself, since a worker has no store that could. One that asks the system for it keeps
/// a runtime, as `FolderTemp` does.
pub trait RemovableTemp: TempFile {
    /// What a removal of the file may answer.
    ghost removes: { Self → Result ⊤ Fault → Type 0 } = { λ _ _. ⊤ };

    /// Removes the file. The fault says why it wasn't removed.
    fn remove(self) -> Result<(), Fault>
        ensures answers { removes self result };
}

/// What a removal answers by what the system said.
fn told(answer: io::Result<()>) -> Result<(), Fault>
    ensures { TellsRemoval answer result }
{
    match answer {
        Ok(()) => Ok(()),
        Err(error) => Err(Fault::from(error.kind())),
    }
}

impl<R: Files + RandomSource + Drop> RemovableTemp for FolderTemp<R>
where
    R::File: AsRawFd,
{
    fn remove(self) -> Result<(), Fault> {
        told(FolderTemp::remove(self))
    }
}

impl RemovableTemp for PlainTemp {
    ghost removes = { λ _ result. result ≡ Ok tt };

    /// Drops the bytes: the disk in memory keeps an empty file, as after a writer that is dropped.
    fn remove(self) -> Result<(), Fault> {
        let_go(self);
        Ok(())
    }
}
