//! What a walk through folders does next.
ghost use Rattle.std.specs.Prelude.{◌≡◌, IfOk};
ghost use Rattle.cacache_store.specs.Plain.{plain_step};
ghost use Rattle.cacache_calls.specs.Walking.{visit_step};

use cacache_core::errors::Fault;
use cacache_core::text::Text;
use cacache_store::store::{FileHandle, Step, TempHandle};
use std::alloc::AllocError;

/// One step of a walk, by its path.
#[derive(Drop)]
pub enum Visit {
    /// Lists a folder at this level. The walk's own folder has level 0.
    Enter(Text, u8),
    /// Reads a bucket.
    ReadBucket(Text),
    /// Removes a file or a link.
    RemoveFile(Text),
    /// Removes a folder, which is already empty.
    RemoveFolder(Text),
}

/// What a walk still has to do.
#[derive(Drop)]
pub enum Task {
    /// To make this visit.
    Make(Visit),
    /// To report a fault at a path, which takes no step.
    Stumble(Fault, Text),
}

impl Visit {
    /// The step of the visit.
    pub fn step<F: FileHandle, T: TempHandle>(&self) -> Result<Step<F, T>, AllocError>
        ensures { IfOk result (λ step. plain_step F.seen T.seen step ≡ visit_step self.now) }
    {
        match self {
            Visit::Enter(path, _) => Ok(Step::ReadDir(path.clone()?)),
            Visit::ReadBucket(path) => Ok(Step::ReadAll(path.clone()?)),
            Visit::RemoveFile(path) => Ok(Step::RemoveFile(path.clone()?)),
            Visit::RemoveFolder(path) => Ok(Step::RemoveDir(path.clone()?)),
        }
    }
}
