//! A system in memory.
ghost use Rattle.std.specs.Prelude.{◌≡◌, [], IfOk};
ghost use Rattle.cacache_disk.specs.Tree.{bare};

use crate::memory::log::Log;
use crate::memory::state::Memory;
use cacache_disk::Disk;
use std::alloc::{Alloc, AllocError, Global};

/// A system of folders, files and links in memory, which keeps a log of its calls. Each call says and leaves what the model
/// of the system says (`goes`), unless memory is refused.
///
/// It lists no folder, syncs nothing, and moves no folder or link: such calls fail with `Unsupported`, and nothing changes.
/// A file is never closed, and no number is used again. It keeps what it holds if its name is removed or taken by another
/// file. It keeps no owner and no mode: a call that sets one is logged, and fails if nothing is there.
#[derive(Drop)]
pub struct MemorySystem {
    pub(crate) memory: Memory,
    pub(crate) log: Log,
}

impl MemorySystem {
    ghost use Rattle.cacache_system_model.specs.memory.Machines.{calls_of, machine_of};

    /// A system that was asked nothing yet, with nothing but the top folder.
    pub fn new(alloc: Global) -> Result<MemorySystem, AllocError>
        ensures log { IfOk result (λ system. calls_of system ≡ []) }
        ensures tree { IfOk result (λ system. (machine_of system).tree ≡ bare) }
        ensures closed { IfOk result (λ system. system.memory.files.items ≡ []) }
    {
        let memory = Memory {
            alloc,
            disk: Disk::new(alloc)?,
            files: Vec::new(alloc),
            marks: 0,
        };
        Ok(MemorySystem {
            memory,
            log: Log::new(),
        })
    }
}

impl Clone for MemorySystem {
    /// A system of its own, with the same tree and open files, and no calls. So the handles of a store over it, which
    /// have such systems, read and remove nothing of the store's.
    fn clone(&self) -> Result<MemorySystem, AllocError> {
        Ok(MemorySystem {
            memory: self.memory.clone()?,
            log: Log::new(),
        })
    }
}

impl Alloc for MemorySystem {
    type A = Global;

    fn alloc(&self) -> Global {
        self.memory.alloc
    }
}
