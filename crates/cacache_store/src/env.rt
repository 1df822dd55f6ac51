//! The environment of a call: memory, a store, a clock, numbers for temporary names and a base folder.
ghost use Rattle.std.specs.Prelude.{◌≡◌, IfOk};

mod clock;
mod names;

use cacache_core::text::Text;
pub use clock::Clock;
pub use names::{CountNames, Names};
use std::alloc::{AllocError, Global};

/// The environment of the calls on caches.
#[derive(Drop)]
pub struct Env<S, C, N> {
    /// The allocator of memory.
    pub alloc: Global,
    /// The store that holds the caches.
    pub store: S,
    /// Supplies the time of an entry.
    pub clock: C,
    /// Supplies the numbers of the temporary files.
    pub names: N,
    /// The folder against which a relative link target is resolved.
    pub base: Text,
}

impl<S: Drop, C: Drop, N: Drop> Env<S, C, N> {
    /// Makes an environment from these parts. Only the copy of `base` allocates. `base` is used only for links: a
    /// relative link target is resolved against it. Every other path goes to the store unchanged.
    pub fn new(
        alloc: Global,
        store: S,
        clock: C,
        names: N,
        base: &str,
    ) -> Result<Env<S, C, N>, AllocError>
        ensures alloc { IfOk result (λ env. env.alloc ≡ alloc) }
        ensures store { IfOk result (λ env. env.store ≡ store) }
        ensures clock { IfOk result (λ env. env.clock ≡ clock) }
        ensures names { IfOk result (λ env. env.names ≡ names) }
        ensures base { IfOk result (λ env. env.base ≡ base.now) }
    {
        let base = Text::from_str(alloc, base)?;
        Ok(Env {
            alloc,
            store,
            clock,
            names,
            base,
        })
    }
}
