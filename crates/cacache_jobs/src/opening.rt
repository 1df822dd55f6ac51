//! Begins calls.
ghost use Rattle.std.specs.Prelude.{ℕ, List, true, false};
ghost use Rattle.cacache_core.specs.Paths.{index_area, join as join_of};
ghost use Rattle.cacache_calls.specs.{State.{looking as looking_state, reading as reading_state, asking as asking_state}, Table.{opening}, Walking.{walk}};
ghost use Rattle.cacache_calls.specs.declared.command.Command.TheVariants as commands;
ghost use Rattle.cacache_jobs.specs.JobStates.{site_of, Leads};

use crate::phase::Phase;
use crate::{exporting, inserting, linking, looking, reading, removing, storing, walking};
use cacache_calls::{Aim, Command, Content, Export, Lookup, Source};
use cacache_core::errors;
use cacache_core::integrity::Integrity;
use cacache_core::keeping::beside;
use cacache_core::paths::{INDEX_AREA, join};
use cacache_core::text::Text;
use cacache_store::store::{FileHandle, TempHandle};
use std::alloc::Global;

/// Begins a lookup of a key.
fn look<F: FileHandle, T: TempHandle>(
    alloc: Global,
    cache: &str,
    key: Text,
    aim: Aim,
) -> errors::Result<Phase<F, T>>
    ensures { Leads F.seen T.seen result
        (looking_state (record { cache = cache.now; key = key; aim = aim })) }
{
    let cache = Text::from_str(alloc, cache)?;
    looking::start(alloc, Lookup { cache, key, aim })
}

/// Begins a read of a content.
fn read<F: FileHandle, T: TempHandle>(
    alloc: Global,
    cache: &str,
    integrity: Integrity,
) -> errors::Result<Phase<F, T>>
    ensures { Leads F.seen T.seen result
        (reading_state (record { cache = cache.now; integrity = integrity })) }
{
    let cache = Text::from_str(alloc, cache)?;
    reading::start(alloc, Content { cache, integrity })
}

/// Begins the question whether a content is there.
fn ask<F: FileHandle, T: TempHandle>(
    alloc: Global,
    cache: &str,
    integrity: Integrity,
) -> errors::Result<Phase<F, T>>
    ensures { Leads F.seen T.seen result
        (asking_state (record { cache = cache.now; integrity = integrity })) }
{
    let cache = Text::from_str(alloc, cache)?;
    reading::ask(alloc, Content { cache, integrity })
}

/// Begins a listing.
fn list<F: FileHandle, T: TempHandle>(alloc: Global, cache: &str) -> errors::Result<Phase<F, T>>
    ensures { Leads F.seen T.seen result (walk false (join_of cache.now index_area)) }
{
    walking::start(alloc, false, join(alloc, cache, INDEX_AREA)?)
}

/// Begins a clearing.
fn clear<F: FileHandle, T: TempHandle>(alloc: Global, cache: &str) -> errors::Result<Phase<F, T>>
    ensures { Leads F.seen T.seen result (walk true cache.now) }
{
    walking::start(alloc, true, Text::from_str(alloc, cache)?)
}

/// Begins an export.
fn begin_export<F: FileHandle, T: TempHandle>(
    alloc: Global,
    cache: &str,
    source: Source,
    export: Export,
) -> errors::Result<Phase<F, T>>
    ensures { (base : List ℕ) (number : ℕ) → Leads F.seen T.seen result
        (opening (site_of cache.now base number) (commands.Export source export)) }
{
    match source {
        Source::Key(key) => look(alloc, cache, key, Aim::Export(export)),
        Source::Hash(integrity) => {
            let kept = (integrity, export);
            let (cache, (integrity, export)) = beside(Text::from_str(alloc, cache), kept)?;
            exporting::start(alloc, Content { cache, integrity }, export)
        }
    }
}

/// Begins a call.
pub(crate) fn open<F: FileHandle, T: TempHandle>(
    alloc: Global,
    cache: &str,
    base: &str,
    number: u64,
    command: Command,
) -> errors::Result<Phase<F, T>>
    ensures { Leads F.seen T.seen result (opening (site_of cache.now base.now number) command) }
{
    match command {
        Command::Put(put) => storing::store(alloc, cache, number, put),
        Command::Insert(insert) => inserting::begin_insertion(alloc, cache, insert),
        Command::Delete(delete) => inserting::begin_deletion(alloc, cache, delete),
        Command::Find(key) => look(alloc, cache, key, Aim::Report),
        Command::Get(key) => look(alloc, cache, key, Aim::Read),
        Command::RemoveFully(key) => look(alloc, cache, key, Aim::Remove),
        Command::GetHash(integrity) => read(alloc, cache, integrity),
        Command::Exists(integrity) => ask(alloc, cache, integrity),
        Command::RemoveHash(integrity) => removing::remove_content(alloc, cache, &integrity),
        Command::Link(link) => linking::start(alloc, cache, base, link),
        Command::Export(source, export) => begin_export(alloc, cache, source, export),
        Command::Ls => list(alloc, cache),
        Command::Clear => clear(alloc, cache),
    }
}
