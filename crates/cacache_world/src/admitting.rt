//! Which commands a call may begin with.
ghost use Rattle.std.specs.Prelude.{◌≡◌, IfOk, IfErr, OnOk, ℕ, List, codes};
ghost use Rattle.cacache_calls.specs.Linking.{based as based_of};
ghost use Rattle.cacache_core.specs.Integrity.{IsIntegrity};
ghost use Rattle.cacache_calls.specs.declared.command.Command.TheVariants as commands;
ghost use Rattle.cacache_history.specs.{History.{NamesSource}, Setup.{Setup, is_outside as is_outside_of}};
ghost use Rattle.cacache_world.specs.{WorldKept.{setup_of}, Faults.{MayAsk, Judges, JudgesIn, IsTurnedAway}};

use crate::event::WorldFault;
use crate::names::{is_outside, may_take};
use cacache_calls::{
    Command, Export, Link, Source, based, form_delete, form_insert, form_link, form_put,
};
use cacache_core::bytes::Bytes;
use cacache_core::integrity::Integrity;
use cacache_core::text::Text;
use std::alloc::{AllocError, Global};

/// Shows that an integrity is one, as each is.
fn known(integrity: &Integrity)
    ensures { IsIntegrity integrity.now }
{
    let _address = integrity.address();
}

/// Shows that the integrity of a source is one, as each is.
fn known_source(source: &Source)
    ensures { NamesSource source.now }
{
    match source {
        Source::Key(_) => {}
        Source::Hash(integrity) => known(integrity),
    }
}

/// Whether an export may begin: it goes apart from the cache and from each outside file.
fn may_begin_export(
    alloc: Global,
    cache: &str,
    outside: &[(Text, Bytes)],
    source: &Source,
    export: &Export,
) -> Result<bool, AllocError>
    ensures { IfOk result (λ may. JudgesIn may cache.now outside.now
        (commands.Export source.now export.now)) }
{
    known_source(source);
    let may = may_take(alloc, cache, outside, export.to.as_str())?;
    Ok(may)
}

/// The path of a link's target.
fn target_path(alloc: Global, target: &Text) -> Result<Text, AllocError>
    ensures { IfOk result (λ path. path ≡ based_of (codes "/") target.now) }
{
    let target = target.clone()?;
    based(alloc, "/", target)
}

/// Whether the target of a link is one of the outside files.
fn leads_outside(
    alloc: Global,
    outside: &[(Text, Bytes)],
    target: &Text,
) -> Result<bool, AllocError>
    ensures { IfOk result (λ leads. (cache : List ℕ) (callers : ℕ) → leads
        ≡ is_outside_of (setup_of cache outside.now callers) (based_of (codes "/") target.now)) }
{
    let path = target_path(alloc, target)?;
    is_outside(alloc, outside, path.as_str())
}

/// Whether a link may begin: its target is one of the outside files.
fn may_begin_link(alloc: Global, outside: &[(Text, Bytes)], link: &Link) -> Result<bool, AllocError>
    ensures { IfOk result (λ may. (cache : List ℕ) (callers n : ℕ)
        → Judges may (setup_of cache outside.now callers) n (commands.Link link.now)) }
{
    form_link(link);
    let leads = leads_outside(alloc, outside, &link.target)?;
    Ok(leads)
}

/// Whether a call may begin with a command.
fn may_begin(
    alloc: Global,
    cache: &str,
    outside: &[(Text, Bytes)],
    command: &Command,
) -> Result<bool, AllocError>
    ensures { IfOk result (λ may. (callers n : ℕ)
        → Judges may (setup_of cache.now outside.now callers) n command.now) }
{
    match command {
        Command::Find(_)
        | Command::Get(_)
        | Command::Ls
        | Command::RemoveFully(_)
        | Command::Clear => Ok(true),
        Command::GetHash(integrity) | Command::Exists(integrity) | Command::RemoveHash(integrity) =>
            {
                known(integrity);
                Ok(true)
            }
        Command::Put(put) => {
            form_put(put);
            Ok(true)
        }
        Command::Insert(insert) => {
            form_insert(insert);
            Ok(true)
        }
        Command::Delete(delete) => {
            form_delete(delete);
            Ok(true)
        }
        Command::Link(link) => {
            let may = may_begin_link(alloc, outside, link)?;
            Ok(may)
        }
        Command::Export(source, export) => may_begin_export(alloc, cache, outside, source, export),
    }
}

/// Checks that a call may begin with a command.
pub(crate) fn admit(
    alloc: Global,
    cache: &str,
    outside: &[(Text, Bytes)],
    command: &Command,
) -> Result<(), WorldFault>
    ensures may { OnOk result ((callers n : ℕ)
        → MayAsk (setup_of cache.now outside.now callers) n command.now) }
    ensures why { IfErr result (λ fault. (callers : ℕ)
        → IsTurnedAway (setup_of cache.now outside.now callers) command.now fault) }
{
    match may_begin(alloc, cache, outside, command) {
        Ok(true) => Ok(()),
        Ok(false) => Err(WorldFault::BadCommand),
        Err(_) => Err(WorldFault::OutOfMemory),
    }
}
