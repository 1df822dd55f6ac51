//! Exports to a path where nothing is, the cheapest way that is open.
ghost use Rattle.std.specs.Prelude.{◌≡◌, ◌≢◌, IfOk};
ghost use Rattle.cacache_calls.specs.declared.command.How.TheVariants.{Copy, HardLink};
ghost use Rattle.cacache_jobs.specs.Environment.{KeepsRest};
ghost use Rattle.cacache_sync.specs.Exports.{named_source, IsFormed, AsksFree, ExportsBy, ExportsTo, Tries, free_in, is_closed, ways};

use crate::exporting::{Named, copy_content, form_named, link_content};
use cacache_calls::answers::done_of;
use cacache_calls::{How, Refusal};
use cacache_core::errors::{Error, Fault, Result};
use cacache_core::keeping::let_go;
use cacache_core::text::Text;
use cacache_store::env::Env;
use cacache_store::store::{Step, Store};
use std::alloc::{AllocError, Global};

/// What an exported path may have in common with the cache.
#[derive(Clone, Copy, Debug, PartialEq, Eq)]
pub enum ExportMode {
    /// It may be one more name of the cache's own file: whoever changes it through this one damages the cache.
    Shared,
    /// It is a file of its own.
    Own,
}

/// How a content was exported.
#[derive(Clone, Copy, Debug, PartialEq, Eq)]
pub enum Exported {
    /// The path is one more name of the content.
    HardLinked,
    /// The path has a copy of so many bytes.
    Copied(u64),
}

/// What a hard link of a path to itself tells, by what came of it: nothing is there, or why nothing can be made there.
fn free_in(linked: std::result::Result<(), Refusal>) -> std::result::Result<(), Refusal>
    ensures { result ≡ free_in linked }
{
    match linked {
        Err(Refusal::Fault(Fault::NotFound)) => Ok(()),
        Err(refusal) => Err(refusal),
        Ok(()) => Err(Refusal::Fault(Fault::AlreadyExists)),
    }
}

/// Says that nothing was exported to this path.
fn exporting(alloc: Global, to: &str) -> std::result::Result<Text, AllocError> {
    let mut text = String::from_str(alloc, "Failed to export cache contents to ")?;
    text.push_str(to)?;
    Ok(Text::new(text))
}

/// Asks whether nothing is at the path, not even a link that leads to nothing. A hard link of the path to itself is
/// refused in any case, and changes nothing: `NotFound` says that nothing is there, and `AlreadyExists` that something is.
fn ask_free<S: Store, C, N>(env: &mut Env<S, C, N>, to: &str) -> Result<()>
    ensures asks { AsksFree to.now (S.log env.old.store) (S.log env.new.store) result }
    ensures rest { KeepsRest env.old env.new }
{
    let message = exporting(env.alloc, to)?;
    let one = Text::from_str(env.alloc, to)?;
    let other = Text::from_str(env.alloc, to)?;
    let told = free_in(done_of(env.store.step(Step::HardLink(one, other))));
    match told {
        Ok(()) => Ok(()),
        Err(Refusal::Fault(fault)) => Err(Error::IoError(fault, message)),
        Err(Refusal::Memory) => Err(Error::OutOfMemory),
    }
}

/// Whether the next way is to be tried.
fn is_closed(tried: &Result<Exported>) -> bool
    ensures { result ≡ is_closed tried.now }
{
    match tried {
        Err(Error::IoError(Fault::Unsupported | Fault::Device, _)) => true,
        _ => false,
    }
}

/// Copies the content to the path, verified first.
fn copy_out<S: Store, C, N>(
    env: &mut Env<S, C, N>,
    cache: &str,
    named: Named<'_>,
    to: &str,
) -> Result<Exported>
    ensures formed { IsFormed named.entry }
    ensures by { ExportsBy S.log cache.now (named_source named.entry) to.now Copy
        env.old env.new result }
{
    Ok(Exported::Copied(copy_content(env, cache, named, true, to)?))
}

/// Gives the content the path as one more name, verified first.
fn link_out<S: Store, C, N>(
    env: &mut Env<S, C, N>,
    cache: &str,
    named: Named<'_>,
    to: &str,
) -> Result<Exported>
    ensures formed { IsFormed named.entry }
    ensures by { ExportsBy S.log cache.now (named_source named.entry) to.now HardLink
        env.old env.new result }
{
    link_content(env, cache, named, How::HardLink, true, to)?;
    Ok(Exported::HardLinked)
}

/// Exports the content the cheapest way of the mode that is open, verified first.
fn export_free<S: Store, C, N>(
    env: &mut Env<S, C, N>,
    cache: &str,
    named: Named<'_>,
    to: &str,
    mode: ExportMode,
) -> Result<Exported>
    ensures formed { IsFormed named.entry }
    ensures tries { Tries S.log cache.now (named_source named.entry) to.now (ways mode)
        env.old env.new result }
{
    if mode == ExportMode::Shared {
        let linked = link_out(env, cache, named, to);
        if !is_closed(&linked) {
            return linked;
        }
        let_go(linked);
    }
    copy_out(env, cache, named, to)
}

/// Exports the content to a path where nothing is, the cheapest way that is open, verified first. The ways are those of the
/// mode.
pub fn export_content<S: Store, C, N>(
    env: &mut Env<S, C, N>,
    cache: &str,
    named: Named<'_>,
    to: &str,
    mode: ExportMode,
) -> Result<Exported>
    ensures formed { IsFormed named.entry }
    ensures exports { ExportsTo S.log cache.now (named_source named.entry) to.now mode
        env.old env.new result }
    ensures own { mode ≡ ExportMode.Own → IfOk result (λ e. e ≢ Exported.HardLinked) }
{
    form_named(named);
    ask_free(env, to)?;
    export_free(env, cache, named, to, mode)
}
