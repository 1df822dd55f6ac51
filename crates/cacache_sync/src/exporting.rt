//! Exports: a content is copied, shares its storage, or has one more name. A checked one verifies the content first.
ghost use Rattle.std.specs.Prelude.{◌≡◌, ◌≢◌, true, IfOk};
ghost use Rattle.cacache_calls.specs.{declared.{command.How.TheVariants.{Copy}, reply.Reply.TheVariants.{Copied, Done}}, Runs.{reply_of}, Replies.{done as says_done}};
ghost use Rattle.cacache_sync.specs.Exports.{exporting, named_source, IsFormed};
ghost use Rattle.cacache_jobs.specs.{ReadFirst.{Verified}, Environment.{Calls}};

use cacache_calls::{Command, Export, How, Source};
use cacache_core::errors::Result;
use cacache_core::integrity::Integrity;
use cacache_core::text::Text;
use cacache_jobs::call;
use cacache_store::env::Env;
use cacache_store::store::Store;
use std::alloc::{AllocError, Global};

/// What names the content that is exported.
#[derive(Clone, Copy)]
pub enum Named<'a> {
    /// The integrity that a lookup of this key finds.
    Key(&'a str),
    /// This integrity.
    Hash(&'a Integrity),
}

/// Does nothing: an integrity that is named is one.
pub(crate) fn form_named(named: Named<'_>)
    ensures formed { IsFormed named.entry }
{
    if let Named::Hash(sri) = named {
        let _address = sri.address();
    }
}

/// What is named, as the source of a command.
fn source_of(alloc: Global, named: Named<'_>) -> std::result::Result<Source, AllocError>
    ensures source { IfOk result (λ source. source ≡ named_source named.entry) }
    ensures formed { IsFormed named.entry }
{
    match named {
        Named::Key(key) => Ok(Source::Key(Text::from_str(alloc, key)?)),
        Named::Hash(sri) => {
            let _address = sri.address();
            Ok(Source::Hash(sri.clone()?))
        }
    }
}

/// Copies the content to this path, verified first or not, and answers how many bytes it has.
pub fn copy_content<S: Store, C, N>(
    env: &mut Env<S, C, N>,
    cache: &str,
    named: Named<'_>,
    checked: bool,
    to: &str,
) -> Result<u64>
    ensures formed { IsFormed named.entry }
    ensures verified { checked ≡ true → IfOk result (λ count. Verified cache.now
        (named_source named.entry) (Copied count) (S.log env.old.store) (S.log env.new.store)) }
    ensures ran { Calls S.log env.old env.new cache.now
        (exporting Copy checked (named_source named.entry) to.now) (reply_of Copied result) }
{
    let source = source_of(env.alloc, named)?;
    let to = Text::from_str(env.alloc, to)?;
    let how = How::Copy;
    let export = Export { how, checked, to };
    call(env, cache, Command::Export(source, export), 0).copied()
}

/// Shares the storage of the content with this path, or gives it this name, verified first or not.
pub fn link_content<S: Store, C, N>(
    env: &mut Env<S, C, N>,
    cache: &str,
    named: Named<'_>,
    how: How,
    checked: bool,
    to: &str,
) -> Result<()>
    requires { how ≢ Copy }
    ensures formed { IsFormed named.entry }
    ensures verified { checked ≡ true → IfOk result (λ _. Verified cache.now
        (named_source named.entry) Done (S.log env.old.store) (S.log env.new.store)) }
    ensures ran { Calls S.log env.old env.new cache.now
        (exporting how checked (named_source named.entry) to.now) (reply_of says_done result) }
{
    let source = source_of(env.alloc, named)?;
    let to = Text::from_str(env.alloc, to)?;
    let export = Export { how, checked, to };
    call(env, cache, Command::Export(source, export), 0).done()
}
