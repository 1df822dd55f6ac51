//! The word `find`.
ghost use Rattle.std.specs.Prelude.{◌≡◌, IfOk, option_map};
ghost use Rattle.cacache.specs.Entries.{found_view};
ghost use Rattle.cacache_program.specs.{PrintedEntries.{entry_text}, WordFind.{PrintsFound, found_line}};

use crate::entries::entry_text;
use crate::errors::{Errors, tell_failed_call};
use crate::output::put_out;
use cacache::env::{Clock, Env, Names, Reasons};
use cacache::{Metadata, Result};
use std::alloc::Global;
use std::io::Write;

/// What is printed for what was found: the entry's text or `none`, and a line feed.
fn line_of(alloc: Global, found: Option<Metadata>) -> Result<Vec<u8>>
    ensures { IfOk result (λ line. line.items ≡ found_line (option_map found_view found)) }
{
    let Some(found) = found else {
        return Ok(Vec::from_slice(alloc, b"none\n")?);
    };
    let mut line = entry_text(alloc, found)?;
    line.push(b'\n')?;
    Ok(line)
}

/// Prints the text of the key's entry, or `none`, and a line feed.
#[tactic(auto, using(crate::proofs::Texts::found_line_has_bytes))]
pub(crate) fn find<S: Reasons, C: Clock, N: Names, W: Write, E: Write>(
    env: &mut Env<S, C, N>,
    cache: &str,
    key: &str,
    output: &mut W,
    errors: &mut Errors<E>,
) -> u8
    ensures does { PrintsFound S.log cache.now key.now env.old env.new
        (W.contents output.old) (W.contents output.new) result }
    ensures quiet { result ≡ 0 → errors.new ≡ errors.old }
{
    let found = match cacache::index::find(env, cache, key) {
        Ok(found) => found,
        Err(error) => return tell_failed_call(errors, &error, env.store.reason()),
    };
    match line_of(env.alloc, found) {
        Ok(line) => put_out(output, &line, errors),
        Err(error) => tell_failed_call(errors, &error, None),
    }
}
