//! Whether a seat agrees with its caller's records.
ghost use Rattle.std.specs.Prelude.{◌≡◌, ◌↔◌, IfOk, IsTrue, map};
ghost use Rattle.cacache_threads.specs.Said.{said_command, said_reply};
ghost use Rattle.cacache_shared.specs.Lines.{commands_of, replies_of};

use crate::lines::{command_in, reply_in};
use cacache_calls::{Command, Reply};
use cacache_history::Record;
use cacache_threads::{same_command, same_reply};
use std::alloc::{AllocError, Global};

/// Whether these are the commands that the caller began, JSON values by their compact texts.
pub(crate) fn commands_agree(
    alloc: Global,
    lines: &[Record],
    caller: usize,
    commands: &[Command],
) -> Result<bool, AllocError>
    ensures { IfOk result (λ agree. IsTrue agree ↔
        (map said_command commands.now ≡ map said_command (commands_of caller lines.now))) }
{
    let mut rest = commands;
    for line in lines {
        if let Some(command) = command_in(line, caller) {
            let Some((first, more)) = rest.split_first() else {
                return Ok(false);
            };
            if !same_command(alloc, first, command)? {
                return Ok(false);
            }
            rest = more;
        }
    }
    Ok(rest.is_empty())
}

/// Whether these are the replies that the caller was given, JSON values by their compact texts.
pub(crate) fn replies_agree(
    alloc: Global,
    lines: &[Record],
    caller: usize,
    replies: &[Reply],
) -> Result<bool, AllocError>
    ensures { IfOk result (λ agree. IsTrue agree ↔
        (map said_reply replies.now ≡ map said_reply (replies_of caller lines.now))) }
{
    let mut rest = replies;
    for line in lines {
        if let Some(reply) = reply_in(line, caller) {
            let Some((first, more)) = rest.split_first() else {
                return Ok(false);
            };
            if !same_reply(alloc, first, reply)? {
                return Ok(false);
            }
            rest = more;
        }
    }
    Ok(rest.is_empty())
}
