//! Shows that the entries which a command or a commit may add are well-formed, as the entries of all values of these
//! types are.
ghost use Rattle.std.specs.Prelude.{◌<◌, ◌^◌, ℕ, length};
ghost use Rattle.cacache_calls.specs.declared.command.Command.TheVariants as commands;
ghost use Rattle.cacache_calls.specs.{Sound.{FormsCommand, FormsCommit, FormsEntries}, Inserting.{given_size}, State.{Site}};

use crate::carried::Commit;
use crate::command::{Command, Delete, Insert, Link, Options, Put};
use crate::values::{look_through, look_through_bytes};
use cacache_core::bytes::Bytes;
use cacache_core::text::Text;

/// Shows that each entry of a key with these options is well-formed if it can be written.
fn form(key: &Text, options: &Options)
    ensures { (moment : ℕ) → FormsEntries key.now moment options.now }
{
    let _key = key.as_str();
    look_through(options.metadata.as_value());
    if let Some(bytes) = &options.raw_metadata {
        look_through_bytes(bytes.as_slice());
    }
}

/// Shows that the size of an entry fits in 64 bits, as every size does.
fn measure(options: &Options)
    ensures { given_size options.now.size < 2 ^ 64 }
{
    match &options.size {
        Some(size) => {
            let _size = *size;
        }
        None => {}
    }
}

/// The number of bytes, which fits in 64 bits as every such number does.
fn count(bytes: &Bytes) -> u64
    ensures { length bytes.now < 2 ^ 64 }
{
    bytes.len() as u64
}

/// A 64-bit number.
fn word(count: usize)
    ensures { count < 2 ^ 64 }
{}

/// Shows that the entry of a commit is well-formed, if there is one and it can be written.
pub fn form_commit(commit: &Commit)
    ensures { FormsCommit commit.now }
{
    word(commit.count);
    if let Some(key) = &commit.key {
        form(key, &commit.options);
    }
}

/// Shows that the entry of a put is well-formed, if there is one and it can be written.
pub fn form_put(put: &Put)
    ensures { (site : Site) → FormsCommand site (commands.Put put.now) }
{
    let _count = count(&put.data);
    if let Some(key) = &put.key {
        form(key, &put.options);
    }
}

/// Shows that the entry of a link is well-formed, if there is one and it can be written, whatever is read from its
/// target.
pub fn form_link(link: &Link)
    ensures { (site : Site) → FormsCommand site (commands.Link link.now) }
{
    if let Some(key) = &link.key {
        form(key, &link.options);
    }
}

/// Shows that the entry of an insertion is well-formed if it can be written.
pub fn form_insert(insert: &Insert)
    ensures { (site : Site) → FormsCommand site (commands.Insert insert.now) }
{
    measure(&insert.options);
    form(&insert.key, &insert.options);
}

/// Shows that a tombstone is well-formed if it can be written.
pub fn form_delete(delete: &Delete)
    ensures { (site : Site) → FormsCommand site (commands.Delete delete.now) }
{
    let _key = delete.key.as_str();
}

/// Shows that the entries which a call of this command may add are well-formed if they can be written. Allocates no
/// memory.
pub fn form_command(command: &Command)
    ensures { (site : Site) → FormsCommand site command.now }
{
    match command {
        Command::Put(put) => form_put(put),
        Command::Link(link) => form_link(link),
        Command::Insert(insert) => form_insert(insert),
        Command::Delete(delete) => form_delete(delete),
        _ => (),
    }
}
