//! What a program says about itself.
ghost use Rattle.std.specs.Prelude.{◌≡◌, ◌⊎◌, IfNone, IfSome, IsSomeAnd};
ghost use Rattle.cacache_program.specs.{About.{AsksHelp, AsksVersion, help_text, usage_text, version_text}, Output.{PutsOut}};

use crate::errors::Errors;
use crate::output::put_out;
use std::io::Write;

/// What the program says to wrong words.
pub const USAGE: &str =
    "usage: cacache write|read|find|remove CACHE KEY | ls|clear CACHE | storm THREADS KEYS\n";

/// What the program says to `--help`: the usage, and a line for each word.
pub const HELP: &str =
    "usage: cacache write|read|find|remove CACHE KEY | ls|clear CACHE | storm THREADS KEYS
  write CACHE KEY             stores standard input under the key, and prints its integrity
  read CACHE KEY              prints what is stored under the key, once it is verified
  find CACHE KEY              prints the key's entry, or none
  remove CACHE KEY            removes the key's entry; what was stored stays
  ls CACHE                    prints the entries of all keys, each on a line
  clear CACHE                 removes all that lies in the folder of the cache
  storm THREADS KEYS          tries 1 to 64 threads in memory, with 1 to 1000 keys each
  store CACHE KEY FILE        stores the file under the key, in pieces, and prints its integrity
  copy CACHE KEY FILE         copies what is stored to the file, once it is verified, and prints its size
  write-hash CACHE ALGORITHM  stores standard input without a key, and prints its integrity;
                              the algorithm is sha1, sha256, sha384 or sha512
  read-hash CACHE INTEGRITY   prints what is stored with this integrity, once it is verified
  exists CACHE INTEGRITY      prints yes if something is stored with this integrity, and else no
  --why                       before these words: says in brackets why a call failed
  --help, -h                  prints this
  --version, -V               prints the version
";

/// The program's name and version, and that of the crate that it is a port of.
pub const VERSION: &str = "cacache 0.1.0 (a port of 13.1.0)\n";

/// What a program says about itself.
#[derive(Clone, Copy)]
pub struct About {
    /// What it says to wrong words.
    pub usage: &'static str,
    /// What it says to `--help`.
    pub help: &'static str,
    /// What it says to `--version`.
    pub version: &'static str,
}

/// What the program `cacache` says about itself.
pub fn said() -> About
    ensures usage { result.usage.now ≡ usage_text }
    ensures help { result.help.now ≡ help_text }
    ensures version { result.version.now ≡ version_text }
{
    About {
        usage: USAGE,
        help: HELP,
        version: VERSION,
    }
}

/// Which of its texts the only word asks for.
fn text_of(words: &[String], about: About) -> Option<&'static str>
    ensures help { AsksHelp words.now → IsSomeAnd result (λ text. text.now ≡ about.help.now) }
    ensures version { AsksVersion words.now → IsSomeAnd result (λ text. text.now ≡ about.version.now) }
    ensures known { IfSome result (λ text. AsksHelp words.now ⊎ AsksVersion words.now) }
{
    match words {
        [word] => match word.as_str() {
            "--help" | "-h" => Some(about.help),
            "--version" | "-V" => Some(about.version),
            _ => None,
        },
        _ => None,
    }
}

/// Prints the program's help if the only word is `--help` or `-h`, and its version if it is `--version` or `-V`, and returns
/// the status: 0, or 1 if the output failed, which is printed on `errors`. Other words get no status, and print nothing.
pub fn tell<W: Write, E: Write>(
    words: &[String],
    about: About,
    output: &mut W,
    errors: &mut Errors<E>,
) -> Option<u8>
    ensures help { AsksHelp words.now → IsSomeAnd result
        (PutsOut about.help.now (W.contents output.old) (W.contents output.new)) }
    ensures version { AsksVersion words.now → IsSomeAnd result
        (PutsOut about.version.now (W.contents output.old) (W.contents output.new)) }
    ensures known { IfSome result (λ status. AsksHelp words.now ⊎ AsksVersion words.now) }
    ensures other { IfNone result ((output.new ≡ output.old) × (errors.new ≡ errors.old)) }
{
    match text_of(words, about) {
        Some(text) => Some(put_out(output, text.as_bytes(), errors)),
        None => None,
    }
}
