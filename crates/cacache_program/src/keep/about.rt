//! What the program says about itself.
ghost use Rattle.std.specs.Prelude.{◌≡◌};
ghost use Rattle.cacache_program.specs.KeepAbout.{help_text, usage_text, version_text};

use crate::about::About;

/// What the program says to wrong words.
pub const USAGE: &str = "usage: cacache-keep verify|collect CACHE\n";

/// What the program says to `--help`: the usage, and a line for each word.
pub const HELP: &str = "usage: cacache-keep verify|collect CACHE
  verify CACHE   counts good and damaged contents, entries without one, and other files;
                 the status is 3 if there are any but good contents
  verify --list CACHE
                 the same, and after it a line for each but the good contents, which names it,
                 and for each bucket with lines that can't be read here;
                 in a path, \\\\ stands for \\, and \\x and two hex digits for a control character
  collect CACHE  removes the contents that no entry has, and counts the kept and the dropped
  collect --grace SECONDS --keep FILE --durable --anyway CACHE
                 the same with any of these, and counts also the young and those that were gone:
                 leaves what changed in the last SECONDS, or what a line of FILE names; syncs the
                 index first; goes on if the index has lines that can't be read here
  plan CACHE     counts what collect would keep and drop, and changes nothing; it names
                 each bucket with lines that can't be read here
  sweep CACHE    removes temporary files, and counts them, their bytes, and other files there
  repair CACHE   removes damaged contents, and the keys that lead to none, and counts both
  repair --anyway CACHE
                 the same, even if the index has lines that can't be read here
  compact CACHE  writes the index anew without old lines, and counts the buckets and bytes saved
  compact --durable CACHE
                 the same, and syncs what it leaves, so that it outlasts a loss of power
  touch KEY CACHE
                 marks the key as used now, so that prune counts it as new; says how many that was
  prune BYTES SECONDS CACHE
                 drops the oldest entries, until the others have at most so many bytes and none
                 is older than so many seconds, or - for no limit, and collects the cache;
                 it says how many bytes all entries had, and those have that stay, and names the dropped ones;
                 --grace, --keep and --durable are as with collect; what couldn't be dropped is named as left,
                 and the status is 1; units are K, M and G of 1024, and s, m, h and d, as in 300M and 30d
  plan-prune BYTES SECONDS CACHE
                 says what prune would drop, and changes nothing; it also names each bucket with
                 lines that can't be read here
  tidy --size BYTES --age SECONDS --grace SECONDS --keep FILE CACHE
                 sweeps, prunes within these limits if there are any, compacts and collects;
                 each prints what it prints alone, collect also young and gone; none comes after one that failed
  --why          before these words: says in brackets why a call failed
  --help, -h     prints this
  --version, -V  prints the version
";

/// The program's name and version, and that of the crate that the calls are a port of.
pub const VERSION: &str = "cacache-keep 0.1.0 (a port of 13.1.0)\n";

/// What the program says about itself.
pub fn said() -> About
    ensures usage { result.usage.now ≡ usage_text }
    ensures help { result.help.now ≡ help_text }
    ensures version { result.version.now ≡ version_text }
{
    About {
        usage: USAGE,
        help: HELP,
        version: VERSION,
    }
}
