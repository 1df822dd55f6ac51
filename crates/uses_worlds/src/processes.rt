//! What several processes on one folder see of one bucket, in a user's words. Nothing is done.
ghost use Rattle.uses_worlds.specs.Callers.{AppendedAreFound, LookupsReadWhole};

use cacache::laws::bucket_file_laws;

/// Processes append to one bucket's file and look keys up in it, system call by system call, and may be killed. A lookup
/// reads the entries that are whole at one moment, and finds each entry with an append that answered before it began.
pub fn processes_share_a_bucket()
    ensures whole { LookupsReadWhole }
    ensures found { AppendedAreFound }
{
    bucket_file_laws();
}
