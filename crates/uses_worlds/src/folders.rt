//! What many callers over real folders see, in a user's words, as a model of the system has it. Nothing is done.
ghost use Rattle.uses_worlds.specs.Callers.{FoldersAreSafe};

use cacache::laws::system_history_laws;

/// Callers over real folders of one machine store, look and remove, in a cache that others may have left there. They did what
/// callers of a world might have done: bytes that are read by a key meet the integrity of an entry of that key, and a put
/// that was cut short is safe.
pub fn folders_are_safe()
    ensures { FoldersAreSafe }
{
    system_history_laws();
}
