//! Refusals of a file or folder because of its kind.
ghost use Rattle.std.specs.Prelude.{◌≡◌};
ghost use Rattle.cacache_system.specs.CallsOf.{Stage, unless_folder as no_folder_goes, if_folder as folders_go};
ghost use Rattle.cacache_folder.specs.Goings.{unless};

use cacache_store::store::Kind;
use std::io::ErrorKind;

/// Why a folder is refused.
pub(crate) fn unless_folder(kind: Kind) -> Option<ErrorKind>
    ensures { (s : Stage) → no_folder_goes kind s ≡ unless result s }
{
    match kind {
        Kind::Folder => Some(ErrorKind::IsADirectory),
        _ => None,
    }
}

/// Why what isn't a folder is refused: for the reason that is given.
pub(crate) fn if_folder(kind: Kind, why: ErrorKind) -> Option<ErrorKind>
    ensures { (s : Stage) → folders_go kind why s ≡ unless result s }
{
    match kind {
        Kind::Folder => None,
        _ => Some(why),
    }
}
