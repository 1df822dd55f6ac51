//! Syncs of real files and folders: the system is asked to put what they hold on its device.
ghost use Rattle.cacache_system.specs.declared.call.CallResult.TheVariants as says;
ghost use Rattle.cacache_system.specs.{Seen.{said}, CallsOf.{RunLogged}};
ghost use Rattle.cacache_system.specs.CallsOf as calls;

use crate::folder::files::opened;
use crate::folder::refusing::{if_folder, unless_folder};
use cacache_system::System;
use std::io;
use std::io::ErrorKind;

/// Syncs the bytes of the file at the path. A link is followed.
pub(crate) fn sync_file<Y: System>(system: &mut Y, path: &str) -> io::Result<()>
    ensures { RunLogged (calls.opening calls.to_sync path.now) (said (λ _. says.Done) result)
        (Y.calls system.old) (Y.calls system.new) }
{
    match opened(system, path) {
        Ok((file, info)) => match unless_folder(info.kind) {
            None => system.sync(&file),
            Some(why) => Err(io::Error::from(why)),
        },
        Err(error) => Err(error),
    }
}

/// Syncs the names in the folder at the path. A link is followed, as in a listing.
pub(crate) fn sync_dir<Y: System>(system: &mut Y, path: &str) -> io::Result<()>
    ensures { RunLogged (calls.opening calls.to_sync_folder path.now) (said (λ _. says.Done) result)
        (Y.calls system.old) (Y.calls system.new) }
{
    match opened(system, path) {
        Ok((folder, info)) => match if_folder(info.kind, ErrorKind::NotADirectory) {
            None => system.sync(&folder),
            Some(why) => Err(io::Error::from(why)),
        },
        Err(error) => Err(error),
    }
}
