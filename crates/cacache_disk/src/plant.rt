//! What somebody else may do to a disk.
ghost use Rattle.std.specs.Prelude.{◌≡◌, IfOk, IfErr, Ok};
ghost use Rattle.cacache_disk.specs.{Apply.{planted}, Plans.{changed, Stops}};

use crate::change::Change;
use crate::contents::Contents;
use crate::disk::Disk;
use crate::find::{Wanted, suited};
use crate::path::Path;
use crate::stop::Stop;
use cacache_core::bytes::Bytes;

impl Disk {
    /// What changes if the missing folders of the path's folder are made, and a file with these
    /// bytes is put at the path, in place of a file or link.
    #[tactic(auto, unfolding(crate::specs::Apply::planted))]
    pub(crate) fn planting(&self, path: &str, bytes: &Bytes) -> Result<Change, Stop>
        ensures ok { IfOk result (λ change.
            planted self.now path.now bytes.now ≡ Ok (changed self.now change)) }
        ensures err { IfErr result (λ stop. Stops stop (planted self.now path.now bytes.now)) }
    {
        let nodes = self.nodes();
        let names = Path::of(nodes.alloc(), path)?;
        let folder = names.front(nodes.alloc(), names.len().saturating_sub(1))?;
        let from = self.made_from(&folder)?;
        let names = suited(Wanted::NoFolder, nodes.node(&names), names)?;
        let contents = Contents::of(bytes.share()?)?;
        let most = folder.len();
        Ok(Change::MakeFolders(folder, from, most, Some((names, contents))))
    }
}
