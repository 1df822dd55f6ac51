//! Steps on folders.
ghost use Rattle.std.specs.Prelude.{◌≡◌, Option, IfOk, IfErr};
ghost use Rattle.cacache_store.specs.declared.store.step.Step.TheVariants.{MakeDirs, ReadDir, RemoveDir};
ghost use Rattle.cacache_disk.specs.{Apply.{making}, Plans.{IsPlan, Refuses}};

use crate::change::{Change, Plan};
use crate::disk::Disk;
use crate::find::Wanted;
use crate::path::Path;
use crate::stop::Stop;
use cacache_core::text::Text;
use cacache_store::store::Answer;

/// How many folders may be made of those that a path names.
fn making(most: Option<usize>, names: &Path) -> usize
    ensures { result ≡ making most names.now }
{
    match most {
        None => names.len(),
        Some(most) => most,
    }
}

impl Disk {
    #[tactic(auto, unfolding(crate::specs::LedTo::dirs))]
    pub(crate) fn make_dirs(&self, path: &Text, most: Option<usize>) -> Result<Plan, Stop>
        ensures ok { IfOk result (IsPlan self.now (MakeDirs path.now) most) }
        ensures err { IfErr result (Refuses self.now (MakeDirs path.now) most) }
    {
        let names = Path::of(self.nodes().alloc(), path.as_str())?;
        let from = self.made_from(&names)?;
        let count = making(most, &names);
        Ok(Plan::of(Answer::Done, Change::MakeFolders(names, from, count, None)))
    }

    #[tactic(auto, unfolding(crate::specs::LedTo::folder))]
    pub(crate) fn read_dir(&self, path: &Text, most: Option<usize>) -> Result<Plan, Stop>
        ensures ok { IfOk result (IsPlan self.now (ReadDir path.now) most) }
        ensures err { IfErr result (Refuses self.now (ReadDir path.now) most) }
    {
        let names = self.at(path.as_str(), Wanted::Folder)?;
        let listing = self.nodes().listing(&names)?;
        Ok(Plan::of(Answer::Names(listing), Change::Nothing))
    }

    pub(crate) fn remove_dir(&self, path: &Text, most: Option<usize>) -> Result<Plan, Stop>
        ensures ok { IfOk result (IsPlan self.now (RemoveDir path.now) most) }
        ensures err { IfErr result (Refuses self.now (RemoveDir path.now) most) }
    {
        let names = self.emptied(path.as_str())?;
        Ok(Plan::of(Answer::Done, Change::Remove(names)))
    }
}
