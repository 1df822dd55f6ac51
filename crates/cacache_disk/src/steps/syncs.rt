//! Steps that wait for the device. They change nothing that another step sees.
ghost use Rattle.std.specs.Prelude.{Option, IfOk, IfErr};
ghost use Rattle.cacache_store.specs.declared.store.step.Step.TheVariants.{SyncTemp, SyncFile, SyncDir};
ghost use Rattle.cacache_disk.specs.Plans.{IsPlan, Refuses};

use crate::change::{Change, Plan};
use crate::disk::Disk;
use crate::find::Wanted;
use crate::steps::answers::copy_of_temp;
use crate::stop::Stop;
use cacache_core::errors::Fault;
use cacache_core::text::Text;
use cacache_store::store::{Answer, PlainTemp};

impl Disk {
    pub(crate) fn sync_temp(&self, temp: &PlainTemp, most: Option<usize>) -> Result<Plan, Stop>
        ensures ok { IfOk result (IsPlan self.now (SyncTemp temp.now) most) }
        ensures err { IfErr result (Refuses self.now (SyncTemp temp.now) most) }
    {
        let synced = copy_of_temp(temp)?;
        Ok(Plan::of(Answer::Synced(synced), Change::Nothing))
    }

    pub(crate) fn sync_file(&self, path: &Text, most: Option<usize>) -> Result<Plan, Stop>
        ensures ok { IfOk result (IsPlan self.now (SyncFile path.now) most) }
        ensures err { IfErr result (Refuses self.now (SyncFile path.now) most) }
    {
        let _file = self.file_at(path.as_str(), Fault::IsADirectory)?;
        Ok(Plan::of(Answer::Done, Change::Nothing))
    }

    #[tactic(auto, unfolding(crate::specs::LedTo::folder))]
    pub(crate) fn sync_dir(&self, path: &Text, most: Option<usize>) -> Result<Plan, Stop>
        ensures ok { IfOk result (IsPlan self.now (SyncDir path.now) most) }
        ensures err { IfErr result (Refuses self.now (SyncDir path.now) most) }
    {
        let names = self.at(path.as_str(), Wanted::Folder)?;
        Ok(Plan::of(Answer::Done, Change::Nothing))
    }
}
