//! Steps on files.
ghost use Rattle.std.specs.Prelude.{Option, IfOk, IfErr};
ghost use Rattle.cacache_store.specs.declared.store.step.Step.TheVariants.{Append, ReadAll, Open, Size, Exists, RemoveFile};
ghost use Rattle.cacache_disk.specs.Plans.{IsPlan, Refuses};

use crate::change::{Change, Plan};
use crate::disk::Disk;
use crate::find::Wanted;
use crate::steps::answers::taken;
use crate::stop::Stop;
use cacache_core::bytes::Bytes;
use cacache_core::errors::Fault;
use cacache_core::text::Text;
use cacache_store::store::{Answer, PlainFile};

impl Disk {
    #[tactic(auto, unfolding(crate::specs::LedTo::writable))]
    pub(crate) fn append(
        &self,
        path: &Text,
        bytes: &Bytes,
        most: Option<usize>,
    ) -> Result<Plan, Stop>
        ensures ok { IfOk result (IsPlan self.now (Append path.now bytes.now) most) }
        ensures err { IfErr result (Refuses self.now (Append path.now bytes.now) most) }
    {
        let names = self.end_at(path.as_str(), Wanted::NoFolder)?;
        let count = taken(most, bytes);
        let more = bytes.share()?.front(count);
        Ok(Plan::of(Answer::Took(count), Change::Append(names, more)))
    }

    pub(crate) fn read_all(&self, path: &Text, most: Option<usize>) -> Result<Plan, Stop>
        ensures ok { IfOk result (IsPlan self.now (ReadAll path.now) most) }
        ensures err { IfErr result (Refuses self.now (ReadAll path.now) most) }
    {
        let bytes = self.file_at(path.as_str(), Fault::IsADirectory)?.bytes()?;
        Ok(Plan::of(Answer::Bytes(bytes), Change::Nothing))
    }

    pub(crate) fn opened(&self, path: &Text, most: Option<usize>) -> Result<Plan, Stop>
        ensures ok { IfOk result (IsPlan self.now (Open path.now) most) }
        ensures err { IfErr result (Refuses self.now (Open path.now) most) }
    {
        let bytes = self.file_at(path.as_str(), Fault::IsADirectory)?.bytes()?;
        let file = PlainFile {
            left: bytes.len(),
            bytes: Some(bytes),
        };
        Ok(Plan::of(Answer::File(file), Change::Nothing))
    }

    pub(crate) fn size(&self, path: &Text, most: Option<usize>) -> Result<Plan, Stop>
        ensures ok { IfOk result (IsPlan self.now (Size path.now) most) }
        ensures err { IfErr result (Refuses self.now (Size path.now) most) }
    {
        let count = self.file_at(path.as_str(), Fault::IsADirectory)?.len();
        Ok(Plan::of(Answer::Length(count as u64), Change::Nothing))
    }

    #[tactic(auto, unfolding(crate::specs::LedTo::found))]
    pub(crate) fn exists(&self, path: &Text, most: Option<usize>) -> Result<Plan, Stop>
        ensures ok { IfOk result (IsPlan self.now (Exists path.now) most) }
        ensures err { IfErr result (Refuses self.now (Exists path.now) most) }
    {
        let is = match self.end_at(path.as_str(), Wanted::Anything) {
            Ok(_) => true,
            Err(Stop::Fault(Fault::NotFound | Fault::NotADirectory)) => false,
            Err(stop) => return Err(stop),
        };
        Ok(Plan::of(Answer::There(is), Change::Nothing))
    }

    #[tactic(auto, unfolding(crate::specs::LedTo::removable))]
    pub(crate) fn remove_file(&self, path: &Text, most: Option<usize>) -> Result<Plan, Stop>
        ensures ok { IfOk result (IsPlan self.now (RemoveFile path.now) most) }
        ensures err { IfErr result (Refuses self.now (RemoveFile path.now) most) }
    {
        let names = self.at(path.as_str(), Wanted::FileOrLink)?;
        Ok(Plan::of(Answer::Done, Change::Remove(names)))
    }
}
