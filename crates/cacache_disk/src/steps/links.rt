//! Steps that give a file or its bytes a second path.
ghost use Rattle.std.specs.Prelude.{Option, IfOk, IfErr};
ghost use Rattle.cacache_store.specs.declared.store.step.Step.TheVariants.{Symlink, Copy, Reflink, HardLink};
ghost use Rattle.cacache_disk.specs.Plans.{IsPlan, Refuses};

use crate::change::{Change, Plan};
use crate::contents::Contents;
use crate::disk::Disk;
use crate::find::Wanted;
use crate::node::Node;
use crate::steps::answers::taken;
use crate::stop::Stop;
use cacache_core::errors::Fault;
use cacache_core::text::Text;
use cacache_store::store::Answer;

impl Disk {
    #[tactic(auto, unfolding(crate::specs::LedTo::free))]
    pub(crate) fn symlink(
        &self,
        target: &Text,
        path: &Text,
        most: Option<usize>,
    ) -> Result<Plan, Stop>
        ensures ok { IfOk result (IsPlan self.now (Symlink target.now path.now) most) }
        ensures err { IfErr result (Refuses self.now (Symlink target.now path.now) most) }
    {
        let names = self.at(path.as_str(), Wanted::Nothing)?;
        let target = target.clone()?;
        Ok(Plan::of(Answer::Done, Change::Put(names, Node::Link(target))))
    }

    #[tactic(auto, unfolding(crate::specs::LedTo::writable))]
    pub(crate) fn copy(&self, from: &Text, to: &Text, most: Option<usize>) -> Result<Plan, Stop>
        ensures ok { IfOk result (IsPlan self.now (Copy from.now to.now) most) }
        ensures err { IfErr result (Refuses self.now (Copy from.now to.now) most) }
    {
        let bytes = self.file_at(from.as_str(), Fault::InvalidInput)?.bytes()?;
        let names = self.end_at(to.as_str(), Wanted::NoFolder)?;
        let all = bytes.len();
        let count = taken(most, &bytes);
        let copied = Contents::of(bytes.front(count))?;
        Ok(Plan::of(Answer::Took(all), Change::Put(names, Node::File(copied))))
    }

    #[tactic(auto, unfolding(crate::specs::LedTo::free))]
    pub(crate) fn reflink(&self, from: &Text, to: &Text, most: Option<usize>) -> Result<Plan, Stop>
        ensures ok { IfOk result (IsPlan self.now (Reflink from.now to.now) most) }
        ensures err { IfErr result (Refuses self.now (Reflink from.now to.now) most) }
    {
        let names = self.at(to.as_str(), Wanted::Nothing)?;
        let contents = self.file_at(from.as_str(), Fault::IsADirectory)?.share()?;
        Ok(Plan::of(Answer::Done, Change::Put(names, Node::File(contents))))
    }

    #[tactic(auto, unfolding(crate::specs::LedTo::free))]
    pub(crate) fn hard_link(
        &self,
        from: &Text,
        to: &Text,
        most: Option<usize>,
    ) -> Result<Plan, Stop>
        ensures ok { IfOk result (IsPlan self.now (HardLink from.now to.now) most) }
        ensures err { IfErr result (Refuses self.now (HardLink from.now to.now) most) }
    {
        let names = self.at(to.as_str(), Wanted::Nothing)?;
        let node = self.linked(from.as_str())?;
        Ok(Plan::of(Answer::Done, Change::Put(names, node)))
    }
}
