//! A disk in memory, step by step.
ghost use Rattle.std.specs.{Prelude.{◌≡◌, false, IfOk, OnOk, OnErr, MatchResult, Ok, Err, option_map, option_copied}, Arc.{arc_value}};
ghost use Rattle.cacache_store.specs.Plain.{Fits, is_no_memory};
ghost use Rattle.cacache_disk.specs.{Tree.{Rooted, bare}, Apply.{apply, Plants, bytes_at}};

use crate::change::Plan;
use crate::luck::Luck;
use crate::node::Node;
use crate::nodes::Nodes;
use crate::path::Path;
use crate::steps::answers::copy_of;
use crate::stop::Stop;
use cacache_core::bytes::Bytes;
use cacache_core::errors::Fault;
use cacache_core::keeping::let_go;
use cacache_store::store::{Answer, PlainFile, PlainTemp, Step};
use std::alloc::{AllocError, Global};
use std::marker::Model;
use std::sync::Arc;

/// A disk in memory. Contracts see its tree: the node at each path.
#[derive(Debug, Drop)]
pub struct Disk {
    nodes: Nodes,
}

impl Model for Disk {
    ghost use Rattle.std.specs.FinMap as map;
    ghost use Rattle.cacache_disk.specs.Tree.{Tree};

    ghost Value = { Tree };

    ghost use Rattle.std.specs.Coded.{coded_list, coded_ℕ};
    ghost use Rattle.cacache_disk.specs.contracts.node.Node as node;

    ghost coded = { map.code (coded_list (coded_list coded_ℕ)) node.the_row.coded };

    ghost view = { λ d. d.nodes };

    ghost use Rattle.cacache_disk.specs.Tree.{Rooted};

    ghost invariant = { λ d. Rooted d.nodes };
}

/// The value, if all succeeded.
fn when_done<T: Drop>(done: Result<(), AllocError>, value: T) -> Result<T, AllocError>
    ensures { MatchResult done (λ _. result ≡ Ok value) (λ error. result ≡ Err error) }
{
    match done {
        Ok(()) => Ok(value),
        Err(error) => Err(error),
    }
}

impl Disk {
    /// A disk that holds nothing but its top folder.
    pub fn new(alloc: Global) -> Result<Disk, AllocError>
        ensures bare { IfOk result (λ d. d ≡ bare) }
        ensures rooted { IfOk result (λ d. Rooted d) }
    {
        let mut nodes = Nodes::new(alloc);
        nodes.put(Path::top(alloc), Node::Folder)?;
        Ok(Disk { nodes })
    }

    /// The disk with these nodes, each of which is in a folder.
    pub fn of(nodes: Nodes) -> Disk
        requires { Rooted nodes }
        ensures { result ≡ nodes }
    {
        Disk { nodes }
    }

    /// The nodes by their paths.
    pub fn nodes(&self) -> &Nodes
        ensures same { result.now ≡ self.now }
        ensures rooted { Rooted self.now }
    {
        &self.nodes
    }

    /// Does one step. If it fails, the answer says why.
    ///
    /// `AllocError` means that memory was refused, and nothing changed.
    pub fn apply(
        &mut self,
        step: &Step<PlainFile, PlainTemp>,
        luck: Luck,
    ) -> Result<Answer<PlainFile, PlainTemp>, AllocError>
        ensures ok { IfOk result (λ answer. apply self.old step.now luck ≡ (answer, self.new)) }
        ensures fits { IfOk result (λ answer. Fits step.now answer) }
        ensures told { IfOk result (λ answer. is_no_memory answer ≡ false) }
        ensures rooted { OnOk result (Rooted self.new) }
        ensures err { OnErr result (self.new ≡ self.old) }
    {
        let plan = self.outcome(step, luck)?;
        let Plan { answer, change } = plan;
        when_done(self.nodes.commit(change), answer)
    }

    /// Does one step as `apply` does, and gives the answer and a copy of it, which a log keeps.
    pub fn apply_logged(
        &mut self,
        step: &Step<PlainFile, PlainTemp>,
        luck: Luck,
    ) -> Result<(Answer<PlainFile, PlainTemp>, Answer<PlainFile, PlainTemp>), AllocError>
        ensures ok { IfOk result (λ r. apply self.old step.now luck ≡ (r.0, self.new)) }
        ensures copy { IfOk result (λ r. r.1 ≡ r.0) }
        ensures fits { IfOk result (λ r. Fits step.now r.0) }
        ensures told { IfOk result (λ r. is_no_memory r.0 ≡ false) }
        ensures rooted { OnOk result (Rooted self.new) }
        ensures err { OnErr result (self.new ≡ self.old) }
    {
        let plan = self.outcome(step, luck)?;
        let copy = match copy_of(&plan.answer, self.nodes.alloc()) {
            Ok(copy) => copy,
            Err(error) => {
                let_go(plan);
                return Err(error);
            }
        };
        let Plan { answer, change } = plan;
        when_done(self.nodes.commit(change), (answer, copy))
    }

    /// Does what somebody else may do: makes the missing folders of the path's folder, and puts a
    /// file with these bytes at the path, in place of a file or link. If that can't be done, the
    /// fault says why.
    ///
    /// `AllocError` means that memory was refused. On a fault and on an error nothing changed.
    #[tactic(auto, unfolding(crate::specs::Apply::planted))]
    pub fn plant(&mut self, path: &str, bytes: &Bytes) -> Result<Result<(), Fault>, AllocError>
        ensures done { IfOk result (λ r. Plants self.old path.now bytes.now r self.new) }
        ensures fault { IfOk result (λ r. OnErr r (self.new ≡ self.old)) }
        ensures rooted { IfOk result (λ r. OnOk r (Rooted self.new)) }
        ensures err { OnErr result (self.new ≡ self.old) }
    {
        match self.planting(path, bytes) {
            Ok(change) => when_done(self.nodes.commit(change), Ok(())),
            Err(Stop::Fault(fault)) => Ok(Err(fault)),
            Err(Stop::OutOfMemory) => Err(AllocError),
        }
    }

    /// The bytes that a `ReadAll` of the path would give, or None if it would fail. No byte is
    /// copied.
    ///
    /// `AllocError` means that memory was refused.
    pub fn shared(&self, path: &str) -> Result<Option<&Arc<Vec<u8>, Global>>, AllocError>
        ensures { IfOk result (λ found. option_map (λ v. v.items)
            (option_map arc_value (option_copied found)) ≡ bytes_at self.now path.now) }
    {
        match self.file_at(path, Fault::IsADirectory) {
            Ok(contents) => Ok(Some(contents.shared())),
            Err(Stop::Fault(_)) => Ok(None),
            Err(Stop::OutOfMemory) => Err(AllocError),
        }
    }
}

impl Clone for Disk {
    ghost is_clone = { λ d e. e ≡ d };

    fn clone(&self) -> Result<Disk, AllocError> {
        Ok(Disk {
            nodes: self.nodes.clone()?,
        })
    }
}
