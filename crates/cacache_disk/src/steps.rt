//! Steps on a disk.
ghost use Rattle.std.specs.Prelude.{◌≡◌, Option, false, IfOk, IfErr};
ghost use Rattle.cacache_store.specs.Plain.{Fits, is_no_memory};
ghost use Rattle.cacache_disk.specs.{Apply.{apply, is_taking, is_parted, made_up}, Plans.{IsPlan, Refuses, changed, most_of, with_luck, left_over}};

pub(crate) mod answers;
mod files;
mod folders;
mod handles;
mod links;
mod syncs;

use crate::change::{Change, Plan};
use crate::disk::Disk;
use crate::luck::Luck;
use crate::stop::Stop;
use cacache_core::errors::Fault;
use cacache_core::keeping::let_go;
use cacache_store::store::{Answer, PlainFile, PlainTemp, Step};
use std::alloc::AllocError;

/// Whether a take does only a part of the step.
fn is_taking(step: &Step<PlainFile, PlainTemp>) -> bool
    ensures { result ≡ is_taking step.now }
{
    matches!(
        step,
        Step::Write(_, _) | Step::Append(_, _) | Step::Read(_, _)
    )
}

/// Whether the step leaves a part done if it fails.
fn is_parted(step: &Step<PlainFile, PlainTemp>) -> bool
    ensures { result ≡ is_parted step.now }
{
    matches!(
        step,
        Step::MakeDirs(_) | Step::Append(_, _) | Step::Copy(_, _)
    )
}

/// How many of its bytes or folders a step may do.
fn most_of(step: &Step<PlainFile, PlainTemp>, luck: Luck) -> Option<usize>
    ensures { result ≡ most_of step.now luck }
{
    match luck {
        Luck::Plain => None,
        Luck::Take(most) => { if is_taking(step) { Some(most) } else { None } }
        Luck::Fail(_, part) => { if is_parted(step) { part } else { None } }
    }
}

/// The fault that luck may give in place of this one.
fn made_up(fault: Fault) -> Fault
    ensures { result ≡ made_up fault }
{
    match fault {
        Fault::NotFound => Fault::Device,
        other => other,
    }
}

/// The change, if a part of it is left done.
fn left_over(is_parted: bool, part: Option<usize>, change: Change) -> Change
    ensures { result ≡ left_over is_parted part change }
{
    match part {
        Some(_) if is_parted => change,
        _ => {
            let_go(change);
            Change::Nothing
        }
    }
}

/// What becomes of a plan under luck.
fn with_luck(step: &Step<PlainFile, PlainTemp>, luck: Luck, plan: Plan) -> Plan
    ensures { result ≡ with_luck step.now luck plan }
{
    let Luck::Fail(fault, part) = luck else {
        return plan;
    };
    let Plan { answer, change } = plan;
    let_go(answer);
    Plan {
        answer: Answer::Failed(made_up(fault)),
        change: left_over(is_parted(step), part, change),
    }
}

impl Disk {
    /// What a step answers under luck, and what it changes then.
    pub(crate) fn outcome(
        &self,
        step: &Step<PlainFile, PlainTemp>,
        luck: Luck,
    ) -> Result<Plan, AllocError>
        ensures ok { IfOk result (λ plan.
            apply self.now step.now luck ≡ (plan.answer, changed self.now plan.change)) }
        ensures fits { IfOk result (λ plan. Fits step.now plan.answer) }
        ensures told { IfOk result (λ plan. is_no_memory plan.answer ≡ false) }
    {
        match self.plan(step, most_of(step, luck)) {
            Ok(plan) => Ok(with_luck(step, luck, plan)),
            Err(Stop::Fault(fault)) => Ok(Plan {
                answer: Answer::Failed(fault),
                change: Change::Nothing,
            }),
            Err(Stop::OutOfMemory) => Err(AllocError),
        }
    }

    /// What a step answers and changes, if at most `most` of its bytes or folders are done.
    fn plan(&self, step: &Step<PlainFile, PlainTemp>, most: Option<usize>) -> Result<Plan, Stop>
        ensures ok { IfOk result (IsPlan self.now step.now most) }
        ensures err { IfErr result (Refuses self.now step.now most) }
    {
        match step {
            Step::MakeDirs(path) => self.make_dirs(path, most),
            Step::CreateTemp(path) => self.create_temp(path, most),
            Step::Write(temp, bytes) => self.write(temp, bytes, most),
            Step::Persist(temp, path) => self.persist(temp, path, most),
            Step::Append(path, bytes) => self.append(path, bytes, most),
            Step::ReadAll(path) => self.read_all(path, most),
            Step::Open(path) => self.opened(path, most),
            Step::Read(file, size) => self.read(file, *size, most),
            Step::Size(path) => self.size(path, most),
            Step::Exists(path) => self.exists(path, most),
            Step::Symlink(target, path) => self.symlink(target, path, most),
            Step::Copy(from, to) => self.copy(from, to, most),
            Step::Reflink(from, to) => self.reflink(from, to, most),
            Step::HardLink(from, to) => self.hard_link(from, to, most),
            Step::ReadDir(path) => self.read_dir(path, most),
            Step::RemoveFile(path) => self.remove_file(path, most),
            Step::RemoveDir(path) => self.remove_dir(path, most),
            Step::SyncTemp(temp) => self.sync_temp(temp, most),
            Step::SyncFile(path) => self.sync_file(path, most),
            Step::SyncDir(path) => self.sync_dir(path, most),
        }
    }
}
