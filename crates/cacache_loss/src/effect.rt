//! What a step does to how far files are fixed.
ghost use Rattle.std.specs.{Prelude.{◌≡◌, if◌then◌else◌, IfOk, OnOk, option_copied}, BTreeMap.{get}};
ghost use Rattle.cacache_store.specs.declared.store.step.Step.TheVariants.{Persist};
ghost use Rattle.cacache_disk.specs.Tree.{Tree, Names, names_cmp, look, same_path};
ghost use Rattle.cacache_loss.specs.{Fixing.{renamed, moves_file}, Running.{files_in, FixesFiles, KeepsPlace, is_done, arrival, effect_of, arrived, fixing_by, renames}};

use crate::fixing::{Fixing, Place, same_node, same_thing};
use crate::reached::named;
use cacache_disk::{Disk, Node, Path};
use cacache_store::store::{Answer, PlainFile, PlainTemp, Step};
use std::alloc::{AllocError, Global};
use std::cmp::Ordering;
use std::collections::BTreeMap;

/// What a step does at the paths that it reaches.
#[derive(Debug, Drop)]
pub(crate) struct Effect {
    /// Whether it writes files anew.
    pub(crate) rewrites: bool,
    /// Whether it writes to a temporary file.
    pub(crate) writes: bool,
    /// Where a file moved to, and how far it is fixed, if one moved.
    pub(crate) moved: Option<(Path, Fixing)>,
}

/// How far the file at a path is fixed.
pub(crate) fn fixing_at(first: &Disk, files: &BTreeMap<Path, Fixing>, path: &Path) -> Fixing
    ensures { result ≡ files_in first.now files.now path.now }
{
    match files.get(path) {
        Some(fixing) => *fixing,
        None => Fixing::synced(first.nodes().node(path)),
    }
}

/// Whether a step that moves a file did so.
fn is_done(answer: &Answer<PlainFile, PlainTemp>) -> bool
    ensures { result ≡ is_done answer.now }
{
    matches!(answer, Answer::Done)
}

/// Where a temporary file moved to, and how far it is fixed, if it did.
fn arrival(
    alloc: Global,
    first: &Disk,
    files: &BTreeMap<Path, Fixing>,
    temp: &PlainTemp,
    to: &str,
    answer: &Answer<PlainFile, PlainTemp>,
) -> Result<Option<(Path, Fixing)>, AllocError>
    ensures { IfOk result (λ moved. moved ≡ arrival (files_in first.now files.now)
        (moves_file (Persist temp.now to.now) answer.now)) }
{
    if !is_done(answer) {
        return Ok(None);
    }
    let from = named(alloc, temp.path.as_str())?;
    let to = named(alloc, to)?;
    match (from, to) {
        (Some(from), Some(to)) => Ok(Some((to, fixing_at(first, files, &from)))),
        (Some(_), None) | (None, Some(_)) | (None, None) => Ok(None),
    }
}

/// The effect of a step with this answer.
pub(crate) fn effect_of(
    alloc: Global,
    first: &Disk,
    files: &BTreeMap<Path, Fixing>,
    step: &Step<PlainFile, PlainTemp>,
    answer: &Answer<PlainFile, PlainTemp>,
) -> Result<Effect, AllocError>
    ensures { IfOk result (λ effect.
        effect ≡ effect_of (files_in first.now files.now) step.now answer.now) }
{
    let moved = match step {
        Step::Persist(temp, to) => arrival(alloc, first, files, temp, to.as_str(), answer)?,
        _ => None,
    };
    Ok(Effect {
        rewrites: matches!(step, Step::Copy(_, _)),
        writes: matches!(step, Step::Write(_, _)),
        moved,
    })
}

/// Whether two paths are the same.
pub(crate) fn same_path(path: &Path, other: &Path) -> bool
    ensures { result ≡ same_path path.now other.now }
{
    path.cmp(other) == Ordering::Equal
}

/// Fixes the file at a path this far.
pub(crate) fn fix(
    files: &mut BTreeMap<Path, Fixing>,
    path: Path,
    fixing: Fixing,
) -> Result<(), AllocError>
    ensures { OnOk result
        (FixesFiles files.old files.new (λ q. same_path q path) (λ _. fixing)) }
{
    files.insert(path, fixing)?;
    Ok(())
}

/// Keeps what was at a path, if its name changed and nothing is kept of it yet.
fn keep(
    names: &mut BTreeMap<Path, Place>,
    path: &Path,
    was: &Place,
    renames: bool,
) -> Result<(), AllocError>
    ensures { OnOk result (KeepsPlace names.old names.new path.now renames was.now) }
{
    if !renames {
        return Ok(());
    }
    if names.contains_key(path) {
        return Ok(());
    }
    names.insert(path.clone()?, was.clone()?)?;
    Ok(())
}

impl Effect {
    /// How far the file that moved to a path is fixed, if one moved there.
    fn arrived(&self, path: &Path) -> Option<Fixing>
        ensures { result ≡ arrived self.now.moved path.now }
    {
        match &self.moved {
            Some((to, fixing)) if same_path(path, to) => Some(*fixing),
            Some(_) | None => None,
        }
    }

    /// How far the file at a path is fixed after the step.
    fn fixing(&self, path: &Path, was: &Place, now: Option<&Node>) -> Fixing
        ensures { result ≡ fixing_by self.now was.now (option_copied now.entry) path.now }
    {
        if let Some(fixing) = self.arrived(path) {
            return fixing;
        }
        let old = was.node.as_ref();
        was.fixing
            .opened_if(self.writes)
            .refixed(self.rewrites, same_node(old, now), same_thing(old, now))
    }

    /// Whether another thing is at a path after the step.
    fn renames(&self, path: &Path, was: &Place, now: Option<&Node>) -> bool
        ensures { result ≡ renames self.now was.now (option_copied now.entry) path.now }
    {
        self.arrived(path).is_some() || !same_thing(was.node.as_ref(), now)
    }

    /// Keeps what is fixed at a path after the step.
    pub(crate) fn settle(
        &self,
        disk: &Disk,
        path: &Path,
        was: &Place,
        files: &mut BTreeMap<Path, Fixing>,
        names: &mut BTreeMap<Path, Place>,
    ) -> Result<(), AllocError>
        ensures files { OnOk result (FixesFiles files.old files.new (λ q. same_path q path.now)
            (λ _. fixing_by self.now was.now (look disk.now path.now) path.now)) }
        ensures names { OnOk result (KeepsPlace names.old names.new path.now
            (renames self.now was.now (look disk.now path.now) path.now) was.now) }
    {
        let now = disk.nodes().node(path);
        keep(names, path, was, self.renames(path, was, now))?;
        fix(files, path.clone()?, self.fixing(path, was, now))
    }
}
