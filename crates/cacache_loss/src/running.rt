//! A disk on which steps are made, and what of it is fixed.
ghost use Rattle.std.specs.{Prelude.{◌≡◌, IfOk, OnOk, map, length, true, false}, BTreeMap.{get}};
ghost use Rattle.cacache_disk.specs.{Apply.{apply}, Tree.{Tree, names_cmp}};
ghost use Rattle.cacache_loss.specs.{ChangedNames.{opening}, Fixing.{place_now, is_sync}, Moments.{next}, Running.{files_in, fixed_in, moment_of, move_of, FilesSettle, NamesSettle}};

use crate::effect::{Effect, effect_of, fixing_at};
use crate::fixing::{Fixing, Place};
use crate::reached::reached;
use crate::syncs::{is_sync, synced};
use cacache_core::keeping::let_go;
use cacache_disk::{Disk, Luck, Path};
use cacache_store::store::{Answer, PlainFile, PlainTemp, Step};
use std::alloc::{AllocError, Global};
use std::collections::BTreeMap;

/// A disk on which steps are made, and what of it is fixed. All of the first disk was fixed.
#[derive(Drop)]
pub struct Running {
    pub(crate) alloc: Global,
    pub(crate) first: Disk,
    pub(crate) disk: Disk,
    /// How far the files that steps reached are fixed.
    pub(crate) files: BTreeMap<Path, Fixing>,
    /// What was at names that changed since their folders were synced.
    pub(crate) names: BTreeMap<Path, Place>,
}

/// What is at each of these paths, and how far it is fixed.
fn places(
    alloc: Global,
    first: &Disk,
    disk: &Disk,
    files: &BTreeMap<Path, Fixing>,
    names: &BTreeMap<Path, Place>,
    paths: &[Path],
) -> Result<Vec<Place>, AllocError>
    ensures { IfOk result (λ places. places.items
        ≡ map (place_now disk.now (fixed_in first.now files.now names.now)) paths.now) }
{
    let mut places = Vec::new(alloc);
    for i in 0..paths.len() {
        let node = match disk.nodes().node(&paths[i]) {
            Some(node) => Some(node.clone()?),
            None => None,
        };
        let fixing = fixing_at(first, files, &paths[i]);
        places.push(Place { node, fixing })?;
    }
    Ok(places)
}

/// Makes a step that has a known answer.
fn advance(disk: &mut Disk, step: &Step<PlainFile, PlainTemp>, luck: Luck) -> Result<(), AllocError>
    ensures { OnOk result (disk.new ≡ (apply disk.old step.now luck).1) }
{
    match disk.apply(step, luck) {
        Ok(answer) => {
            let_go(answer);
            Ok(())
        }
        Err(error) => Err(error),
    }
}

/// Keeps what is fixed at the paths that a step reached, given their places before it.
fn settle(
    effect: &Effect,
    disk: &Disk,
    paths: &[Path],
    places: &[Place],
    files: &mut BTreeMap<Path, Fixing>,
    names: &mut BTreeMap<Path, Place>,
) -> Result<(), AllocError>
    requires { length places.now ≡ length paths.now }
    ensures files { OnOk result ((first : Tree) → FilesSettle effect.now disk.now paths.now
        places.now (files_in first files.old) (files_in first files.new)) }
    ensures names { OnOk result (NamesSettle effect.now disk.now paths.now
        places.now (get names_cmp names.old) (get names_cmp names.new)) }
{
    for i in 0..paths.len() {
        effect.settle(disk, &paths[i], &places[i], files, names)?;
    }
    Ok(())
}

impl Running {
    /// A disk on which all is fixed.
    pub fn opening(disk: Disk) -> Result<Running, AllocError>
        ensures { IfOk result (λ r. moment_of r ≡ opening disk) }
    {
        let alloc = disk.nodes().alloc();
        let first = disk.clone()?;
        Ok(Running {
            alloc,
            first,
            disk,
            files: BTreeMap::new(alloc),
            names: BTreeMap::new(alloc),
        })
    }

    /// The moment after a step that turns out as the luck says, with this answer.
    pub fn next(
        self,
        step: &Step<PlainFile, PlainTemp>,
        luck: Luck,
        answer: &Answer<PlainFile, PlainTemp>,
    ) -> Result<Running, AllocError>
        ensures { IfOk result (λ r. moment_of r
            ≡ next (moment_of self) (move_of step.now luck answer.now)) }
    {
        let mut running = self;
        if is_sync(step) {
            running.sync(step, luck, answer)?;
        } else {
            running.change(step, luck, answer)?;
        }
        Ok(running)
    }

    /// Makes a sync.
    fn sync(
        &mut self,
        step: &Step<PlainFile, PlainTemp>,
        luck: Luck,
        answer: &Answer<PlainFile, PlainTemp>,
    ) -> Result<(), AllocError>
        requires { is_sync step.now ≡ true }
        ensures { OnOk result (moment_of self.new
            ≡ next (moment_of self.old) (move_of step.now luck answer.now)) }
    {
        let (files, names) = (&mut self.files, &mut self.names);
        synced(self.alloc, &self.disk, step, answer, files, names)?;
        advance(&mut self.disk, step, luck)
    }

    /// Makes a step that is no sync.
    fn change(
        &mut self,
        step: &Step<PlainFile, PlainTemp>,
        luck: Luck,
        answer: &Answer<PlainFile, PlainTemp>,
    ) -> Result<(), AllocError>
        requires { is_sync step.now ≡ false }
        ensures { OnOk result (moment_of self.new
            ≡ next (moment_of self.old) (move_of step.now luck answer.now)) }
    {
        let (alloc, first) = (self.alloc, &self.first);
        let paths = reached(alloc, &self.disk, step)?;
        let paths = paths.as_slice();
        let was = places(alloc, first, &self.disk, &self.files, &self.names, paths)?;
        let effect = effect_of(alloc, first, &self.files, step, answer)?;
        advance(&mut self.disk, step, luck)?;
        let (files, names) = (&mut self.files, &mut self.names);
        settle(&effect, &self.disk, paths, was.as_slice(), files, names)
    }
}
