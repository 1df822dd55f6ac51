//! One row after another, on a place of its own or on the one before.
use crate::disk::columns::{Row, Words, row_of, words_of};
use crate::disk::handles::{Handle, used};
use crate::disk::lucks::luck_of;
use crate::disk::place::{Heard, Place, is_plain};
use crate::disk::steps::step_of;
use crate::disk::words::{bytes_of, text_of};
use cacache_core::keeping::{beside, set};
use cacache_disk::Luck;
use rows::words::{number_of, written_out};
use rows::{Flaw, Outcome, Trial};
use std::alloc::{AllocError, Global};

/// A place, and the handle of the last answer that had one.
#[derive(Drop)]
pub(crate) struct Scene {
    place: Place,
    held: Option<Handle>,
}

/// What somebody else does, or what is asked with no step, on one word.
fn asked(alloc: Global, place: &mut Place, kind: &str, word: &str) -> Result<String, Flaw> {
    let path = text_of(alloc, word)?;
    match kind {
        "PlantFolder" => place.plant_folder(alloc, path.as_str()),
        "Shared" => place.bytes(alloc, path.as_str()),
        "Copied" => place.copied(alloc, word),
        _ => place.logged(alloc, number_of(word)?),
    }
}

/// What somebody else does on two words.
fn planted(alloc: Global, place: &mut Place, path: &str, bytes: &str) -> Result<String, Flaw> {
    let path = text_of(alloc, path)?;
    let (bytes, path) = beside(bytes_of(alloc, bytes), path)?;
    place.plant(alloc, path.as_str(), &bytes)
}

impl Scene {
    /// Does a step, and keeps the handle of its answer.
    fn stepped(&mut self, alloc: Global, words: Words<'_>, luck: Luck) -> Result<String, Flaw> {
        if !self.place.allows(luck) {
            return Err(Flaw::NotRead);
        }
        let step = step_of(alloc, &mut self.held, words)?;
        let Heard { text, handle } = self.place.step(alloc, step, luck)?;
        if let Some(handle) = handle {
            set(&mut self.held, Some(handle));
        }
        Ok(text)
    }

    /// What the words of a row come to. Luck is for steps alone.
    fn came(&mut self, alloc: Global, words: Words<'_>, luck: Luck) -> Result<String, Flaw> {
        if !is_plain(luck) {
            return self.stepped(alloc, words, luck);
        }
        let Words {
            kind,
            first,
            second,
        } = words;
        match (kind, second) {
            ("Plant", Some(bytes)) => planted(alloc, &mut self.place, first, bytes),
            ("PlantFolder" | "Shared" | "Copied" | "Logged", None) => {
                asked(alloc, &mut self.place, kind, first)
            }
            ("Held", None) => used(alloc, &mut self.held, first),
            _ => self.stepped(alloc, words, luck),
        }
    }

    /// Why nothing came, if memory was refused.
    fn refused(&mut self, alloc: Global, before: &str) -> Result<String, Flaw> {
        let after = self.place.shown(alloc)?;
        Err(if after.as_str() == before {
            Flaw::RefusedAndKept
        } else {
            Flaw::RefusedAndChanged
        })
    }

    /// What came of the words of a row, if this was there before.
    fn got(
        &mut self,
        alloc: Global,
        words: Words<'_>,
        luck: Luck,
        before: &str,
    ) -> Result<String, Flaw> {
        let answer = match self.came(alloc, words, luck) {
            Err(Flaw::Refused) => self.refused(alloc, before)?,
            came => came?,
        };
        let (after, answer) = beside(self.place.shown(alloc), answer)?;
        Ok(got(alloc, before, answer.as_str(), after.as_str())?)
    }

    /// Tries a row: what it wants, and what came.
    fn compared(&mut self, alloc: Global, row: Row<'_>) -> Result<Outcome, Flaw> {
        let words = words_of(row.step)?;
        let luck = luck_of(row.luck)?;
        let before = self.place.shown(alloc)?;
        let (got, before) = beside(self.got(alloc, words, luck, before.as_str()), before)?;
        let (wanted, got) = beside(wanted(alloc, row, before.as_str()), got)?;
        Ok(Outcome { wanted, got })
    }
}

/// What came.
fn got(alloc: Global, before: &str, answer: &str, after: &str) -> Result<String, AllocError> {
    let text = format!(in alloc; "{before} | {answer} | {after}")?;
    written_out(alloc, text.as_str())
}

/// What a row wants, if this was there before it.
fn wanted(alloc: Global, row: Row<'_>, before: &str) -> Result<String, AllocError> {
    let before = match row.before {
        "then" => before,
        "store" => "logged 0",
        words if words.starts_with("of ") => before,
        words => words,
    };
    let answer = row.answer;
    let after = if row.after == "same" {
        before
    } else {
        row.after
    };
    format!(in alloc; "{before} | {answer} | {after}")
}

/// The scene on which rows are tried, if one is open.
#[derive(Drop)]
pub(crate) struct Stage {
    alloc: Global,
    scene: Option<Scene>,
}

impl Stage {
    /// A stage with no scene.
    pub(crate) fn new(alloc: Global) -> Stage {
        Stage { alloc, scene: None }
    }

    /// Opens the scene that a row begins with.
    fn open(&mut self, before: &str) -> Result<(), Flaw> {
        if before == "then" {
            return Ok(());
        }
        set(&mut self.scene, None);
        let place = Place::new(self.alloc, before)?;
        set(&mut self.scene, Some(Scene { place, held: None }));
        Ok(())
    }
}

impl Trial for Stage {
    fn begin(&mut self) {
        set(&mut self.scene, None);
    }

    fn outcome(&mut self, row: &str) -> Result<Outcome, Flaw> {
        let row = row_of(row)?;
        self.open(row.before)?;
        match &mut self.scene {
            Some(scene) => scene.compared(self.alloc, row),
            None => Err(Flaw::NotRead),
        }
    }
}
