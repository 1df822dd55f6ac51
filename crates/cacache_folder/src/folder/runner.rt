//! Steps by the calls of a system.
ghost use Rattle.std.specs.Prelude.{◌≡◌, false, None, IfOk};
ghost use Rattle.cacache_store.specs.declared.store.step.Step.TheVariants as steps;
ghost use Rattle.cacache_store.specs.declared.store.answer.Answer.TheVariants as answers;
ghost use Rattle.cacache_store.specs.Plain.{plain_step, plain_answer, Fits, is_no_memory};
ghost use Rattle.cacache_system.specs.declared.call.CallResult.TheVariants as says;
ghost use Rattle.cacache_system.specs.{Seen.{said}, CallsOf.{RunLogged}, AnswersOf.{StepRuns}};
ghost use Rattle.cacache_system.specs.CallsOf as calls;
ghost use Rattle.cacache_folder.specs.{FolderHandles.{seen_file, seen_temp}, FolderNumbers.{numbered, answered}, StepClauses.{HandsBackWhole, Explains, ValueRuns, AnswerFits, AnswersWhole, AnswersRun, RunsByPath}};

use crate::folder::again::ask_to_write;
use crate::folder::answers::{created, moved, readable, synced};
use crate::folder::copying::copy;
use crate::folder::faults::failed_answer;
use crate::folder::files::{append, create_temp, exists, open_with, size};
use crate::folder::guess::Guess;
use crate::folder::opened::SystemFile;
use crate::folder::paths::make_dirs;
use crate::folder::rewriting::Reading;
use crate::folder::syncing::{sync_dir, sync_file};
use crate::folder::temp::SystemTemp;
use crate::folder::values::{done, length_of, listed, there, took, whole};
use crate::folder::whole::{read_all, read_piece};
use crate::folder::{AnswerOf, StepOf};
use cacache_core::bytes::Bytes;
use cacache_core::keeping::let_go;
use cacache_store::store::{Answer, Step};
use cacache_system::System;
use std::io;
use std::io::ErrorKind;

/// A system, and what steps remember of those before them.
#[derive(Drop)]
pub(crate) struct Runner<Y> {
    pub(crate) system: Y,
    guess: Guess,
    pub(crate) reading: Reading,
    pub(crate) reason: Option<ErrorKind>,
}

impl<Y: System + AllocGlobal + Clone + Drop> Runner<Y> {
    /// No step was made yet.
    pub(crate) fn over(system: Y) -> Runner<Y>
        ensures { result.system ≡ system }
    {
        Runner {
            system,
            guess: Guess::new(),
            reading: Reading::none(),
            reason: None,
        }
    }

    /// Makes every missing folder of the path.
    fn make_dirs(&mut self, path: &str) -> io::Result<()>
        ensures kept { self.new.reason ≡ self.old.reason }
        ensures ran { ValueRuns (steps.MakeDirs path.now) (λ _. answers.Done) result
            (Y.calls self.old.system) (Y.calls self.new.system) }
    {
        self.reading.forget_in(path);
        let is_guessed = self.guess.is_missing(path);
        let was_missing = make_dirs(&mut self.system, path, is_guessed)?;
        self.guess.keep(path, was_missing);
        Ok(())
    }

    /// The whole file at the path.
    fn read_all(&mut self, path: &str) -> io::Result<Bytes>
        ensures kept { self.new.reason ≡ self.old.reason }
        ensures ran { RunLogged (calls.opening_whole path.now) (said says.Bytes result)
            (Y.calls self.old.system) (Y.calls self.new.system) }
    {
        let bytes = read_all(&mut self.system, path)?;
        self.reading.keep(path);
        Ok(bytes)
    }

    /// Does a step that takes no file and gives none. A reflink is not supported.
    fn do_by_path(&mut self, step: &StepOf<Y>) -> io::Result<AnswerOf<Y>>
        ensures fits { IfOk result (λ answer. Fits (plain_step seen_file seen_temp step.now)
            (plain_answer seen_file seen_temp answer)) }
        ensures done { IfOk result (λ answer.
            is_no_memory (plain_answer seen_file seen_temp answer) ≡ false) }
        ensures explains { IfOk result (λ answer. Explains self.old.reason self.new.reason
            (plain_answer seen_file seen_temp answer)) }
        ensures kept { self.new.reason ≡ self.old.reason }
        ensures ran { RunsByPath {Y = Y} {F = Y.File} {D = Y.Folder} Y.number step.now result
            (Y.calls self.old.system) (Y.calls self.new.system) }
    {
        match step {
            Step::MakeDirs(path) => done(self.make_dirs(path.as_str())),
            Step::Append(path, bytes) => took(append(
                &mut self.system,
                path.as_str(),
                bytes.as_slice(),
            )),
            Step::ReadAll(path) => whole(self.read_all(path.as_str())),
            Step::Exists(path) => there(exists(&mut self.system, path.as_str())),
            Step::Size(path) => length_of(size(&mut self.system, path.as_str())),
            Step::Symlink(target, path) => done(
                self.system.symlink(target.as_str(), path.as_str()),
            ),
            Step::Copy(from, to) => {
                let number = self.system.random().unwrap_or(0);
                took(copy(&mut self.system, number, from.as_str(), to.as_str()))
            }
            Step::HardLink(from, to) => done(self.system.hard_link(from.as_str(), to.as_str())),
            Step::ReadDir(path) => listed(self.read_dir(path.as_str())),
            Step::RemoveFile(path) => done(self.system.remove_file(path.as_str())),
            Step::RemoveDir(path) => done(self.system.remove_folder(path.as_str())),
            Step::SyncFile(path) => done(sync_file(&mut self.system, path.as_str())),
            Step::SyncDir(path) => done(sync_dir(&mut self.system, path.as_str())),
            Step::Reflink(_, _) => Err(io::Error::from(ErrorKind::Unsupported)),
            _ => Err(io::Error::from(ErrorKind::InvalidInput)),
        }
    }

    /// Does a `Write` and answers it.
    fn write_temp(&mut self, temp: SystemTemp<Y>, bytes: Bytes) -> AnswerOf<Y>
        ensures fits { AnswerFits {F = Y.File} (Step.Write temp bytes) result }
        ensures whole { AnswersWhole {F = Y.File} (Step.Write temp bytes) result }
        ensures explains { Explains self.old.reason self.new.reason
            (plain_answer seen_file seen_temp result) }
        ensures ran { AnswersRun {F = Y.File} Y.number (Step.Write temp bytes) result
            (Y.calls self.old.system) (Y.calls self.new.system) }
    {
        let mut temp = temp;
        match ask_to_write(&mut self.system, &mut temp.file, bytes.as_slice()) {
            Ok(count) => Answer::Wrote(temp, count),
            Err(error) => failed_answer(error, Step::Write(temp, bytes), &mut self.reason),
        }
    }

    /// Does a `Read` and answers it.
    fn read_file(&mut self, file: SystemFile<Y>, max: usize) -> AnswerOf<Y>
        ensures fits { AnswerFits {Y = Y} {F = Y.File} {D = Y.Folder} (Step.Read file max) result }
        ensures whole { AnswersWhole {Y = Y} {F = Y.File} {D = Y.Folder} (Step.Read file max)
            result }
        ensures explains { Explains self.old.reason self.new.reason
            (plain_answer seen_file seen_temp result) }
        ensures ran { AnswersRun {Y = Y} {F = Y.File} {D = Y.Folder} Y.number (Step.Read file max)
            result (Y.calls self.old.system) (Y.calls self.new.system) }
    {
        let mut file = file;
        match read_piece(&mut self.system, &mut file, max) {
            Ok(bytes) => Answer::Got(file, bytes),
            Err(error) => failed_answer(error, Step::Read(file, max), &mut self.reason),
        }
    }

    /// Makes a step and answers it.
    pub(crate) fn step(&mut self, step: StepOf<Y>) -> AnswerOf<Y>
        ensures fits { Fits (plain_step seen_file seen_temp step)
            (plain_answer seen_file seen_temp result) }
        ensures whole { HandsBackWhole (plain_step seen_file seen_temp step)
            (plain_answer seen_file seen_temp result) }
        ensures explains { Explains self.old.reason self.new.reason
            (plain_answer seen_file seen_temp result) }
        ensures ran { StepRuns (numbered Y.number step) (answered Y.number result)
            (Y.calls self.old.system) (Y.calls self.new.system) }
    {
        match step {
            Step::CreateTemp(path) => {
                let made = create_temp(&mut self.system, path.as_str());
                created(made, path, &mut self.reason)
            }
            Step::Write(temp, bytes) => self.write_temp(temp, bytes),
            Step::SyncTemp(temp) => {
                let done = self.system.sync(&temp.file);
                synced(done, temp, &mut self.reason)
            }
            Step::Persist(temp, path) => {
                let done = self.persist(&temp, path.as_str());
                moved(done, temp, path, &mut self.reason)
            }
            Step::Open(path) => {
                let file = open_with(&mut self.system, path.as_str());
                readable(file, path, &mut self.reason)
            }
            Step::Read(file, max) => self.read_file(file, max),
            step => match self.do_by_path(&step) {
                Ok(answer) => {
                    let_go(step);
                    answer
                }
                Err(error) => failed_answer(error, step, &mut self.reason),
            },
        }
    }
}
