//! What a step of a history does to the places.
use crate::losses::places::Places;
use cacache_disk::Luck;
use cacache_store::store::{Answer, PlainAnswer, PlainStep, Step};
use std::alloc::AllocError;

/// How many bytes or folders a step left, of at most so many.
fn left_by(luck: Luck, answer: &PlainAnswer, all: usize) -> usize {
    match (answer, luck) {
        (Answer::Done, _) => all,
        (Answer::Took(count), _) => *count,
        (Answer::Failed(_), Luck::Fail(_, Some(part))) => part.min(all),
        _ => 0,
    }
}

/// Whether an append left anything, even if only the file.
fn left_a_file(luck: Luck, answer: &PlainAnswer) -> bool {
    matches!(
        (answer, luck),
        (Answer::Took(_), _) | (Answer::Failed(_), Luck::Fail(_, Some(_)))
    )
}

impl Places {
    /// What a step that was done does, apart from folders and appends.
    fn done(&mut self, step: &PlainStep, answer: &PlainAnswer) -> Result<(), AllocError> {
        match (step, answer) {
            (Step::CreateTemp(path), Answer::Temp(_)) => self.make_file(path.as_str()),
            (Step::Write(_, _), Answer::Wrote(temp, _)) => {
                self.write(temp.path.as_str());
                Ok(())
            }
            (Step::SyncTemp(_), Answer::Synced(temp)) => {
                let size = temp.bytes.as_ref().map(|bytes| bytes.len());
                self.sync_file(temp.path.as_str(), size);
                Ok(())
            }
            (Step::Persist(temp, path), Answer::Done) => match &temp.bytes {
                Some(bytes) => self.move_file(temp.path.as_str(), path.as_str(), bytes),
                None => Ok(()),
            },
            (Step::SyncFile(path), Answer::Done) => {
                self.sync_file(path.as_str(), None);
                Ok(())
            }
            (Step::SyncDir(path), Answer::Done) => {
                self.sync_folder(path.as_str());
                Ok(())
            }
            _ => Ok(()),
        }
    }

    /// What a step did, by its luck and its answer.
    pub(crate) fn follow(
        &mut self,
        step: &PlainStep,
        luck: Luck,
        answer: &PlainAnswer,
    ) -> Result<(), AllocError> {
        match step {
            Step::MakeDirs(path) => {
                self.make_folders(path.as_str(), left_by(luck, answer, usize::MAX))
            }
            Step::Append(path, bytes) => {
                if !left_a_file(luck, answer) {
                    return Ok(());
                }
                let bytes = bytes.as_slice();
                let count = left_by(luck, answer, bytes.len());
                self.append(path.as_str(), bytes.get(..count).unwrap_or(bytes))
            }
            step => self.done(step, answer),
        }
    }
}
