//! An open file and a temporary file that are held from one row to the next.
use crate::texts::{bytes_of, path_of, text_of};
use cacache_core::keeping::{beside, let_go, set};
use cacache_store::store::{Answer, Step};
use rows::Flaw;
use rows::words::{number_of, word_of};
use std::alloc::{AllocError, Global};
use std::io;
use std::io::{Read, Write};

/// What is held: the open file and the temporary file of the last answers that had one.
#[derive(Drop)]
pub(crate) struct Held<F, T> {
    pub(crate) file: Option<F>,
    pub(crate) temp: Option<T>,
}

/// What is taken, if it is there.
fn taken<T>(held: &mut Option<T>) -> Result<T, Flaw> {
    match held.take() {
        Some(value) => Ok(value),
        None => Err(Flaw::Unfit),
    }
}

/// What is taken, if it is there, with what it is given.
fn taken_with<T, G: Drop>(
    held: &mut Option<T>,
    given: Result<G, AllocError>,
) -> Result<(T, G), Flaw> {
    let given = given?;
    beside(taken(held), given)
}

impl<F: Drop, T: Drop> Held<F, T> {
    /// Nothing is held.
    pub(crate) fn new() -> Held<F, T> {
        Held {
            file: None,
            temp: None,
        }
    }

    /// The step on what is held that a name and a word say.
    pub(crate) fn step(
        &mut self,
        alloc: Global,
        root: &str,
        ask: &str,
        word: &str,
    ) -> Result<Step<F, T>, Flaw> {
        match ask {
            "Write" => {
                let (temp, bytes) = taken_with(&mut self.temp, bytes_of(alloc, word))?;
                Ok(Step::Write(temp, bytes))
            }
            "Persist" => {
                let (temp, path) = taken_with(&mut self.temp, path_of(alloc, root, word))?;
                Ok(Step::Persist(temp, path))
            }
            "SyncTemp" => Ok(Step::SyncTemp(taken(&mut self.temp)?)),
            _ => {
                let max = number_of(word)?;
                Ok(Step::Read(taken(&mut self.file)?, max))
            }
        }
    }

    /// Holds the file of an answer.
    pub(crate) fn keep(&mut self, answer: Answer<F, T>) {
        match answer {
            Answer::Temp(temp) | Answer::Wrote(temp, _) | Answer::Synced(temp) => {
                set(&mut self.temp, Some(temp))
            }
            Answer::File(file) => set(&mut self.file, Some(file)),
            Answer::Got(file, bytes) => {
                let_go(bytes);
                set(&mut self.file, Some(file))
            }
            other => let_go(other),
        }
    }

    /// Lets go what is held.
    pub(crate) fn close(&mut self) {
        set(&mut self.file, None);
        set(&mut self.temp, None);
    }
}

/// An error as a row shows it.
pub(crate) fn failed(alloc: Global, error: io::Error) -> Result<String, AllocError> {
    let kind = error.kind();
    let_go(error);
    format!(in alloc; "Failed {kind:?}")
}

/// What a file gives to a read of at most three bytes.
fn given<F: Read>(alloc: Global, file: &mut F) -> Result<String, AllocError> {
    let mut buf = [0u8; 3];
    match file.read(&mut buf) {
        Ok(count) => String::from_str(alloc, word_of(&buf[..count])),
        Err(error) => failed(alloc, error),
    }
}

/// What a file gives to its end.
fn rest<F: Read>(alloc: Global, file: &mut F) -> Result<String, AllocError> {
    let mut all = Vec::new(alloc);
    match file.read_to_end(&mut all) {
        Ok(_) => text_of(alloc, all.as_slice()),
        Err(error) => failed(alloc, error),
    }
}

/// How many of a word's bytes a temporary file takes.
fn count_taken<T: Write>(alloc: Global, temp: &mut T, word: &str) -> Result<String, AllocError> {
    let bytes = bytes_of(alloc, word)?;
    match temp.write(bytes.as_slice()) {
        Ok(count) => format!(in alloc; "{count}"),
        Err(error) => failed(alloc, error),
    }
}

/// What comes of handing a temporary file all of a word's bytes.
fn all_taken<T: Write>(alloc: Global, temp: &mut T, word: &str) -> Result<String, AllocError> {
    let bytes = bytes_of(alloc, word)?;
    match temp.write_all(bytes.as_slice()) {
        Ok(()) => String::from_str(alloc, "all"),
        Err(error) => failed(alloc, error),
    }
}

impl<F: Read + Drop, T: Write + Drop> Held<F, T> {
    /// Reads or writes what is held as a `Read` or a `Write`.
    pub(crate) fn by_hand(&mut self, alloc: Global, ask: &str, word: &str) -> Result<String, Flaw> {
        match (ask, &mut self.file, &mut self.temp) {
            ("gives", Some(file), _) => Ok(given(alloc, file)?),
            ("rest", Some(file), _) => Ok(rest(alloc, file)?),
            ("takes", _, Some(temp)) => Ok(count_taken(alloc, temp, word)?),
            ("takes-all", _, Some(temp)) => Ok(all_taken(alloc, temp, word)?),
            _ => Err(Flaw::Unfit),
        }
    }
}
