//! Answers as words, as `Wrote 3`: the kind, and what it says. They needn't fit the step.
use crate::calls::fitting::fitting;
use cacache_core::keeping::let_go;
use cacache_core::text::Text;
use cacache_store::store::{Answer, Kind, Listing, Name, PlainAnswer, PlainStep};
use rows::Flaw;
use rows::words::{cut, number_of};
use std::alloc::{AllocError, Global};

/// One name of a folder, as `Folder:a`.
fn name_of(alloc: Global, word: &str) -> Result<Name, AllocError> {
    let (kind, name) = word.split_once(':').unwrap_or(("File", word));
    let name = Text::from_str(alloc, name)?;
    let kind = match kind {
        "Folder" => Kind::Folder,
        "Link" => Kind::Link,
        _ => Kind::File,
    };
    Ok(Name { name, kind })
}

/// The names of a folder.
fn names_of(alloc: Global, words: &str) -> Result<Listing, AllocError> {
    let mut names = Vec::new(alloc);
    for word in words.split(' ') {
        if !word.is_empty() {
            names.push(name_of(alloc, word)?)?;
        }
    }
    Ok(Listing::new(names))
}

/// The names of a folder, or an answer that doesn't fit its step.
fn other_of(alloc: Global, words: &str) -> Result<PlainAnswer, Flaw> {
    let (kind, rest) = cut(words);
    match kind {
        "Done" => Ok(Answer::Done),
        "Took" => Ok(Answer::Took(number_of(rest)?)),
        "There" => Ok(Answer::There(rest == "yes")),
        "Names" => Ok(Answer::Names(names_of(alloc, rest)?)),
        _ => Err(Flaw::NotRead),
    }
}

/// The answer to a step that words say.
pub(crate) fn answer_of(alloc: Global, step: PlainStep, words: &str) -> Result<PlainAnswer, Flaw> {
    if words == "NoMemory" {
        return Ok(Answer::NoMemory(step));
    }
    let told = fitting(alloc, &step, words);
    let_go(step);
    match told {
        Ok(told) => Ok(told.into_answer()),
        Err(Flaw::Unfit) => other_of(alloc, words),
        Err(flaw) => Err(flaw),
    }
}
