//! Answers and what a log keeps as texts, in the words of rows.
use cacache_core::bytes::Bytes;
use cacache_core::keeping::beside;
use cacache_core::text::Text;
use cacache_store::store::{
    Answer, Listing, LogItem, Name, PlainAnswer, PlainFile, PlainStep, PlainTemp, Step,
};
use rows::words::word_of;
use std::alloc::{AllocError, Global};

/// Bytes as a word: `?` if they aren't known.
fn known(bytes: &Option<Bytes>) -> &str {
    match bytes {
        None => "?",
        Some(bytes) => word_of(bytes.as_slice()),
    }
}

/// An open file as `left=bytes`.
pub(crate) fn shown_file(alloc: Global, file: &PlainFile) -> Result<String, AllocError> {
    let left = file.left;
    let bytes = known(&file.bytes);
    format!(in alloc; "{left}={bytes}")
}

/// A temporary file as `path=bytes`.
pub(crate) fn shown_temp(alloc: Global, temp: &PlainTemp) -> Result<String, AllocError> {
    let path = temp.path.as_str();
    let bytes = known(&temp.bytes);
    format!(in alloc; "{path}={bytes}")
}

/// A name, and what is there.
fn shown_name(alloc: Global, name: &Name) -> Result<String, AllocError> {
    format!(in alloc; " {}:{:?}", name.name, name.kind)
}

/// The names of a listing, each with what is there.
fn shown_names(alloc: Global, listing: &Listing) -> Result<String, AllocError> {
    let mut text = String::from_str(alloc, "Names")?;
    for name in listing.as_slice() {
        text.push_str(shown_name(alloc, name)?.as_str())?;
    }
    Ok(text)
}

/// A temporary file and how many bytes it took.
fn shown_wrote(alloc: Global, temp: &PlainTemp, count: usize) -> Result<String, AllocError> {
    let temp = shown_temp(alloc, temp)?;
    format!(in alloc; "Wrote {temp} {count}")
}

/// An open file and what was read of it.
fn shown_got(alloc: Global, file: &PlainFile, bytes: &Bytes) -> Result<String, AllocError> {
    let file = shown_file(alloc, file)?;
    let bytes = word_of(bytes.as_slice());
    format!(in alloc; "Got {file} {bytes}")
}

/// A name, followed by a text.
fn named(alloc: Global, name: &str, text: &str) -> Result<String, AllocError> {
    format!(in alloc; "{name} {text}")
}

/// An answer in the words of a row.
pub(crate) fn shown_answer(alloc: Global, answer: &PlainAnswer) -> Result<String, AllocError> {
    match answer {
        Answer::Done => String::from_str(alloc, "Done"),
        Answer::Temp(temp) => named(alloc, "Temp", shown_temp(alloc, temp)?.as_str()),
        Answer::Wrote(temp, count) => shown_wrote(alloc, temp, *count),
        Answer::Took(count) => format!(in alloc; "Took {count}"),
        Answer::Bytes(bytes) => named(alloc, "Bytes", word_of(bytes.as_slice())),
        Answer::File(file) => named(alloc, "File", shown_file(alloc, file)?.as_str()),
        Answer::Got(file, bytes) => shown_got(alloc, file, bytes),
        Answer::There(is) => named(alloc, "There", if *is { "yes" } else { "no" }),
        Answer::Length(count) => format!(in alloc; "Length {count}"),
        Answer::Names(listing) => shown_names(alloc, listing),
        Answer::Synced(temp) => named(alloc, "Synced", shown_temp(alloc, temp)?.as_str()),
        Answer::Failed(fault) => format!(in alloc; "Failed {fault:?}"),
        Answer::NoMemory(_) => String::from_str(alloc, "NoMemory"),
    }
}

/// A step on one path, by its kind and the path; None for the others.
fn on_path(step: &PlainStep) -> Option<(&'static str, &Text)> {
    match step {
        Step::MakeDirs(path) => Some(("MakeDirs", path)),
        Step::CreateTemp(path) => Some(("CreateTemp", path)),
        Step::ReadAll(path) => Some(("ReadAll", path)),
        Step::Open(path) => Some(("Open", path)),
        Step::RemoveFile(path) => Some(("RemoveFile", path)),
        _ => None,
    }
}

/// A step in the words of a row, if it is one that the logs of the rows hold.
fn shown_step(alloc: Global, step: &PlainStep) -> Result<String, AllocError> {
    if let Some((kind, path)) = on_path(step) {
        return named(alloc, kind, path.as_str());
    }
    match step {
        Step::Write(temp, bytes) => {
            let temp = shown_temp(alloc, temp)?;
            format!(in alloc; "Write {temp} {}", word_of(bytes.as_slice()))
        }
        Step::Persist(temp, path) => {
            let temp = shown_temp(alloc, temp)?;
            format!(in alloc; "Persist {temp} {path}")
        }
        Step::Append(path, bytes) => format!(in alloc;
            "Append {path} {}",
            word_of(bytes.as_slice())
        ),
        Step::Symlink(target, path) => format!(in alloc; "Symlink {target} {path}"),
        _ => String::from_str(alloc, "another step"),
    }
}

/// A step and its answer.
fn shown_made(alloc: Global, step: &PlainStep, answer: &PlainAnswer) -> Result<String, AllocError> {
    let step = shown_step(alloc, step)?;
    let (answer, step) = beside(shown_answer(alloc, answer), step)?;
    format!(in alloc; "{step}: {answer}")
}

/// An item of a log.
pub(crate) fn shown_item(alloc: Global, item: &LogItem) -> Result<String, AllocError> {
    match item {
        LogItem::Made(step, answer) => shown_made(alloc, step, answer),
        LogItem::Foreign(path, bytes) => format!(in alloc;
            "Foreign {path} {}",
            word_of(bytes.as_slice())
        ),
        LogItem::ForeignFolder(path) => format!(in alloc; "ForeignFolder {path}"),
    }
}
