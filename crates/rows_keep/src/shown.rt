//! Answers of calls, as rows say them.
use cacache::{Integrity, Result as Answered};
use cacache_core::keeping::let_go;
use cacache_core::text::Text;
use cacache_keep::{Collected, Collection, Compacted, Planned, Repaired, Swept, Unused, Verdict};
use rows::Flaw;
use rows::answers::refused;
use rows::words::{word_of, written_out};
use std::alloc::{AllocError, Global};

/// What a call answers if it doesn't fail.
pub(crate) trait Shown {
    /// The line on it.
    fn shown(&self, alloc: Global) -> Result<String, AllocError>;
}

impl Shown for () {
    fn shown(&self, alloc: Global) -> Result<String, AllocError> {
        String::from_str(alloc, "Done")
    }
}

impl Shown for Integrity {
    fn shown(&self, alloc: Global) -> Result<String, AllocError> {
        String::from_str(alloc, "Done")
    }
}

/// Whether a key that was touched has an entry.
impl Shown for bool {
    fn shown(&self, alloc: Global) -> Result<String, AllocError> {
        format!(in alloc; "{self}")
    }
}

/// The text of what a key leads to.
impl Shown for Vec<u8> {
    fn shown(&self, alloc: Global) -> Result<String, AllocError> {
        written_out(alloc, word_of(self.as_slice()))
    }
}

impl Shown for Swept {
    fn shown(&self, alloc: Global) -> Result<String, AllocError> {
        let (files, bytes, strange) = (self.files, self.bytes, self.strange.len());
        format!(in alloc; "files {files} bytes {bytes} strange {strange}")
    }
}

/// Names the buckets with odd lines.
fn push_odd(alloc: Global, line: &mut String, odd: &[Text]) -> Result<(), AllocError> {
    for path in odd {
        line.push_str(format!(in alloc; " odd {path}")?.as_str())?;
    }
    Ok(())
}

impl Shown for Planned {
    fn shown(&self, alloc: Global) -> Result<String, AllocError> {
        let mut line = format!(in alloc; "kept {}", self.kept)?;
        for Unused { address, bytes } in &self.unused {
            line.push_str(format!(in alloc; " unused {address} {bytes}")?.as_str())?;
        }
        push_odd(alloc, &mut line, self.odd.as_slice())?;
        Ok(line)
    }
}

impl Shown for Collected {
    fn shown(&self, alloc: Global) -> Result<String, AllocError> {
        let mut line = format!(in alloc; "kept {}", self.kept)?;
        for address in &self.dropped {
            line.push_str(format!(in alloc; " dropped {address}")?.as_str())?;
        }
        Ok(line)
    }
}

impl Shown for Collection {
    fn shown(&self, alloc: Global) -> Result<String, AllocError> {
        let Collection {
            kept,
            dropped,
            young,
            gone,
        } = *self;
        format!(in alloc; "kept {kept} dropped {dropped} young {young} gone {gone}")
    }
}

impl Shown for Repaired {
    fn shown(&self, alloc: Global) -> Result<String, AllocError> {
        let (contents, keys) = (self.damaged.len(), self.dangling.len());
        format!(in alloc; "damaged {contents} dangling {keys}")
    }
}

impl Shown for Compacted {
    fn shown(&self, alloc: Global) -> Result<String, AllocError> {
        let (buckets, bytes) = (self.buckets, self.bytes);
        format!(in alloc; "buckets {buckets} bytes {bytes}")
    }
}

/// The counts and the bytes that a verification tells, and the buckets with odd lines.
impl Shown for Verdict {
    fn shown(&self, alloc: Global) -> Result<String, AllocError> {
        let (good, good_bytes) = (self.good, self.good_bytes);
        let (bad, bad_bytes) = (self.damaged.len(), self.damaged_bytes);
        let (keys, others) = (self.dangling.len(), self.strange.len());
        let mut line = format!(in alloc;
            "good {good} of {good_bytes} bytes damaged {bad} of {bad_bytes} bytes dangling {keys} strange {others}"
        )?;
        push_odd(alloc, &mut line, self.odd.as_slice())?;
        Ok(line)
    }
}

/// The line on what a call answers, or on what failed.
pub(crate) fn told<T: Shown + Drop>(alloc: Global, answer: Answered<T>) -> Result<String, Flaw> {
    let line = match answer {
        Ok(value) => {
            let line = value.shown(alloc);
            let_go(value);
            line
        }
        Err(error) => refused(alloc, error),
    };
    Ok(line?)
}

/// The line on whether something was done.
pub(crate) fn done(alloc: Global, is_done: Result<bool, AllocError>) -> Result<String, Flaw> {
    let text = if is_done? { "done" } else { "not done" };
    Ok(String::from_str(alloc, text)?)
}

/// The line on what a file holds, if it can be read.
pub(crate) fn found(
    alloc: Global,
    held: Result<Option<Vec<u8>>, AllocError>,
) -> Result<String, AllocError> {
    match held? {
        Some(bytes) => bytes.shown(alloc),
        None => String::from_str(alloc, "none"),
    }
}
