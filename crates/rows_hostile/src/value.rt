//! What the cache holds, as the definitions say: folders, a map of contents, and the bytes of each bucket. It is slow and plain,
//! and shares no code with the cache.
use crate::facts::{BUCKET, CONTENTS, Content};
use cacache_core::errors::Fault;
use cacache_core::keeping::set;
use cacache_disk::Luck;
use std::alloc::{AllocError, Global};

/// Why a step that would succeed fails, by its luck.
pub(crate) fn made_up(luck: Luck) -> Option<Fault> {
    match luck {
        Luck::Fail(fault, _) => Some(fault),
        _ => None,
    }
}

/// How many of its folders or bytes a step does that its luck makes fail.
fn part(luck: Luck) -> usize {
    match luck {
        Luck::Fail(_, Some(part)) => part,
        Luck::Fail(_, None) => 0,
        _ => usize::MAX,
    }
}

/// How many of so many bytes are taken.
pub(crate) fn taken(luck: Luck, count: usize) -> usize {
    match luck {
        Luck::Take(most) => count.min(most),
        _ => count,
    }
}

/// The first bytes of a text, or all of them if it has no more.
fn beginning(text: &str, count: usize) -> &str {
    let bytes = text.as_bytes();
    str::from_utf8(bytes.get(..count).unwrap_or(bytes)).unwrap_or(text)
}

/// The content that has this piece of a bucket as its whole line.
fn content_of(piece: &str) -> Option<Content> {
    for content in &CONTENTS {
        if content.line() == piece {
            return Some(*content);
        }
    }
    None
}

/// What the cache holds.
pub(crate) struct Value {
    alloc: Global,
    folders: Vec<&'static str>,
    /// The contents that are at their places.
    contents: Vec<Content>,
    /// The bytes of the key's bucket, if the file is there.
    bucket: Option<String>,
    /// The numbers of the temporary files that lie about, each of one digit.
    temps: Vec<u64>,
}

// Written out, so that it is a call of its own: whoever lets one go has a proof that doesn't go through its parts.
impl Drop for Value {
    fn drop(self) {
        let Value {
            alloc: _,
            folders: _folders,
            contents: _contents,
            bucket: _bucket,
            temps: _temps,
        } = self;
    }
}

impl Value {
    /// The value of a cache that isn't there.
    pub(crate) fn new(alloc: Global) -> Value {
        Value {
            alloc,
            folders: Vec::new(alloc),
            contents: Vec::new(alloc),
            bucket: None,
            temps: Vec::new(alloc),
        }
    }

    /// Whether a folder is there.
    pub(crate) fn has_folder(&self, path: &str) -> bool {
        for folder in &self.folders {
            if *folder == path {
                return true;
            }
        }
        false
    }

    /// Makes the missing ones of these folders, or the first of them alone.
    pub(crate) fn make_folders(
        &mut self,
        folders: &[&'static str],
        luck: Luck,
    ) -> Result<(), AllocError> {
        let mut left = part(luck);
        for folder in folders {
            if left > 0 && !self.has_folder(folder) {
                self.folders.push(*folder)?;
                left -= 1;
            }
        }
        Ok(())
    }

    /// A temporary file is made.
    pub(crate) fn make_temp(&mut self, number: u64) -> Result<(), AllocError> {
        self.temps.push(number)?;
        Ok(())
    }

    /// A temporary file becomes a content.
    pub(crate) fn put(&mut self, number: u64, content: Content) -> Result<(), AllocError> {
        let mut others = Vec::new(self.alloc);
        for temp in &self.temps {
            if *temp != number {
                others.push(*temp)?;
            }
        }
        set(&mut self.temps, others);
        if !self.has(content) {
            self.contents.push(content)?;
        }
        Ok(())
    }

    /// Whether a content is there.
    pub(crate) fn has(&self, content: Content) -> bool {
        for other in &self.contents {
            if *other == content {
                return true;
            }
        }
        false
    }

    /// A content is removed.
    pub(crate) fn drop_content(&mut self, content: Content) -> Result<(), AllocError> {
        let mut others = Vec::new(self.alloc);
        for other in &self.contents {
            if *other != content {
                others.push(*other)?;
            }
        }
        set(&mut self.contents, others);
        Ok(())
    }

    /// Whether the bucket is there.
    pub(crate) fn has_bucket(&self) -> bool {
        self.bucket.is_some()
    }

    /// The bucket is removed.
    pub(crate) fn drop_bucket(&mut self) {
        set(&mut self.bucket, None);
    }

    /// So many bytes of a content's line, and of the line feed in front of it, join the bucket.
    pub(crate) fn append(&mut self, content: Content, count: usize) -> Result<(), AllocError> {
        let line = format!(in self.alloc; "\n{}", content.line())?;
        let line = beginning(line.as_str(), count);
        let bytes = match &self.bucket {
            Some(bytes) => format!(in self.alloc; "{bytes}{line}")?,
            None => String::from_str(self.alloc, line)?,
        };
        set(&mut self.bucket, Some(bytes));
        Ok(())
    }

    /// What a failed append leaves: the part that its luck names, or nothing at all.
    pub(crate) fn tear(&mut self, content: Content, luck: Luck) -> Result<(), AllocError> {
        match luck {
            Luck::Fail(_, Some(count)) => self.append(content, count),
            _ => Ok(()),
        }
    }

    /// The contents of the bucket's entries, oldest first. A piece between line feeds is an entry if it is a whole line.
    pub(crate) fn entries(&self) -> Result<Vec<Content>, AllocError> {
        let mut entries = Vec::new(self.alloc);
        let Some(bytes) = &self.bucket else {
            return Ok(entries);
        };
        for piece in bytes.split('\n') {
            if let Some(content) = content_of(piece) {
                entries.push(content)?;
            }
        }
        Ok(entries)
    }

    /// The content of the newest entry.
    pub(crate) fn newest(&self) -> Result<Option<Content>, AllocError> {
        Ok(self.entries()?.pop())
    }

    /// All that is below the top folder: a folder's path with a `/` at its end, a file's with its bytes.
    pub(crate) fn places(&self) -> Result<Vec<String>, AllocError> {
        let mut places = Vec::new(self.alloc);
        for folder in &self.folders {
            places.push(format!(in self.alloc; "{folder}/")?)?;
        }
        self.add_files(&mut places)?;
        if let Some(bytes) = &self.bucket {
            places.push(format!(in self.alloc; "{BUCKET}={bytes}")?)?;
        }
        Ok(places)
    }

    /// The contents and the temporary files, which are empty.
    fn add_files(&self, places: &mut Vec<String>) -> Result<(), AllocError> {
        for content in &self.contents {
            let (path, text) = (content.path(), content.text());
            places.push(format!(in self.alloc; "{path}={text}")?)?;
        }
        for number in &self.temps {
            places.push(format!(in self.alloc; "/cache/tmp/.tmp000000000000000{number}=")?)?;
        }
        Ok(())
    }
}
