//! Names for longer texts: `{bucket}` in a row is replaced by the text of the line `= bucket ..`.
use crate::words::cut;
use std::alloc::{AllocError, Global};

/// A name with its braces, and its text.
#[derive(Drop)]
struct Named {
    name: String,
    text: String,
}

/// The names defined so far.
#[derive(Drop)]
pub(crate) struct Names {
    alloc: Global,
    names: Vec<Named>,
}

impl Names {
    /// No names.
    pub(crate) fn new(alloc: Global) -> Names {
        Names {
            alloc,
            names: Vec::new(alloc),
        }
    }

    /// Defines another name: the first word of the line. The rest of the line is its text.
    pub(crate) fn define(&mut self, line: &str) -> Result<(), AllocError> {
        let (name, text) = cut(line);
        let name = format!(in self.alloc; "{{{name}}}")?;
        let text = self.filled(text)?;
        self.names.push(Named { name, text })?;
        Ok(())
    }

    /// The line with each name replaced by its text.
    pub(crate) fn filled(&self, line: &str) -> Result<String, AllocError> {
        let mut line = String::from_str(self.alloc, line)?;
        for named in &self.names {
            line = line.replace(self.alloc, named.name.as_str(), named.text.as_str())?;
        }
        Ok(line)
    }
}
