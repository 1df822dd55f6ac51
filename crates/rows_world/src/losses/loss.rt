//! A loss of power: which names are as they were before, and what the files that weren't synced end in.
use crate::losses::places::{Node, Places};
use cacache_core::text::Text;
use rows::random::Random;
use std::alloc::{AllocError, Global};

/// For each place, whether what was there before is there again, and what follows its file's fixed bytes.
pub(crate) struct Loss {
    undone: Vec<bool>,
    tails: Vec<Text>,
}

// Written out, so that it is a call of its own: whoever lets one go has a proof that doesn't go through its parts.
impl Drop for Loss {
    fn drop(self) {
        let Loss {
            undone: _undone,
            tails: _tails,
        } = self;
    }
}

/// What a file may end in: nothing, some bytes, or the beginning of a line.
const TAILS: [&str; 5] = [
    "",
    "zz",
    "\n",
    "\n0a18ff2771f47bc242a042b2f6842aed",
    "\n\t{\"key\":\"a\"}",
];

impl Loss {
    /// No place yet.
    fn new(alloc: Global) -> Loss {
        Loss {
            undone: Vec::new(alloc),
            tails: Vec::new(alloc),
        }
    }

    /// One place more.
    fn push(&mut self, alloc: Global, undone: bool, tail: &str) -> Result<(), AllocError> {
        let tail = Text::from_str(alloc, tail)?;
        self.undone.push(undone)?;
        self.tails.push(tail)?;
        Ok(())
    }

    /// Whether the name of the place with this number is as it was before.
    pub(crate) fn is_undone(&self, number: usize) -> bool {
        self.undone.get(number).copied().unwrap_or(false)
    }

    /// What follows the fixed bytes of the file at the place with this number.
    pub(crate) fn tail(&self, number: usize) -> &str {
        match self.tails.get(number) {
            Some(tail) => tail.as_str(),
            None => "",
        }
    }

    /// The loss of this name, or of all names, with tails at some paths.
    pub(crate) fn of(
        places: &Places,
        undone: &str,
        tails: &[(&str, &str)],
    ) -> Result<Loss, AllocError> {
        let mut loss = Loss::new(places.alloc);
        for place in &places.all {
            let path = place.path.as_str();
            let mut tail = "";
            for (name, text) in tails {
                if *name == path {
                    tail = *text;
                }
            }
            loss.push(places.alloc, undone == "all" || undone == path, tail)?;
        }
        Ok(loss)
    }

    /// A random loss: each name, and each tail.
    pub(crate) fn random(places: &Places, random: &mut Random) -> Result<Loss, AllocError> {
        let mut loss = Loss::new(places.alloc);
        for _ in &places.all {
            let undone = random.below(2) == 0;
            let tail = random.pick(&TAILS).copied().unwrap_or("");
            loss.push(places.alloc, undone, tail)?;
        }
        Ok(loss)
    }
}

impl Places {
    /// What is at a path after a loss, if its folders are there. The cache's own folder stays.
    fn left_at<'a>(
        &'a self,
        loss: &'a Loss,
        home: &str,
        path: &str,
    ) -> Option<(&'a Node, &'a str)> {
        let number = self.number_of(path)?;
        let undone = path != home && loss.is_undone(number);
        let node = self.all.get(number)?.after(undone)?;
        Some((node, loss.tail(number)))
    }

    /// Whether there is a folder at each name above a path after a loss.
    fn is_reached(&self, loss: &Loss, home: &str, path: &str) -> Result<bool, AllocError> {
        let mut at = String::new(self.alloc);
        for name in path.split('/') {
            if !at.is_empty() && at.as_str() != path {
                match self.left_at(loss, home, at.as_str()) {
                    Some((Node::Folder, _)) => {}
                    _ => return Ok(false),
                }
            }
            if !name.is_empty() {
                at.push('/')?;
                at.push_str(name)?;
            }
        }
        Ok(true)
    }

    /// The bytes of the file at a path after a loss; None if there is no file.
    pub(crate) fn lost(
        &self,
        loss: &Loss,
        home: &str,
        path: &str,
    ) -> Result<Option<Vec<u8>>, AllocError> {
        if !self.is_reached(loss, home, path)? {
            return Ok(None);
        }
        let Some((Node::File(file), tail)) = self.left_at(loss, home, path) else {
            return Ok(None);
        };
        let bytes = file.bytes.as_slice();
        if file.whole {
            return Ok(Some(Vec::from_slice(self.alloc, bytes)?));
        }
        let mut left = Vec::from_slice(self.alloc, bytes.get(..file.fixed).unwrap_or(bytes))?;
        left.extend_from_slice(tail.as_bytes())?;
        Ok(Some(left))
    }
}
