//! What a row asks for, and what came.
use crate::devices::devices_differ;
use crate::environment::{is_between, numbers, numbers_differ};
use crate::memory::appended;
use crate::place::Place;
use crate::root::Root;
use crate::ways::{KINDS, failing, ways_of};
use cacache_core::keeping::{beside, let_go, set};
use rows::answers::given;
use rows::words::{column, cut, string_of};
use rows::{Flaw, Outcome, Trial};
use std::alloc::Global;
use std::io::ErrorKind;

/// Tries rows on real folders, as the head of `folder.rows` says. The rows of a group have one folder.
pub(crate) struct Folders {
    rt: HostRuntime,
    group: Option<Group>,
}

// Written out, so that it is a call of its own: whoever lets one go has a proof that doesn't go through its parts.
impl Drop for Folders {
    fn drop(self) {
        let Folders { rt: _rt, group } = self;
        let_go(group);
    }
}

/// A group of rows.
struct Group {
    alloc: Global,
    place: Place,
    root: Root,
}

impl Drop for Group {
    fn drop(self) {
        let Group {
            alloc: _alloc,
            place,
            root,
        } = self;
        // the place first, since its temporary file is removed by its path
        let_go(place);
        let_go(root);
    }
}

impl Group {
    /// A new folder, without a watch.
    fn new(rt: HostRuntime) -> Result<Group, Flaw> {
        let root = given(Root::new(rt))?;
        Ok(Group {
            alloc: rt.alloc(),
            place: Place::real(rt),
            root,
        })
    }

    /// Does what the words say on the group's store.
    fn came(&mut self, words: &str) -> Result<String, Flaw> {
        self.place.came(self.alloc, self.root.path.as_str(), words)
    }

    /// Does what the words say on a new store of these ways, which is the group's from now on.
    fn came_in(&mut self, words: &str) -> Result<String, Flaw> {
        let (ways, words) = cut(words);
        let ways = ways_of(ways)?;
        set(&mut self.place, Place::watched(self.root.rt, ways)?);
        self.came(words)
    }

    /// Does what the words say on a store of somebody else.
    fn came_else(&mut self, words: &str) -> Result<String, Flaw> {
        let mut place = Place::real(self.root.rt);
        let came = place.came(self.alloc, self.root.path.as_str(), words);
        let_go(place);
        came
    }

    /// The reason of the store after an append that fails for this one.
    fn reason_of(&mut self, kind: ErrorKind) -> Result<String, Flaw> {
        set(
            &mut self.place,
            Place::watched(self.root.rt, failing(kind))?,
        );
        let_go(self.came("Append /file x")?);
        self.came("reason")
    }

    /// Each kind of error that isn't the store's reason after an append that fails so, with that reason.
    fn other_reasons(&mut self) -> Result<String, Flaw> {
        let mut others = String::from_str(self.alloc, "others:")?;
        for kind in KINDS {
            let reason = self.reason_of(kind)?;
            let named = format!(in self.alloc; "{kind:?}")?;
            if reason != named {
                others.push_str(format!(in self.alloc; " {named} {reason}")?.as_str())?;
            }
        }
        Ok(others)
    }

    /// What an act on the folder or the store gives.
    fn got(&mut self, act: &str) -> Result<String, Flaw> {
        match cut(act) {
            ("in", words) => self.came_in(words),
            ("else", words) => self.came_else(words),
            ("look", path) => self.root.look(path),
            ("rename", words) => self.root.rename(words),
            ("holders", _) => self.place.holders(self.alloc),
            ("reasons", _) => self.other_reasons(),
            _ => self.came(act),
        }
    }

    /// What an act gives, and the calls that it takes if they are wanted.
    fn got_with(&mut self, act: &str, with_calls: bool) -> Result<String, Flaw> {
        self.place.forget(self.alloc);
        let got = self.got(act)?;
        if !with_calls {
            return Ok(got);
        }
        let calls = self.place.calls(self.alloc, self.root.path.as_str());
        let (calls, got) = beside(calls, got)?;
        Ok(format!(in self.alloc; "{got} | {calls}")?)
    }
}

impl Folders {
    /// No rows yet.
    pub(crate) fn new(rt: HostRuntime) -> Folders {
        Folders { rt, group: None }
    }

    /// The group of rows, which begins with its first row.
    fn group(&mut self) -> Result<&mut Group, Flaw> {
        if self.group.is_none() {
            set(&mut self.group, Some(Group::new(self.rt)?));
        }
        match &mut self.group {
            Some(group) => Ok(group),
            None => Err(Flaw::Unfit),
        }
    }

    /// What an act gives, with the calls that it takes if they are wanted.
    fn got(&mut self, act: &str, with_calls: bool) -> Result<String, Flaw> {
        let alloc = self.rt.alloc();
        let got = match cut(act) {
            ("clock", _) => format!(in alloc; "{}", given(is_between(self.rt))?),
            ("numbers", words) => return numbers(alloc, words),
            ("numbers-differ", _) => format!(in alloc; "{}", numbers_differ(self.rt)),
            ("devices-differ", _) => format!(in alloc; "{}", given(devices_differ(self.rt))?),
            ("memory", line) => appended(alloc, line),
            _ => return self.group()?.got_with(act, with_calls),
        };
        Ok(got?)
    }
}

impl Trial for Folders {
    fn begin(&mut self) {
        set(&mut self.group, None);
    }

    fn outcome(&mut self, row: &str) -> Result<Outcome, Flaw> {
        let alloc = self.rt.alloc();
        let row = string_of(alloc, row)?;
        let (act, wanted) = column(row.as_str())?;
        let got = self.got(act, wanted.contains(" | "))?;
        let (wanted, got) = beside(String::from_str(alloc, wanted), got)?;
        Ok(Outcome { wanted, got })
    }
}
