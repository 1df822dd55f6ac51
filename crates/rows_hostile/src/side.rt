//! A world and the model next to it, which make the same events. What they say is compared event by event.
use crate::disk::places_of;
use crate::facts::{CACHE, Content, KEY};
use crate::model::{Call, Model};
use crate::replies::{NO_MEMORY, told};
use cacache_calls::{Command, Options, Put};
use cacache_core::bytes::Bytes;
use cacache_core::integrity::Algorithm;
use cacache_core::keeping::{beside, let_go};
use cacache_core::text::Text;
use cacache_disk::Luck;
use cacache_world::{Move, Record, World, WorldFault};
use std::alloc::{AllocError, Global};

/// What came of an event at both: the same, or what differs.
#[derive(Drop)]
pub(crate) enum Came {
    /// The call goes on.
    On,
    /// The call is over with this reply.
    Over(String),
    /// The two differ so.
    Differs(String),
}

/// A world and the model next to it.
pub(crate) struct Sides {
    alloc: Global,
    world: World,
    pub(crate) model: Model,
    /// Whether a call may still be over since it had no memory.
    spares: bool,
}

// Written out, so that it is a call of its own: whoever lets one go has a proof that doesn't go through its parts.
impl Drop for Sides {
    fn drop(self) {
        let Sides {
            alloc: _,
            world: _world,
            model: _model,
            spares: _,
        } = self;
    }
}

/// An empty world with so many callers.
fn world_of(alloc: Global, callers: usize) -> Result<World, AllocError> {
    let cache = Text::from_str(alloc, CACHE)?;
    match World::new(alloc, callers, cache, Vec::new(alloc)) {
        Ok(world) => Ok(world),
        Err(_) => Err(AllocError),
    }
}

/// The bytes of a content.
fn bytes_of(alloc: Global, content: Content) -> Result<Bytes, AllocError> {
    Bytes::new(alloc, Vec::from_slice(alloc, content.text().as_bytes())?)
}

/// The put of a content.
fn put_of(alloc: Global, content: Content) -> Result<Put, AllocError> {
    let key = Text::from_str(alloc, KEY)?;
    let (data, key) = beside(bytes_of(alloc, content), key)?;
    Ok(Put {
        key: Some(key),
        data,
        moment: content.moment() as u128,
        options: Options::blank(Algorithm::Sha256),
    })
}

/// The command of a call.
fn command_of(alloc: Global, call: Call) -> Result<Command, AllocError> {
    match call {
        Call::Put(content) => Ok(Command::Put(put_of(alloc, content)?)),
        Call::Find => Ok(Command::Find(Text::from_str(alloc, KEY)?)),
        Call::Get => Ok(Command::Get(Text::from_str(alloc, KEY)?)),
        Call::RemoveFully => Ok(Command::RemoveFully(Text::from_str(alloc, KEY)?)),
        Call::Ls => Ok(Command::Ls),
    }
}

/// What two replies come to, each None if its call goes on.
fn compared(
    alloc: Global,
    wanted: Option<String>,
    got: Option<String>,
) -> Result<Came, AllocError> {
    if wanted == got {
        let_go(wanted);
        return Ok(match got {
            None => Came::On,
            Some(reply) => Came::Over(reply),
        });
    }
    let text = format!(in alloc; "wanted {wanted:?}, got {got:?}");
    let_go(wanted);
    let_go(got);
    Ok(Came::Differs(text?))
}

/// Whether one of the places is this one.
fn is_among(places: &[String], place: &str) -> bool {
    for other in places {
        if other.as_str() == place {
            return true;
        }
    }
    false
}

/// One of the places that isn't among the others.
fn missing<'a>(places: &'a [String], others: &[String]) -> Option<&'a str> {
    for place in places {
        if !is_among(others, place.as_str()) {
            return Some(place.as_str());
        }
    }
    None
}

/// A place that some have and the others haven't, if there is one.
fn lacking(alloc: Global, wanted: &[String], got: &[String]) -> Result<Option<String>, AllocError> {
    if let Some(place) = missing(wanted, got) {
        return Ok(Some(format!(in alloc; "not on the disk: {place}")?));
    }
    match missing(got, wanted) {
        Some(place) => Ok(Some(format!(in alloc; "on the disk: {place}")?)),
        None => Ok(None),
    }
}

impl Sides {
    /// Both, with so many callers and no call. `spares` says whether one call may be over since it had no memory.
    pub(crate) fn new(alloc: Global, callers: usize, spares: bool) -> Result<Sides, AllocError> {
        let model = Model::new(alloc, callers)?;
        let (world, model) = beside(world_of(alloc, callers), model)?;
        Ok(Sides {
            alloc,
            world,
            model,
            spares,
        })
    }

    /// A caller of the world begins a call.
    fn begin_in_world(
        &mut self,
        caller: usize,
        call: Call,
    ) -> Result<Result<(), WorldFault>, AllocError> {
        let command = command_of(self.alloc, call)?;
        Ok(self.world.begin(caller, command))
    }

    /// A caller begins a call; it tries once more if the world had no memory.
    pub(crate) fn begin(&mut self, caller: usize, call: Call) -> Result<(), AllocError> {
        let mut begun = self.begin_in_world(caller, call)?;
        if begun == Err(WorldFault::OutOfMemory) {
            begun = self.begin_in_world(caller, call)?;
        }
        self.model.begin(caller, call);
        if begun.is_ok() {
            Ok(())
        } else {
            Err(AllocError)
        }
    }

    /// A caller of the world makes its next step; it tries once more if the world had no memory.
    fn move_in_world(&mut self, caller: usize, luck: Luck) -> Result<Move, WorldFault> {
        match self.world.move_one(caller, luck) {
            Err(WorldFault::OutOfMemory) => self.world.move_one(caller, luck),
            moved => moved,
        }
    }

    /// Whether a reply is the one that may be spared: then the call is over at both sides.
    fn is_spared(&mut self, caller: usize, got: &Option<String>) -> bool {
        let Some(text) = got else {
            return false;
        };
        if !self.spares || text.as_str() != NO_MEMORY {
            return false;
        }
        self.spares = false;
        let _had = self.model.stop(caller);
        true
    }

    /// What came of a move, after which the model wants this reply, if any.
    fn came(
        &mut self,
        caller: usize,
        wanted: Option<String>,
        moved: Move,
    ) -> Result<Came, AllocError> {
        let (got, wanted) = beside(told(self.alloc, moved), wanted)?;
        if self.is_spared(caller, &got) {
            let_go(wanted);
            let_go(got);
            return Ok(Came::Over(String::from_str(self.alloc, NO_MEMORY)?));
        }
        compared(self.alloc, wanted, got)
    }

    /// A caller's call makes its next step under this luck.
    pub(crate) fn go(&mut self, caller: usize, luck: Luck) -> Result<Came, AllocError> {
        let wanted = self.model.go(caller, luck)?;
        match self.move_in_world(caller, luck) {
            Ok(moved) => self.came(caller, wanted, moved),
            Err(_fault) => {
                let_go(wanted);
                Ok(Came::Differs(String::from_str(self.alloc, "no move")?))
            }
        }
    }

    /// A caller gives its call up, if it has one: whether both say the same of that.
    pub(crate) fn stop(&mut self, caller: usize) -> bool {
        let had = self.model.stop(caller);
        match self.world.stop(caller) {
            Ok(()) => had,
            Err(fault) => !had && fault == WorldFault::Idle,
        }
    }

    /// What happened in the world.
    pub(crate) fn history(&self) -> &[Record] {
        self.world.history()
    }

    /// How what the world's disk holds differs from the model's value, if it does.
    pub(crate) fn differing(&self) -> Result<Option<String>, AllocError> {
        let wanted = self.model.value.places()?;
        let (got, wanted) = beside(places_of(self.alloc, self.world.disk()), wanted)?;
        lacking(self.alloc, wanted.as_slice(), got.as_slice())
    }
}
