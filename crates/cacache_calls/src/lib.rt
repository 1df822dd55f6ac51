//! All calls on a cache as one table of states: the step that each state needs, and the state that each answer leads
//! to.
#![tactic(auto)]

pub mod answers;
mod carried;
mod command;
mod data;
mod forming;
mod kinds;
mod laws;
mod reply;
mod target;
mod values;
mod visit;

pub use answers::Refusal;
pub use carried::{Aim, Commit, Content, Lookup};
pub use command::{Command, Delete, Export, How, Insert, Link, Options, Put, Source};
pub use data::Json;
pub use forming::{form_command, form_commit, form_delete, form_insert, form_link, form_put};
pub use laws::{
    effect_laws, licence_laws, promise_laws, reply_laws, row_laws, run_laws, sound_laws,
};
pub use reply::{Found, Items, Reply};
pub use target::{Target, based};
pub use values::{look_through, look_through_bytes};
pub use visit::{Task, Visit};
