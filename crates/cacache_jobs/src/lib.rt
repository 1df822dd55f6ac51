//! A call on a cache as a job: which step it needs next, and how it goes on with the answer.
#![tactic(auto)]

mod brought;
mod committing;
mod comparing;
mod exporting;
mod gate;
mod hashing;
mod inserting;
mod job;
mod linking;
mod looking;
pub mod messages;
mod moments;
mod opening;
mod phase;
mod places;
mod reading;
mod removing;
mod resuming;
mod run;
mod stage;
mod storing;
mod syncing;
mod walking;

pub use brought::{made_temp, opened_file, told_size};
pub use committing::commit_from;
pub use gate::{Gate, Open, Pass};
pub use hashing::PIECE;
pub use job::{Job, Next};
pub use moments::{moment, moment_of};
pub use phase::refused;
pub use places::{bucket_path, bucket_place, content_path, temp_folder, temp_path};
pub use reading::is_there;
pub use resuming::link_from;
pub use run::{call, drive};
