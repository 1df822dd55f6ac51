//! What the system's calls mean, that a run of a step's calls does what the disk's table of steps says, and that callers' steps on one
//! machine are a history of many callers (`callers`).
//!
//! The module `memory` has a system in memory that keeps a log of its calls.
#![tactic(auto)]

mod bucket;
mod callers;
mod laws;
pub mod memory;

pub use bucket::{
    bucket_event_laws, bucket_file_cases, bucket_file_laws, bucket_name_laws, bucket_step_laws,
};
pub use callers::system_history_laws;
pub use laws::{
    change_laws, covered_laws, list_laws, logged_laws, make_dirs_laws, mirror_laws, question_laws,
    read_laws, refusal_laws, removal_laws, satisfiable_laws, sync_laws, system_call_laws,
    writing_step_laws,
};
