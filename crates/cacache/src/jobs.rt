//! Calls as jobs: each asks for its steps one by one, and anyone who can answer them may drive it. And gates, which are
//! asked before each turn.
pub use cacache_calls::{
    Command, Delete, Export, Found, How, Insert, Items, Json, Link, Options, Put, Reply, Source,
};
pub use cacache_jobs::{Gate, Job, Next, Open, Pass, call, drive};
