//! A package manager over a cache in memory: each function's contract says what it does in a caller's words, and is
//! proved only from the contracts of the public calls and the public laws. After each call its law is called, so that
//! an answer is one term. Memory may be refused at any time, so each of them may answer `OutOfMemory`.
//!
//! | Module | Functions |
//! |---|---|
//! | `reading` | `fetch`, `fetch_left` after a loss of power, `describe`, `try_opening` |
//! | `storing` | `store`, `replace`, `install_two`, `retry_install`, `uninstall`, `uninstall_and_describe` |
//! | `installing` | `install`, by a writer with metadata and a size, `install_expected`, `give_up` |
//! | `writing` | the parts of these: a writer opens, takes bytes, and is committed or given up |
//! | `auditing` | `list`, `is_whole`, `audit` |
//! | `outside` | `link` a file, `link_and_copy`, `mirror` one, `adopt` one by a linker, `export` a package |
//! | `empty` | `come_and_go`, `from_nothing`: in a cache that is empty at first |
//! | `counting` | `count` the entries, over any store |
//! | `polling` | `write_within` so many polls, by any writer |
#![tactic(auto)]

mod auditing;
mod counting;
mod empty;
mod installing;
mod outside;
mod polling;
mod reading;
mod storing;
mod writing;

pub use auditing::{Verdict, audit, is_whole, list};
pub use counting::count;
pub use empty::{ReadBack, come_and_go, from_nothing};
pub use installing::{give_up, install, install_expected};
pub use outside::{adopt, export, link, link_and_copy, mirror};
pub use polling::write_within;
pub use reading::{describe, fetch, fetch_left, try_opening};
pub use storing::{install_two, replace, retry_install, store, uninstall, uninstall_and_describe};
