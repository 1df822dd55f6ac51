//! Tries rows on the steps of a disk, and on calls, which ask for steps. A row that has five columns is one on a disk, and any other one is one on a call; `disk` and `calls` say how they are read. The rows of a group that
//! hold are counted, and each other row is printed with what was wanted and what came.
#![tactic(auto)]

mod calls;
mod disk;
pub mod values;

use cacache_core::keeping::let_go;
use calls::trial::Calls;
use disk::scene::Stage;
use rows::{Flaw, Outcome, Trial};
use std::io;

/// Tries rows of both kinds.
#[derive(Drop)]
struct Steps {
    disk: Stage,
    calls: Calls,
}

impl Trial for Steps {
    fn begin(&mut self) {
        self.disk.begin();
    }

    fn outcome(&mut self, row: &str) -> Result<Outcome, Flaw> {
        if row.split(" | ").count() == 5 {
            self.disk.outcome(row)
        } else {
            self.calls.outcome(row)
        }
    }
}

/// Tries rows, prints how they went, and says whether each of them holds.
pub fn all_hold(rt: &(impl Print + AllocGlobal), rows: &str) -> io::Result<bool> {
    let alloc = rt.alloc();
    let mut steps = Steps {
        disk: Stage::new(alloc),
        calls: Calls { alloc },
    };
    let all_hold = rows::all_hold(rt, rows, &mut steps);
    let_go(steps);
    all_hold
}
