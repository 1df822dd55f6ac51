//! What listings, reads and removals of contents show of the tree of a store in memory.

mod laws;

pub use laws::{
    answer_laws, collect_laws, compact_laws, holding_laws, index_laws, repair_laws, spared_laws,
    walk_laws,
};
