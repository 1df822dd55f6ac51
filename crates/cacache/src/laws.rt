//! Laws that a caller's own proof may cite: functions without a body, with contracts that say what follows from the
//! calls, entries and histories. Those named `after_..` are called after a call on a store in memory, with its
//! arguments and its answer: they say what it left. The words of their contracts are those of `specs/Laws`, for worlds
//! and losses those of `specs/Histories`, for the file of a bucket that many processes use those of `specs/Buckets`, and
//! for whole writes by polls those of `specs/Polled`.
pub use cacache_calls::{
    effect_laws, licence_laws, promise_laws, reply_laws, row_laws, run_laws, sound_laws,
};
pub use cacache_core::laws::{integrity_laws, path_laws, text_laws};
pub use cacache_entry::{bucket_laws, entry_laws, lookup_laws};
pub use cacache_history::durable::durable_laws;
pub use cacache_history::{digest_laws, history_laws};
pub use cacache_laws::results::{
    after_clear, after_copy, after_exists, after_export, after_find, after_get_or_put,
    after_insert, after_link, after_link_hash, after_list, after_read, after_read_hash,
    after_read_left, after_remove, after_remove_fully, after_remove_hash, after_share, after_write,
    after_write_hash, after_write_left, durable_cases, joining_laws, layered_laws, link_losses,
    linker_laws, loss_results, writer_laws,
};
pub use cacache_laws::{
    cache_laws, handle_laws, look_laws, meanwhile_laws, parts_laws, sequence_laws, standing_laws,
    success_laws,
};
pub use cacache_polled::laws::event_laws;
pub use cacache_shared::seat_laws;
pub use cacache_system_model::{
    bucket_event_laws, bucket_file_laws, bucket_name_laws, system_call_laws, system_history_laws,
};
pub use cacache_value::{append_laws, step_laws, trace_laws};
pub use cacache_walks::contents_laws;
pub use cacache_writers::write_laws;
