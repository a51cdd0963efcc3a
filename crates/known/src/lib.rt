#![tactic(auto)]
// The calls of a caller whose state is known to be sound, under the source's names: each makes every test that document 01 has for it but those for 1 and
// 14. A state that was set up here and changed by these calls alone is sound. `sound_state` is the test for 1.
pub use call_bring::store_insert;
pub use call_count::{
    pin_stalls, source_version, store_available_for_stage, store_capacity_blocks,
    store_held_blocks, store_pinned_blocks,
};
pub use call_expire::store_expire;
pub use call_insert::insert;
pub use call_lookup::lookup;
pub use call_pin::{pin_source, unpin_source};
pub use call_remove::store_remove;
pub use call_resolve::resolve;
pub use call_set_up::set_up;
pub use call_touch::store_used_array;
pub use model::{
    BringAnswer, Cut, EachTier, ExpireAnswer, InsertAnswer, LookupAnswer, Path, RemoveAnswer,
    ResolveAnswer, Span, TouchAnswer,
};
pub use pool_book::books_size;
pub use shape_answer::{
    Count, Inserted, Looked, Plain, Resolved, StoreExpired, StoreInserted, StoreRemoved, StoreUsed,
};
pub use test_state::sound_state;

// How long the list of small numbers is.
pub const NUMBERS: usize = 69;
