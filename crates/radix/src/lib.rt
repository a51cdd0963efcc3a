#![tactic(auto)]
// The block tree, its stores and their rules: the public calls, under the source's names. Each makes all the tests that document 01 has for it, in 01's
// order, and asks nothing of its caller.
pub use call_set_up::set_up;
pub use model::{
    BringAnswer, Cut, EachTier, ExpireAnswer, InsertAnswer, LookupAnswer, Path, RemoveAnswer,
    ResolveAnswer, Span, TouchAnswer,
};
pub use pool_book::books_size;
pub use public_insert::insert;
pub use public_pin::{pin_source, unpin_source};
pub use public_read::{
    lookup, pin_stalls, resolve, source_version, store_available_for_stage, store_capacity_blocks,
    store_held_blocks, store_pinned_blocks,
};
pub use public_store::{store_expire, store_insert, store_remove};
pub use public_touch::{store_used, store_used_array};
pub use shape_answer::{
    Count, Inserted, Looked, Plain, Resolved, StoreExpired, StoreInserted, StoreRemoved, StoreUsed,
};
