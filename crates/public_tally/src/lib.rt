#![tactic(auto)]
// The public calls that keep the running sums: the tests for 1 and 14, a list of sums that is too short among them, then the call that a caller with a
// sound state uses.
ghost use Rattle.std.specs.Prelude.{◌≡◌};
ghost use Rattle.model_sums.specs.Tally.{summed, tally_insert, tally_expire, tally_remove, tally_lookup};
ghost use Rattle.shape_answer.specs.Lists.{out_list, path_list_of, tier_list_of, lists_of};
ghost use Rattle.shape_answer.specs.Answers.{state_from, outcome, store_expired_of, store_inserted_of, store_removed_of, looked_of};

use model::Span;
use shape_answer::{Looked, StoreExpired, StoreInserted, StoreRemoved};

// Brings a span into store s, with the sums kept.
pub fn tally_insert(
    parent: &[usize],
    depth: &[usize],
    len: &[usize],
    run: &[usize],
    words: &[u64],
    node: &mut [usize],
    start: &mut [usize],
    end: &mut [usize],
    id: &mut [u64],
    stamp: &mut [u64],
    touched: &mut [f64],
    write: &mut [u32],
    pin_node: &[usize],
    pin_start: &[usize],
    pin_end: &[usize],
    pin_count: &[u64],
    marks: &mut [usize],
    bytes: &[u64],
    books: &mut [u64],
    out_node: &mut [usize],
    out_start: &mut [usize],
    out_end: &mut [usize],
    out_write: &mut [u32],
    out_bytes: &mut [u64],
    out_dead: &mut [u64],
    sums: &mut [u64],
    s: usize,
    sp: Span,
    time: f64,
    w: u32,
) -> StoreInserted
    ensures { outcome
        (state_from parent.now depth.now len.now run.now words.now node.new
        start.new end.new id.new stamp.new touched.new write.new
        pin_node.now pin_start.now pin_end.now pin_count.now marks.new
        bytes.now books.new)
        (summed (out_list out_node.new out_start.new out_end.new out_write.new
        out_bytes.new out_dead.new) sums.new)
        (store_inserted_of result)
        ≡ tally_insert
        (state_from parent.now depth.now len.now run.now words.now node.old
        start.old end.old id.old stamp.old touched.old write.old
        pin_node.now pin_start.now pin_end.now pin_count.now marks.old
        bytes.now books.old)
        (summed (out_list out_node.old out_start.old out_end.old out_write.old
        out_bytes.old out_dead.old) sums.old)
        s sp time w }
{
    if !test_state::sound_state(
        parent, depth, len, run, words, node, start, end, id, stamp, touched, write, pin_node,
        pin_start, pin_end, pin_count, marks, bytes, books,
    ) {
        return StoreInserted::Refused(1);
    }
    if sums.len() < 59 {
        return StoreInserted::Refused(14);
    }
    if !test_arguments::outs_fit(out_node, out_start, out_end, out_write, out_bytes, out_dead) {
        return StoreInserted::Refused(14);
    }
    call_tally_bring::tally_insert(
        parent, depth, len, run, words, node, start, end, id, stamp, touched, write, pin_node,
        pin_start, pin_end, pin_count, marks, bytes, books, out_node, out_start, out_end,
        out_write, out_bytes, out_dead, sums, s, sp, time, w,
    )
}

// Gives out what store s has not touched for more than the seconds, with the sums kept.
pub fn tally_expire(
    parent: &[usize],
    depth: &[usize],
    len: &[usize],
    run: &[usize],
    words: &[u64],
    node: &mut [usize],
    start: &mut [usize],
    end: &mut [usize],
    id: &mut [u64],
    stamp: &mut [u64],
    touched: &mut [f64],
    write: &mut [u32],
    pin_node: &[usize],
    pin_start: &[usize],
    pin_end: &[usize],
    pin_count: &[u64],
    marks: &mut [usize],
    bytes: &[u64],
    books: &mut [u64],
    out_node: &mut [usize],
    out_start: &mut [usize],
    out_end: &mut [usize],
    out_write: &mut [u32],
    out_bytes: &mut [u64],
    out_dead: &mut [u64],
    sums: &mut [u64],
    s: usize,
    time: f64,
    seconds: f64,
) -> StoreExpired
    ensures { outcome
        (state_from parent.now depth.now len.now run.now words.now node.new
        start.new end.new id.new stamp.new touched.new write.new
        pin_node.now pin_start.now pin_end.now pin_count.now marks.new
        bytes.now books.new)
        (summed (out_list out_node.new out_start.new out_end.new out_write.new
        out_bytes.new out_dead.new) sums.new)
        (store_expired_of result)
        ≡ tally_expire
        (state_from parent.now depth.now len.now run.now words.now node.old
        start.old end.old id.old stamp.old touched.old write.old
        pin_node.now pin_start.now pin_end.now pin_count.now marks.old
        bytes.now books.old)
        (summed (out_list out_node.old out_start.old out_end.old out_write.old
        out_bytes.old out_dead.old) sums.old)
        s time seconds }
{
    if !test_state::sound_state(
        parent, depth, len, run, words, node, start, end, id, stamp, touched, write, pin_node,
        pin_start, pin_end, pin_count, marks, bytes, books,
    ) {
        return StoreExpired::Refused(1);
    }
    if sums.len() < 59 {
        return StoreExpired::Refused(14);
    }
    if !test_arguments::outs_fit(out_node, out_start, out_end, out_write, out_bytes, out_dead) {
        return StoreExpired::Refused(14);
    }
    call_tally_expire::tally_expire(
        parent, depth, len, run, words, node, start, end, id, stamp, touched, write, pin_node,
        pin_start, pin_end, pin_count, marks, bytes, books, out_node, out_start, out_end,
        out_write, out_bytes, out_dead, sums, s, time, seconds,
    )
}

// Takes a span out of store s, with the sums kept.
pub fn tally_remove(
    parent: &[usize],
    depth: &[usize],
    len: &[usize],
    run: &[usize],
    words: &[u64],
    node: &mut [usize],
    start: &mut [usize],
    end: &mut [usize],
    id: &mut [u64],
    stamp: &mut [u64],
    touched: &mut [f64],
    write: &mut [u32],
    pin_node: &[usize],
    pin_start: &[usize],
    pin_end: &[usize],
    pin_count: &[u64],
    marks: &mut [usize],
    bytes: &[u64],
    books: &mut [u64],
    list: &mut [u32],
    sums: &mut [u64],
    s: usize,
    sp: Span,
) -> StoreRemoved
    ensures { outcome
        (state_from parent.now depth.now len.now run.now words.now node.new
        start.new end.new id.new stamp.new touched.new write.new
        pin_node.now pin_start.now pin_end.now pin_count.now marks.new
        bytes.now books.new)
        (summed list.new sums.new)
        (store_removed_of result)
        ≡ tally_remove
        (state_from parent.now depth.now len.now run.now words.now node.old
        start.old end.old id.old stamp.old touched.old write.old
        pin_node.now pin_start.now pin_end.now pin_count.now marks.old
        bytes.now books.old)
        (summed list.old sums.old)
        s sp }
{
    if !test_state::sound_state(
        parent, depth, len, run, words, node, start, end, id, stamp, touched, write, pin_node,
        pin_start, pin_end, pin_count, marks, bytes, books,
    ) {
        return StoreRemoved::Refused(1);
    }
    if sums.len() < 59 {
        return StoreRemoved::Refused(14);
    }
    if !test_arguments::writes_fit(list) {
        return StoreRemoved::Refused(14);
    }
    call_tally_remove::tally_remove(
        parent, depth, len, run, words, node, start, end, id, stamp, touched, write, pin_node,
        pin_start, pin_end, pin_count, marks, bytes, books, list, sums, s, sp,
    )
}

// Looks a list up through tiers, with the sums kept.
pub fn tally_lookup(
    parent: &[usize],
    depth: &[usize],
    len: &[usize],
    run: &[usize],
    words: &[u64],
    node: &[usize],
    start: &[usize],
    end: &[usize],
    id: &[u64],
    stamp: &[u64],
    touched: &[f64],
    write: &[u32],
    pin_node: &[usize],
    pin_start: &[usize],
    pin_end: &[usize],
    pin_count: &[u64],
    marks: &[usize],
    bytes: &[u64],
    books: &[u64],
    path_node: &mut [usize],
    path_len: &mut [usize],
    span_tier: &mut [usize],
    span_node: &mut [usize],
    span_start: &mut [usize],
    span_end: &mut [usize],
    sums: &mut [u64],
    tiers: &[usize],
    hashes: &[u64],
) -> Looked
    ensures { outcome
        (state_from parent.now depth.now len.now run.now words.now node.now
        start.now end.now id.now stamp.now touched.now write.now
        pin_node.now pin_start.now pin_end.now pin_count.now marks.now
        bytes.now books.now)
        (summed (lists_of (path_list_of path_node.new path_len.new)
        (tier_list_of span_tier.new span_node.new span_start.new span_end.new)) sums.new)
        (looked_of result)
        ≡ tally_lookup
        (state_from parent.now depth.now len.now run.now words.now node.now
        start.now end.now id.now stamp.now touched.now write.now
        pin_node.now pin_start.now pin_end.now pin_count.now marks.now
        bytes.now books.now)
        (summed (lists_of (path_list_of path_node.old path_len.old)
        (tier_list_of span_tier.old span_node.old span_start.old span_end.old)) sums.old)
        tiers.now hashes.now }
{
    if !test_state::sound_state(
        parent, depth, len, run, words, node, start, end, id, stamp, touched, write, pin_node,
        pin_start, pin_end, pin_count, marks, bytes, books,
    ) {
        return Looked::Refused(1);
    }
    if sums.len() < 59 {
        return Looked::Refused(14);
    }
    if !test_arguments::path_fits(path_node, path_len) {
        return Looked::Refused(14);
    }
    if !test_arguments::tiers_fit(span_tier, span_node, span_start, span_end) {
        return Looked::Refused(14);
    }
    call_tally_lookup::tally_lookup(
        parent, depth, len, run, words, node, start, end, id, stamp, touched, write, pin_node,
        pin_start, pin_end, pin_count, marks, bytes, books, path_node, path_len, span_tier,
        span_node, span_start, span_end, sums, tiers, hashes,
    )
}
