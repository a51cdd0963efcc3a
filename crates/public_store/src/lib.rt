#![tactic(auto)]
// The public calls that bring in and give out: the tests for 1 and 14, then the call that a caller with a sound state uses.
ghost use Rattle.std.specs.Prelude.{◌≡◌};
ghost use Rattle.model.specs.Calls.{store_insert, store_expire, store_remove};
ghost use Rattle.shape_answer.specs.Lists.{out_list};
ghost use Rattle.shape_answer.specs.Answers.{state_from, outcome, store_expired_of, store_inserted_of, store_removed_of};

use model::Span;
use shape_answer::{StoreExpired, StoreInserted, StoreRemoved};

// Brings a span into store s, and lists what is given out.
pub fn store_insert(
    parent: &[usize],
    depth: &[usize],
    len: &[usize],
    run: &[usize],
    words: &[u64],
    node: &mut [usize],
    start: &mut [usize],
    end: &mut [usize],
    id: &mut [u64],
    stamp: &mut [u64],
    touched: &mut [f64],
    write: &mut [u32],
    pin_node: &[usize],
    pin_start: &[usize],
    pin_end: &[usize],
    pin_count: &[u64],
    marks: &mut [usize],
    bytes: &[u64],
    books: &mut [u64],
    out_node: &mut [usize],
    out_start: &mut [usize],
    out_end: &mut [usize],
    out_write: &mut [u32],
    out_bytes: &mut [u64],
    out_dead: &mut [u64],
    s: usize,
    sp: Span,
    time: f64,
    w: u32,
) -> StoreInserted
    ensures { outcome
        (state_from parent.now depth.now len.now run.now words.now node.new
        start.new end.new id.new stamp.new touched.new write.new pin_node.now
        pin_start.now pin_end.now pin_count.now marks.new bytes.now
        books.new)
        (out_list out_node.new out_start.new out_end.new out_write.new out_bytes.new
        out_dead.new)
        (store_inserted_of result)
        ≡ store_insert
        (state_from parent.now depth.now len.now run.now words.now node.old
        start.old end.old id.old stamp.old touched.old write.old
        pin_node.now pin_start.now pin_end.now pin_count.now marks.old
        bytes.now books.old)
        (out_list out_node.old out_start.old out_end.old out_write.old
        out_bytes.old out_dead.old)
        s sp time w }
{
    if !test_state::sound_state(
        parent, depth, len, run, words, node, start, end, id, stamp, touched, write, pin_node,
        pin_start, pin_end, pin_count, marks, bytes, books,
    ) {
        return StoreInserted::Refused(1);
    }
    if !test_arguments::outs_fit(out_node, out_start, out_end, out_write, out_bytes, out_dead) {
        return StoreInserted::Refused(14);
    }
    call_bring::store_insert(
        parent, depth, len, run, words, node, start, end, id, stamp, touched, write, pin_node,
        pin_start, pin_end, pin_count, marks, bytes, books, out_node, out_start, out_end,
        out_write, out_bytes, out_dead, s, sp, time, w,
    )
}

// Gives out what store s has not touched for more than the seconds.
pub fn store_expire(
    parent: &[usize],
    depth: &[usize],
    len: &[usize],
    run: &[usize],
    words: &[u64],
    node: &mut [usize],
    start: &mut [usize],
    end: &mut [usize],
    id: &mut [u64],
    stamp: &mut [u64],
    touched: &mut [f64],
    write: &mut [u32],
    pin_node: &[usize],
    pin_start: &[usize],
    pin_end: &[usize],
    pin_count: &[u64],
    marks: &mut [usize],
    bytes: &[u64],
    books: &mut [u64],
    out_node: &mut [usize],
    out_start: &mut [usize],
    out_end: &mut [usize],
    out_write: &mut [u32],
    out_bytes: &mut [u64],
    out_dead: &mut [u64],
    s: usize,
    time: f64,
    seconds: f64,
) -> StoreExpired
    ensures { outcome
        (state_from parent.now depth.now len.now run.now words.now node.new
        start.new end.new id.new stamp.new touched.new write.new pin_node.now
        pin_start.now pin_end.now pin_count.now marks.new bytes.now
        books.new)
        (out_list out_node.new out_start.new out_end.new out_write.new out_bytes.new
        out_dead.new)
        (store_expired_of result)
        ≡ store_expire
        (state_from parent.now depth.now len.now run.now words.now node.old
        start.old end.old id.old stamp.old touched.old write.old
        pin_node.now pin_start.now pin_end.now pin_count.now marks.old
        bytes.now books.old)
        (out_list out_node.old out_start.old out_end.old out_write.old
        out_bytes.old out_dead.old)
        s time seconds }
{
    if !test_state::sound_state(
        parent, depth, len, run, words, node, start, end, id, stamp, touched, write, pin_node,
        pin_start, pin_end, pin_count, marks, bytes, books,
    ) {
        return StoreExpired::Refused(1);
    }
    if !test_arguments::outs_fit(out_node, out_start, out_end, out_write, out_bytes, out_dead) {
        return StoreExpired::Refused(14);
    }
    call_expire::store_expire(
        parent, depth, len, run, words, node, start, end, id, stamp, touched, write, pin_node,
        pin_start, pin_end, pin_count, marks, bytes, books, out_node, out_start, out_end,
        out_write, out_bytes, out_dead, s, time, seconds,
    )
}

// Cuts a span out of store s, and lists the writes of the ranges that it overlaps.
pub fn store_remove(
    parent: &[usize],
    depth: &[usize],
    len: &[usize],
    run: &[usize],
    words: &[u64],
    node: &mut [usize],
    start: &mut [usize],
    end: &mut [usize],
    id: &mut [u64],
    stamp: &mut [u64],
    touched: &mut [f64],
    write: &mut [u32],
    pin_node: &[usize],
    pin_start: &[usize],
    pin_end: &[usize],
    pin_count: &[u64],
    marks: &mut [usize],
    bytes: &[u64],
    books: &mut [u64],
    list: &mut [u32],
    s: usize,
    sp: Span,
) -> StoreRemoved
    ensures { outcome
        (state_from parent.now depth.now len.now run.now words.now node.new
        start.new end.new id.new stamp.new touched.new write.new pin_node.now
        pin_start.now pin_end.now pin_count.now marks.new bytes.now
        books.new)
        list.new (store_removed_of result)
        ≡ store_remove
        (state_from parent.now depth.now len.now run.now words.now node.old
        start.old end.old id.old stamp.old touched.old write.old
        pin_node.now pin_start.now pin_end.now pin_count.now marks.old
        bytes.now books.old)
        list.old s sp }
{
    if !test_state::sound_state(
        parent, depth, len, run, words, node, start, end, id, stamp, touched, write, pin_node,
        pin_start, pin_end, pin_count, marks, bytes, books,
    ) {
        return StoreRemoved::Refused(1);
    }
    if !test_arguments::writes_fit(list) {
        return StoreRemoved::Refused(14);
    }
    call_remove::store_remove(
        parent, depth, len, run, words, node, start, end, id, stamp, touched, write, pin_node,
        pin_start, pin_end, pin_count, marks, bytes, books, list, s, sp,
    )
}
