#![tactic(auto)]

ghost use Rattle.std.specs.Prelude.{◌≡◌, ◌≤◌, ◌<◌, length};
ghost use Rattle.model.specs.State.{stores_in};
ghost use Rattle.model.specs.Sound.{Sound};
ghost use Rattle.model.specs.Refusals.{OutFits};
ghost use Rattle.model_sums.specs.Sums.{sum_places};
ghost use Rattle.model_sums.specs.Tally.{summed, tally_insert};
ghost use Rattle.shape_answer.specs.Lists.{out_list};
ghost use Rattle.shape_answer.specs.Answers.{state_from, outcome, store_inserted_of};

use model::Span;
use shape_answer::StoreInserted;

// A counted bring-in where a sum of the store is near the limit: the plain call is made, and put back where a sum would pass.
fn near_insert(
    parent: &[usize],
    depth: &[usize],
    len: &[usize],
    run: &[usize],
    words: &[u64],
    node: &mut [usize],
    start: &mut [usize],
    end: &mut [usize],
    id: &mut [u64],
    stamp: &mut [u64],
    touched: &mut [f64],
    write: &mut [u32],
    pin_node: &[usize],
    pin_start: &[usize],
    pin_end: &[usize],
    pin_count: &[u64],
    marks: &mut [usize],
    bytes: &[u64],
    books: &mut [u64],
    out_node: &mut [usize],
    out_start: &mut [usize],
    out_end: &mut [usize],
    out_write: &mut [u32],
    out_bytes: &mut [u64],
    out_dead: &mut [u64],
    sums: &mut [u64],
    s: usize,
    sp: Span,
    time: f64,
    w: u32,
) -> StoreInserted
    requires { Sound
        (state_from parent.now depth.now len.now run.now words.now node.old start.old end.old id.old stamp.old touched.old write.old
        pin_node.now pin_start.now pin_end.now pin_count.now marks.old bytes.now books.old)
        × OutFits (out_list out_node.old out_start.old out_end.old out_write.old out_bytes.old out_dead.old)
        × (sum_places ≤ length sums.old)
        × (s < stores_in books.old) }
    ensures { outcome
        (state_from parent.now depth.now len.now run.now words.now node.new
        start.new end.new id.new stamp.new touched.new write.new pin_node.now
        pin_start.now pin_end.now pin_count.now marks.new bytes.now books.new)
        (summed (out_list out_node.new out_start.new out_end.new out_write.new
        out_bytes.new out_dead.new) sums.new)
        (store_inserted_of result)
        ≡ tally_insert
        (state_from parent.now depth.now len.now run.now words.now node.old
        start.old end.old id.old stamp.old touched.old write.old pin_node.now
        pin_start.now pin_end.now pin_count.now marks.old bytes.now books.old)
        (summed (out_list out_node.old out_start.old out_end.old out_write.old
        out_bytes.old out_dead.old) sums.old)
        s sp time w }
{
    let b = pool_book::book_of(books, s);
    let next = books[3];
    let stalls = books[4];
    let old = pool_undo::keep(node, start, end, id, stamp, touched, write, marks, s);
    let kept = pool_undo::keep_outs(out_node, out_start, out_end, out_write, out_bytes, out_dead);
    let r = call_bring::store_insert(
        parent, depth, len, run, words, node, start, end, id, stamp, touched, write, pin_node,
        pin_start, pin_end, pin_count, marks, bytes, books, out_node, out_start, out_end,
        out_write, out_bytes, out_dead, s, sp, time, w,
    );
    match r {
        StoreInserted::Refused(n) => StoreInserted::Refused(n),
        StoreInserted::Done(a) => {
            let o = pool_sums::out_sums(out_start, out_end, out_bytes, out_dead, a.outs as usize);
            if pool_sums::bring_passes(sums, b.capacity, s, a.blocks, o) {
                pool_undo::undo_store(
                    node, start, end, id, stamp, touched, write, marks, books, s, old, b, next,
                    stalls,
                );
                pool_undo::undo_outs(
                    out_node, out_start, out_end, out_write, out_bytes, out_dead, kept,
                );
                return StoreInserted::Refused(21);
            }
            pool_sums::add_bring(sums, b.capacity, s, a.blocks, o);
            StoreInserted::Done(a)
        }
    }
}

// A span brought into store s of a sound state, with the sums kept: the plain call, and 21 where a sum would pass 2^63 - 1.
pub fn tally_insert(
    parent: &[usize],
    depth: &[usize],
    len: &[usize],
    run: &[usize],
    words: &[u64],
    node: &mut [usize],
    start: &mut [usize],
    end: &mut [usize],
    id: &mut [u64],
    stamp: &mut [u64],
    touched: &mut [f64],
    write: &mut [u32],
    pin_node: &[usize],
    pin_start: &[usize],
    pin_end: &[usize],
    pin_count: &[u64],
    marks: &mut [usize],
    bytes: &[u64],
    books: &mut [u64],
    out_node: &mut [usize],
    out_start: &mut [usize],
    out_end: &mut [usize],
    out_write: &mut [u32],
    out_bytes: &mut [u64],
    out_dead: &mut [u64],
    sums: &mut [u64],
    s: usize,
    sp: Span,
    time: f64,
    w: u32,
) -> StoreInserted
    requires { Sound
        (state_from parent.now depth.now len.now run.now words.now node.old start.old end.old id.old stamp.old touched.old write.old
        pin_node.now pin_start.now pin_end.now pin_count.now marks.old bytes.now books.old)
        × OutFits (out_list out_node.old out_start.old out_end.old out_write.old out_bytes.old out_dead.old)
        × (sum_places ≤ length sums.old) }
    ensures { outcome
        (state_from parent.now depth.now len.now run.now words.now node.new
        start.new end.new id.new stamp.new touched.new write.new pin_node.now
        pin_start.now pin_end.now pin_count.now marks.new bytes.now books.new)
        (summed (out_list out_node.new out_start.new out_end.new out_write.new
        out_bytes.new out_dead.new) sums.new)
        (store_inserted_of result)
        ≡ tally_insert
        (state_from parent.now depth.now len.now run.now words.now node.old
        start.old end.old id.old stamp.old touched.old write.old pin_node.now
        pin_start.now pin_end.now pin_count.now marks.old bytes.now books.old)
        (summed (out_list out_node.old out_start.old out_end.old out_write.old
        out_bytes.old out_dead.old) sums.old)
        s sp time w }
{
    let stores = books[2] as usize;
    if stores <= s {
        return StoreInserted::Refused(2);
    }
    if !pool_sums::far(sums, s) {
        return near_insert(
            parent, depth, len, run, words, node, start, end, id, stamp, touched, write, pin_node,
            pin_start, pin_end, pin_count, marks, bytes, books, out_node, out_start, out_end,
            out_write, out_bytes, out_dead, sums, s, sp, time, w,
        );
    }
    let b = pool_book::book_of(books, s);
    let r = call_bring::store_insert(
        parent, depth, len, run, words, node, start, end, id, stamp, touched, write, pin_node,
        pin_start, pin_end, pin_count, marks, bytes, books, out_node, out_start, out_end,
        out_write, out_bytes, out_dead, s, sp, time, w,
    );
    match r {
        StoreInserted::Refused(n) => StoreInserted::Refused(n),
        StoreInserted::Done(a) => {
            let o = pool_sums::out_sums(out_start, out_end, out_bytes, out_dead, a.outs as usize);
            pool_sums::add_bring(sums, b.capacity, s, a.blocks, o);
            StoreInserted::Done(a)
        }
    }
}
