#![tactic(auto)]

ghost use Rattle.std.specs.Prelude.{◌≡◌, ◌≤◌, ◌<◌, length};
ghost use Rattle.model.specs.Sizes.{out_places};
ghost use Rattle.model.specs.State.{stores_in};
ghost use Rattle.model.specs.Sound.{Sound};
ghost use Rattle.model_sums.specs.Sums.{sum_places};
ghost use Rattle.model_sums.specs.Tally.{summed, tally_remove};
ghost use Rattle.shape_answer.specs.Answers.{state_from, outcome, store_removed_of};

use model::Span;
use shape_answer::StoreRemoved;

// A counted removal where a sum of the store is near the limit: the plain call is made, and put back where a sum would pass.
fn near_remove(
    parent: &[usize],
    depth: &[usize],
    len: &[usize],
    run: &[usize],
    words: &[u64],
    node: &mut [usize],
    start: &mut [usize],
    end: &mut [usize],
    id: &mut [u64],
    stamp: &mut [u64],
    touched: &mut [f64],
    write: &mut [u32],
    pin_node: &[usize],
    pin_start: &[usize],
    pin_end: &[usize],
    pin_count: &[u64],
    marks: &mut [usize],
    bytes: &[u64],
    books: &mut [u64],
    list: &mut [u32],
    sums: &mut [u64],
    s: usize,
    sp: Span,
) -> StoreRemoved
    requires { Sound
        (state_from parent.now depth.now len.now run.now words.now node.old start.old end.old id.old stamp.old touched.old write.old
        pin_node.now pin_start.now pin_end.now pin_count.now marks.old bytes.now books.old)
        × (out_places ≤ length list.old)
        × (sum_places ≤ length sums.old)
        × (s < stores_in books.old) }
    ensures { outcome
        (state_from parent.now depth.now len.now run.now words.now node.new
        start.new end.new id.new stamp.new touched.new write.new pin_node.now
        pin_start.now pin_end.now pin_count.now marks.new bytes.now books.new)
        (summed list.new sums.new)
        (store_removed_of result)
        ≡ tally_remove
        (state_from parent.now depth.now len.now run.now words.now node.old
        start.old end.old id.old stamp.old touched.old write.old pin_node.now
        pin_start.now pin_end.now pin_count.now marks.old bytes.now books.old)
        (summed list.old sums.old)
        s sp }
{
    let b = pool_book::book_of(books, s);
    let next = books[3];
    let stalls = books[4];
    let old = pool_undo::keep(node, start, end, id, stamp, touched, write, marks, s);
    let kept: [u32; 128] = pool_undo::copy(list, 0);
    let r = call_remove::store_remove(
        parent, depth, len, run, words, node, start, end, id, stamp, touched, write, pin_node,
        pin_start, pin_end, pin_count, marks, bytes, books, list, s, sp,
    );
    match r {
        StoreRemoved::Refused(n) => StoreRemoved::Refused(n),
        StoreRemoved::Done(a) => {
            if pool_sums::remove_passes(sums, s, a.blocks) {
                pool_undo::undo_store(
                    node, start, end, id, stamp, touched, write, marks, books, s, old, b, next,
                    stalls,
                );
                pool_undo::put(list, 0, &kept);
                return StoreRemoved::Refused(21);
            }
            pool_sums::add_remove(sums, s, a.blocks);
            StoreRemoved::Done(a)
        }
    }
}

// A removal from store s of a sound state that keeps the sums: the plain call, and 21 where a sum would pass 2^63 - 1.
pub fn tally_remove(
    parent: &[usize],
    depth: &[usize],
    len: &[usize],
    run: &[usize],
    words: &[u64],
    node: &mut [usize],
    start: &mut [usize],
    end: &mut [usize],
    id: &mut [u64],
    stamp: &mut [u64],
    touched: &mut [f64],
    write: &mut [u32],
    pin_node: &[usize],
    pin_start: &[usize],
    pin_end: &[usize],
    pin_count: &[u64],
    marks: &mut [usize],
    bytes: &[u64],
    books: &mut [u64],
    list: &mut [u32],
    sums: &mut [u64],
    s: usize,
    sp: Span,
) -> StoreRemoved
    requires { Sound
        (state_from parent.now depth.now len.now run.now words.now node.old start.old end.old id.old stamp.old touched.old write.old
        pin_node.now pin_start.now pin_end.now pin_count.now marks.old bytes.now books.old)
        × (out_places ≤ length list.old)
        × (sum_places ≤ length sums.old) }
    ensures { outcome
        (state_from parent.now depth.now len.now run.now words.now node.new
        start.new end.new id.new stamp.new touched.new write.new pin_node.now
        pin_start.now pin_end.now pin_count.now marks.new bytes.now books.new)
        (summed list.new sums.new)
        (store_removed_of result)
        ≡ tally_remove
        (state_from parent.now depth.now len.now run.now words.now node.old
        start.old end.old id.old stamp.old touched.old write.old pin_node.now
        pin_start.now pin_end.now pin_count.now marks.old bytes.now books.old)
        (summed list.old sums.old)
        s sp }
{
    let stores = books[2] as usize;
    if stores <= s {
        return StoreRemoved::Refused(2);
    }
    if !pool_sums::far(sums, s) {
        return near_remove(
            parent, depth, len, run, words, node, start, end, id, stamp, touched, write, pin_node,
            pin_start, pin_end, pin_count, marks, bytes, books, list, sums, s, sp,
        );
    }
    let r = call_remove::store_remove(
        parent, depth, len, run, words, node, start, end, id, stamp, touched, write, pin_node,
        pin_start, pin_end, pin_count, marks, bytes, books, list, s, sp,
    );
    match r {
        StoreRemoved::Refused(n) => StoreRemoved::Refused(n),
        StoreRemoved::Done(a) => {
            pool_sums::add_remove(sums, s, a.blocks);
            StoreRemoved::Done(a)
        }
    }
}
