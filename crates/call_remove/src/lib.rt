#![tactic(auto)]

ghost use Rattle.std.specs.Prelude.{◌≡◌, List, ℕ, ◌*◌, ◌≤◌, ◌<◌, length};
ghost use Rattle.model.specs.Sizes.{out_places};
ghost use Rattle.model.specs.State.{State};
ghost use Rattle.model.specs.Sound.{Sound, RangesLent};
ghost use Rattle.model.specs.Store.{Store, ranges};
ghost use Rattle.model.specs.Remove.{remove as removeOf};
ghost use Rattle.model.specs.Refusals.{first_of, store_remove_refusals};
ghost use Rattle.model.specs.Calls.{store_remove};
ghost use Rattle.shape_state.specs.Lent.{ranges_of};
ghost use Rattle.pool_range.specs.Lent.{seen};
ghost use Rattle.pool_range.specs.Part.{Sized};
ghost use Rattle.pool_part.specs.Parts.{mid};
ghost use Rattle.shape_answer.specs.Answers.{state_from, outcome, store_removed_of};
ghost use Rattle.rule_overlap.specs.Overlap.{Ordered, RemoveFits};
ghost use Rattle.rule_remove.specs.Remove.{Freed};
ghost use Rattle.call_remove.specs.Pool.{Seen, Placed, NeedsAt, FitsAt, PoolReady, FreedAt};

use model::{RemoveAnswer, Span};
use pool_range::{RangesMut, RangesRef};
use rule_remove::Removing;
use shape_answer::StoreRemoved;

// How many records the removal of a span from store s needs.
fn need_at(ranges: RangesRef, s: usize, n: usize, sp: Span) -> usize
    requires { Placed s n ranges.node.now ranges.start.now ranges.end.now × RangesLent (seen ranges) }
    ensures { NeedsAt s n ranges.entry.node.now ranges.entry.start.now ranges.entry.end.now sp result }
{
    let a = 128 * s;
    let e = a + 128;
    let part = RangesRef {
        node: &ranges.node[a..e],
        start: &ranges.start[a..e],
        end: &ranges.end[a..e],
        id: &ranges.id[a..e],
        stamp: &ranges.stamp[a..e],
        touched: &ranges.touched[a..e],
        write: &ranges.write[a..e],
    };
    rule_overlap::remove_need(part, n, sp)
}

// What a removal from a store of a sound state is refused for, the list long enough: 4, 8, 11 or nothing, 0.
fn refusal(
    len: &[usize],
    ranges: RangesRef,
    nodes: usize,
    next: u64,
    s: usize,
    n: usize,
    sp: Span,
) -> u8
    requires { (st : State) × Seen len.now (seen ranges) nodes next s n st }
    ensures value { (st : State) (l : List ℕ)
        → Seen len.now (seen ranges.entry) nodes next s n st
        → out_places ≤ length l
        → result ≡ first_of (store_remove_refusals st l s sp) }
    ensures fits_at { result ≡ 0 → FitsAt s n ranges.entry.node.now ranges.entry.start.now ranges.entry.end.now sp }
{
    if !test_arguments::span_in(len, nodes, sp) {
        return 4;
    }
    let need = need_at(ranges, s, n, sp);
    test_arguments::need_number(n, need, 0, 0, next)
}

// The span taken out of store s, of which the parts are lent.
fn remove_part(
    node: &mut [usize],
    start: &mut [usize],
    end: &mut [usize],
    id: &mut [u64],
    stamp: &mut [u64],
    touched: &mut [f64],
    write: &mut [u32],
    marks: &mut [usize],
    list: &mut [u32],
    n: usize,
    sp: Span,
    next: u64,
) -> Removing
    requires n_bound { (n ≤ 128)
        × Sized 128 (ranges_of node.old start.old end.old id.old stamp.old touched.old write.old)
        × Ordered node.old start.old end.old n }
    requires start_lt_end { (sp.start < sp.end) × (sp.end ≤ 1024) × (sp.node < length marks.old) × (128 ≤ length list.old) }
    requires remove_fits { RemoveFits node.old start.old end.old n sp }
    ensures { (x : Store)
        → x.ranges
        ≡ ranges
        (ranges_of node.old start.old end.old id.old stamp.old touched.old
        write.old)
        0 n
        → x.marks ≡ marks.old
        → Freed (removeOf x next sp)
        (ranges_of node.old start.old end.old id.old stamp.old touched.old
        write.old)
        (ranges_of node.new start.new end.new id.new stamp.new touched.new write.new)
        marks.new list.old list.new n result }
{
    let mut part = RangesMut {
        node,
        start,
        end,
        id,
        stamp,
        touched,
        write,
    };
    rule_remove::store_remove(&mut part, marks, list, n, sp, next)
}

// The span taken out of the parts of store s, of the whole pools. The parts are lent column by column, since a slice of a slice put in a struct is lost to
// the check.
fn remove_pools(
    node: &mut [usize],
    start: &mut [usize],
    end: &mut [usize],
    id: &mut [u64],
    stamp: &mut [u64],
    touched: &mut [f64],
    write: &mut [u32],
    marks: &mut [usize],
    list: &mut [u32],
    s: usize,
    n: usize,
    sp: Span,
    next: u64,
) -> Removing
    requires { PoolReady s n sp (ranges_of node.old start.old end.old id.old stamp.old touched.old write.old) marks.old list.old }
    ensures { (x : Store)
        → x.ranges
        ≡ ranges
        (ranges_of node.old start.old end.old id.old stamp.old touched.old
        write.old)
        (128 * s) n
        → x.marks ≡ mid (256 * s) 256 marks.old
        → FreedAt s n (removeOf x next sp)
        (ranges_of node.old start.old end.old id.old stamp.old touched.old
        write.old)
        marks.old list.old
        (ranges_of node.new start.new end.new id.new stamp.new touched.new write.new)
        marks.new list.new result }
{
    let a = 128 * s;
    let e = a + 128;
    let b = 256 * s;
    let f = b + 256;
    remove_part(
        &mut node[a..e],
        &mut start[a..e],
        &mut end[a..e],
        &mut id[a..e],
        &mut stamp[a..e],
        &mut touched[a..e],
        &mut write[a..e],
        &mut marks[b..f],
        list,
        n,
        sp,
        next,
    )
}

// A span taken out of store s of a sound state, pinned or not; the writes of the ranges that it overlapped are listed.
pub fn store_remove(
    parent: &[usize],
    depth: &[usize],
    len: &[usize],
    run: &[usize],
    words: &[u64],
    node: &mut [usize],
    start: &mut [usize],
    end: &mut [usize],
    id: &mut [u64],
    stamp: &mut [u64],
    touched: &mut [f64],
    write: &mut [u32],
    pin_node: &[usize],
    pin_start: &[usize],
    pin_end: &[usize],
    pin_count: &[u64],
    marks: &mut [usize],
    bytes: &[u64],
    books: &mut [u64],
    list: &mut [u32],
    s: usize,
    sp: Span,
) -> StoreRemoved
    requires { Sound
        (state_from parent.now depth.now len.now run.now words.now node.old start.old end.old id.old stamp.old touched.old write.old
        pin_node.now pin_start.now pin_end.now pin_count.now marks.old bytes.now books.old)
        × (out_places ≤ length list.old) }
    ensures { outcome
        (state_from parent.now depth.now len.now run.now words.now node.new
        start.new end.new id.new stamp.new touched.new write.new pin_node.now
        pin_start.now pin_end.now pin_count.now marks.new bytes.now
        books.new)
        list.new (store_removed_of result)
        ≡ store_remove
        (state_from parent.now depth.now len.now run.now words.now node.old
        start.old end.old id.old stamp.old touched.old write.old
        pin_node.now pin_start.now pin_end.now pin_count.now marks.old
        bytes.now books.old)
        list.old s sp }
{
    let stores = books[2] as usize;
    if stores <= s {
        return StoreRemoved::Refused(2);
    }
    let nodes = books[0] as usize;
    let next = books[3];
    let stalls = books[4];
    let mut b = pool_book::book_of(books, s);
    let n = b.records;
    let ranges = RangesRef {
        node,
        start,
        end,
        id,
        stamp,
        touched,
        write,
    };
    let number = refusal(len, ranges, nodes, next, s, n, sp);
    if number != 0 {
        return StoreRemoved::Refused(number);
    }
    let r = remove_pools(
        node, start, end, id, stamp, touched, write, marks, list, s, n, sp, next,
    );
    b.records = r.n;
    b.held -= r.removed;
    b.version = pool_book::version_past(r.removed, b.version);
    pool_book::put_book(books, s, b);
    pool_book::put_next(books, next + r.need as u64, stalls);
    StoreRemoved::Done(RemoveAnswer {
        writes: r.writes as u64,
        blocks: r.removed,
    })
}
