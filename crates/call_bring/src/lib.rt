#![tactic(auto)]
// A span brought into a store, on a sound state: every test, then the store is lent its part, and the small numbers follow.
ghost use Rattle.std.specs.Prelude.{◌≡◌, [], ◌∷◌, ◌+◌, ◌*◌, ◌≤◌, ◌<◌, length};
ghost use Rattle.model.specs.Sizes.{max_stores, max_numbers};
ghost use Rattle.model.specs.State.{next_id_in, State, stores_of};
ghost use Rattle.model.specs.Trim.{stalls_after};
ghost use Rattle.model.specs.Refusals.{OutFits, first_of};
ghost use Rattle.model.specs.Calls.{lay_outs, store_insert};
ghost use Rattle.rule_resolve.specs.Span.{Priced, only_depth};
ghost use Rattle.shape_answer.specs.Lists.{out_list};
ghost use Rattle.pool_range.specs.Lent.{seen};
ghost use Rattle.pool_out.specs.Outs.{listed, SameOuts};
ghost use Rattle.call_bring.specs.Settled.{settled, whole};
ghost use Rattle.model.specs.Store.{ranges as rangesOf};
ghost use Rattle.model.specs.Sound.{Sound, RangesLent};
ghost use Rattle.model.specs.Bring.{gaps as gapsBetween};
ghost use Rattle.rule_fill.specs.Gaps.{gaps_of};
ghost use Rattle.shape_answer.specs.Answers.{state_from, outcome, store_inserted_of};
ghost use Rattle.call_bring.specs.Keep.{argument_refusals};

use model::{Book, BringAnswer, Span};
use pool_out::{Evicted, OutsMut, WriteId};
use pool_range::RangesRef;
use rule_fill::{Fresh, Gaps};
use rule_trim::Trimming;
use shape_answer::StoreInserted;
use shape_state::PinsRef;

// One stall more, up to 2^48.
fn stalls_after(stalled: bool, stalls: u64) -> u64
    ensures { result ≡ stalls_after stalled stalls }
{
    if stalled {
        stalls.saturating_add(1).min(281474976710656)
    } else {
        stalls
    }
}

// The small numbers after store s, whose own were b, was trimmed; `need` is how many stamps and ids were given.
pub fn settle(books: &mut [u64], s: usize, b: Book, need: usize, t: Trimming)
    requires { (s < max_stores) × (max_numbers ≤ length books.old) × (need ≤ 128)
        × (b.stamp ≤ 281474976710656) × (next_id_in books.old ≤ 281474976710656) }
    ensures { books.new ≡ settled s b need t.n t.held t.version t.stalled books.old }
{
    let given = need as u64;
    let next = books[3] + given;
    let stalls = stalls_after(t.stalled, books[4]);
    let after = Book {
        records: t.n,
        held: t.held,
        stamp: b.stamp + given,
        version: t.version,
        ..b
    };
    pool_book::put_book(&mut *books, s, after);
    pool_book::put_next(books, next, stalls);
}

// With capacity 0 the whole span is given out at once.
pub fn give_back(depth: &[usize], bytes: &[u64], outs: &mut OutsMut, sp: Span, w: u32)
    requires { Priced depth.now bytes.now sp × OutFits (listed outs.old) }
    ensures same { SameOuts outs.old outs.new }
    ensures given { listed outs.new ≡ lay_outs (whole (only_depth depth.now) bytes.now sp w ∷ []) (listed outs.old) }
{
    let given = Evicted {
        span: sp,
        write: WriteId::from(w),
        bytes: rule_resolve::span_bytes(depth, bytes, sp),
        dead: 0,
    };
    outs.put(0, given);
}

// What the arguments are refused for: 2, 4, 5 or nothing, 0.
fn argument_refusal(len: &[usize], nodes: usize, stores: usize, s: usize, sp: Span, time: f64) -> u8
    requires { nodes ≤ length len.now }
    ensures { (st : State)
        → st.tree.len ≡ len.now
        → st.tree.nodes ≡ nodes
        → stores_of st ≡ stores
        → result ≡ first_of (argument_refusals st s sp time) }
{
    if stores <= s {
        return 2;
    }
    if !test_arguments::span_in(len, nodes, sp) {
        return 4;
    }
    if !test_arguments::finite(time) {
        return 5;
    }
    0
}

// The gaps of a span in store s, which has n records: its part of each column is lent on.
fn gaps_of(ranges: RangesRef, s: usize, n: usize, sp: Span) -> Gaps
    requires { (s < 8) × (n ≤ 128) × RangesLent (seen ranges) }
    ensures few { result.n ≤ 129 }
    ensures gaps { gaps_of result ≡ gapsBetween sp.node (rangesOf (seen ranges.entry) (128 * s) n) sp.start sp.end }
{
    let a = 128 * s;
    let e = a + 128;
    let part = RangesRef {
        node: &ranges.node[a..e],
        start: &ranges.start[a..e],
        end: &ranges.end[a..e],
        id: &ranges.id[a..e],
        stamp: &ranges.stamp[a..e],
        touched: &ranges.touched[a..e],
        write: &ranges.write[a..e],
    };
    rule_fill::store_missing(part, n, sp)
}

// A span brought into store s: the number of spans given out and the blocks of the gaps, or a refusal.
pub fn store_insert(
    parent: &[usize],
    depth: &[usize],
    len: &[usize],
    run: &[usize],
    words: &[u64],
    node: &mut [usize],
    start: &mut [usize],
    end: &mut [usize],
    id: &mut [u64],
    stamp: &mut [u64],
    touched: &mut [f64],
    write: &mut [u32],
    pin_node: &[usize],
    pin_start: &[usize],
    pin_end: &[usize],
    pin_count: &[u64],
    marks: &mut [usize],
    bytes: &[u64],
    books: &mut [u64],
    out_node: &mut [usize],
    out_start: &mut [usize],
    out_end: &mut [usize],
    out_write: &mut [u32],
    out_bytes: &mut [u64],
    out_dead: &mut [u64],
    s: usize,
    sp: Span,
    time: f64,
    w: u32,
) -> StoreInserted
    requires { Sound
        (state_from parent.now depth.now len.now run.now words.now node.old start.old end.old id.old stamp.old touched.old write.old
        pin_node.now pin_start.now pin_end.now pin_count.now marks.old bytes.now books.old)
        × OutFits (out_list out_node.old out_start.old out_end.old out_write.old out_bytes.old out_dead.old) }
    ensures { outcome
        (state_from parent.now depth.now len.now run.now words.now node.new
        start.new end.new id.new stamp.new touched.new write.new pin_node.now
        pin_start.now pin_end.now pin_count.now marks.new bytes.now
        books.new)
        (out_list out_node.new out_start.new out_end.new out_write.new out_bytes.new
        out_dead.new)
        (store_inserted_of result)
        ≡ store_insert
        (state_from parent.now depth.now len.now run.now words.now node.old
        start.old end.old id.old stamp.old touched.old write.old
        pin_node.now pin_start.now pin_end.now pin_count.now marks.old
        bytes.now books.old)
        (out_list out_node.old out_start.old out_end.old out_write.old
        out_bytes.old out_dead.old)
        s sp time w }
{
    let nodes = books[0] as usize;
    let stores = books[2] as usize;
    let number = argument_refusal(len, nodes, stores, s, sp, time);
    if 0 < number {
        return StoreInserted::Refused(number);
    }
    let b = pool_book::book_of(books, s);
    let mut outs = OutsMut {
        node: out_node,
        start: out_start,
        end: out_end,
        write: out_write,
        bytes: out_bytes,
        dead: out_dead,
    };
    if b.capacity == 0 {
        give_back(depth, bytes, &mut outs, sp, w);
        return StoreInserted::Done(BringAnswer { outs: 1, blocks: 0 });
    }
    let next = books[3];
    let ranges = RangesRef {
        node: &*node,
        start: &*start,
        end: &*end,
        id: &*id,
        stamp: &*stamp,
        touched: &*touched,
        write: &*write,
    };
    let gaps = gaps_of(ranges, s, b.records, sp);
    let need = gaps.count();
    let lack = test_arguments::need_number(b.records, need, b.stamp, need as u64, next);
    if 0 < lack {
        return StoreInserted::Refused(lack);
    }
    let blocks = gaps.blocks();
    let pins = PinsRef {
        node: pin_node,
        start: pin_start,
        end: pin_end,
        count: pin_count,
    };
    let fresh = Fresh {
        node: sp.node,
        stamp: b.stamp,
        id: next,
        time,
        write: w,
    };
    let held = b.held + blocks;
    let t = rule_bring::bring_pools(
        depth, node, start, end, id, stamp, touched, write, pins, marks, bytes, &mut outs, s,
        b.records, b.entries, held, b.capacity, b.version, &gaps, fresh,
    );
    settle(books, s, b, need, t);
    StoreInserted::Done(BringAnswer {
        outs: t.outs as u64,
        blocks,
    })
}
