#![tactic(auto)]

ghost use Rattle.std.specs.Prelude.{◌≡◌, List, ℕ, ◌+◌, ◌*◌, ◌≤◌, ◌<◌, eqb, length};
ghost use Rattle.model.specs.Sizes.{max_stores, max_numbers, max_stamp};
ghost use Rattle.model.specs.State.{Tree, stores_in};
ghost use Rattle.model.specs.Sound.{RangesLent};
ghost use Rattle.model.specs.Store.{Store, ranges};
ghost use Rattle.model.specs.Touch.{touch as touch_of};
ghost use Rattle.model.specs.Refusals.{span_in};
ghost use Rattle.shape_state.specs.Lent.{ranges_of};
ghost use Rattle.pool_range.specs.Lent.{seen};
ghost use Rattle.pool_range.specs.Part.{Sized};
ghost use Rattle.pool_part.specs.Parts.{mid};
ghost use Rattle.rule_resolve.specs.Span.{Priced};
ghost use Rattle.rule_overlap.specs.Overlap.{Ordered, TouchFits};
ghost use Rattle.rule_touch.specs.Touch.{Touching};
ghost use Rattle.call_touch_span.specs.Turn.{Others, whole, first_number, Fresh, Begun, four, looked, Placed, Judged, PoolReady, TouchedAt, kept_old};
ghost use Rattle.call_touch_span.specs.Turn.{books_with, run_on, RunAt, RunReady, Ran, TurnAt, Ready, Turned, Writes, Finished};

use model::{Span, TouchAnswer};
use pool_range::{RangesMut, RangesRef};
use pool_undo::Old;
use rule_touch::Used;
use shape_answer::StoreUsed;

// What a touch changes of the small numbers, between two of its spans: the store's records and stamp and the next id; the bytes read;
// and the refusal's number, 0 for none.
#[derive(Clone, Copy)]
pub struct Run {
    pub n: usize,
    pub top: u64,
    pub next: u64,
    pub sum: u64,
    pub number: u8,
}

// A touch between two of its spans: how many nodes there are, whether the store refreshes, what the turns so far left, the store's part before the first
// of them, the store, the time, whether reads are counted, and how many turns there were.
#[derive(Clone, Copy)]
pub struct Turn {
    pub nodes: usize,
    pub refreshes: bool,
    pub run: Run,
    pub old: Old,
    pub s: usize,
    pub time: f64,
    pub counted: bool,
    pub turns: usize,
}

// ---- before the turns

// 2, 3 or 5, before any span is looked at.
pub fn first_number(stores: usize, s: usize, n: usize, time: f64) -> u8
    ensures { result ≡ first_number stores s n time }
{
    if stores <= s {
        2
    } else if 64 < n {
        3
    } else if test_arguments::finite(time) {
        0
    } else {
        5
    }
}

// A touch of store s before its first turn, with nothing kept.
pub fn fresh(nodes: usize, refreshes: bool, run: Run, s: usize, time: f64, counted: bool) -> Turn
    ensures { Fresh nodes refreshes run s time counted result }
{
    let old = Old {
        node: [0; 128],
        start: [0; 128],
        end: [0; 128],
        id: [0; 128],
        stamp: [0; 128],
        touched: [0.0; 128],
        write: [0; 128],
        marks: [0; 256],
    };
    Turn {
        nodes,
        refreshes,
        run,
        old,
        s,
        time,
        counted,
        turns: 0,
    }
}

// A touch of store s with n spans, before the first. One that is refused reads nothing of the store.
pub fn begin(books: &[u64], s: usize, n: usize, time: f64, counted: bool) -> Turn
    requires { (max_numbers ≤ length books.now) × (stores_in books.now ≤ max_stores) }
    ensures { Begun books.now s n time counted result }
{
    let nodes = books[0] as usize;
    let stores = books[2] as usize;
    let number = first_number(stores, s, n, time);
    if number != 0 {
        let none = Run {
            n: 0,
            top: 0,
            next: 0,
            sum: 0,
            number,
        };
        return fresh(nodes, false, none, s, time, counted);
    }
    let b = pool_book::book_of(books, s);
    let run = Run {
        n: b.records,
        top: b.stamp,
        next: books[3],
        sum: 0,
        number: 0,
    };
    fresh(nodes, b.policy == 1, run, s, time, counted)
}

// 4 goes before 5, and behind 2 and 3.
pub fn four_first(n: u8) -> u8
    ensures { result ≡ four n }
{
    match n {
        0 | 5 => 4,
        _ => n,
    }
}

// One span looked at: 4, unless it is one of the tree.
pub fn check_one(sp: Span, len: &[usize], y: Turn) -> Turn
    requires { y.nodes ≤ length len.now }
    ensures { (t : Tree) → t.len ≡ len.now → t.nodes ≡ y.nodes → result ≡ looked (span_in t sp) y }
{
    if test_arguments::span_in(len, y.nodes, sp) {
        return y;
    }
    Turn {
        run: Run {
            number: four_first(y.run.number),
            ..y.run
        },
        ..y
    }
}

// ---- one turn

// What is kept of the part: before the first turn what it is, and later what was kept then.
fn keep_first(
    node: &[usize],
    start: &[usize],
    end: &[usize],
    id: &[u64],
    stamp: &[u64],
    touched: &[f64],
    write: &[u32],
    marks: &[usize],
    y: Turn,
) -> Old
    requires { (y.s < 8) × RangesLent (ranges_of node.now start.now end.now id.now stamp.now touched.now write.now) × (2048 ≤ length marks.now) }
    ensures { result
        ≡ kept_old y.turns y.old y.s
        (ranges_of node.now start.now end.now id.now stamp.now touched.now
        write.now)
        marks.now }
{
    if y.turns == 0 {
        pool_undo::keep(node, start, end, id, stamp, touched, write, marks, y.s)
    } else {
        y.old
    }
}

// What a turn is refused for: 8, 11 or nothing, 0.
fn turn_number(
    ranges: RangesRef,
    s: usize,
    n: usize,
    sp: Span,
    refreshes: bool,
    top: u64,
    next: u64,
) -> u8
    requires lent { RangesLent (seen ranges) }
    requires placed { Placed s n ranges.node.now ranges.start.now ranges.end.now × (n ≤ 128) × (top ≤ max_stamp) × (next ≤ max_stamp) }
    ensures { Judged s n ranges.entry.node.now ranges.entry.start.now ranges.entry.end.now sp refreshes top next result }
{
    let a = 128 * s;
    let e = a + 128;
    let part = RangesRef {
        node: &ranges.node[a..e],
        start: &ranges.start[a..e],
        end: &ranges.end[a..e],
        id: &ranges.id[a..e],
        stamp: &ranges.stamp[a..e],
        touched: &ranges.touched[a..e],
        write: &ranges.write[a..e],
    };
    let w = rule_overlap::touch_need(part, n, sp, refreshes);
    test_arguments::need_number(n, w.records, top, w.stamps, next)
}

// The span touched in store s, of which the parts are lent.
fn touch_part(
    depth: &[usize],
    node: &mut [usize],
    start: &mut [usize],
    end: &mut [usize],
    id: &mut [u64],
    stamp: &mut [u64],
    touched: &mut [f64],
    write: &mut [u32],
    marks: &mut [usize],
    bytes: &[u64],
    n: usize,
    sp: Span,
    time: f64,
    counted: bool,
    refreshes: bool,
    top: u64,
    next: u64,
) -> Used
    requires n_bound { (n ≤ 128)
        × Sized 128 (ranges_of node.old start.old end.old id.old stamp.old touched.old write.old)
        × Ordered node.old start.old end.old n }
    requires start_lt_end { (sp.start < sp.end) × (sp.node < length marks.old) × Priced depth.now bytes.now sp }
    requires touch_fits { TouchFits node.old start.old end.old n sp refreshes top next }
    ensures { (t : Tree) (x : Store)
        → t.depth ≡ depth.now
        → x.ranges
        ≡ ranges
        (ranges_of node.old start.old end.old id.old stamp.old touched.old
        write.old)
        0 n
        → x.book.stamp ≡ top
        → eqb x.book.policy 1 ≡ refreshes
        → x.marks ≡ marks.old
        → Touching (touch_of t bytes.now x next sp time counted)
        (ranges_of node.old start.old end.old id.old stamp.old touched.old
        write.old)
        (ranges_of node.new start.new end.new id.new stamp.new touched.new write.new)
        marks.new n result }
{
    let mut part = RangesMut {
        node,
        start,
        end,
        id,
        stamp,
        touched,
        write,
    };
    rule_touch::store_used(
        depth, &mut part, marks, bytes, n, sp, time, counted, refreshes, top, next,
    )
}

// The span touched in the parts of store s, of the whole pools. The parts are lent column by column, since a slice of a slice put in a struct is lost to
// the check.
fn touch_pools(
    depth: &[usize],
    node: &mut [usize],
    start: &mut [usize],
    end: &mut [usize],
    id: &mut [u64],
    stamp: &mut [u64],
    touched: &mut [f64],
    write: &mut [u32],
    marks: &mut [usize],
    bytes: &[u64],
    s: usize,
    n: usize,
    sp: Span,
    time: f64,
    counted: bool,
    refreshes: bool,
    top: u64,
    next: u64,
) -> Used
    requires { PoolReady depth.now bytes.now s n (ranges_of node.old start.old end.old id.old stamp.old touched.old write.old) marks.old sp
        refreshes top next }
    ensures { (t : Tree) (x : Store)
        → t.depth ≡ depth.now
        → x.ranges
        ≡ ranges
        (ranges_of node.old start.old end.old id.old stamp.old touched.old
        write.old)
        (128 * s) n
        → x.book.stamp ≡ top
        → eqb x.book.policy 1 ≡ refreshes
        → x.marks ≡ mid (256 * s) 256 marks.old
        → TouchedAt s (touch_of t bytes.now x next sp time counted) n
        (ranges_of node.old start.old end.old id.old stamp.old touched.old
        write.old)
        marks.old
        (ranges_of node.new start.new end.new id.new stamp.new touched.new write.new)
        marks.new result }
{
    let a = 128 * s;
    let e = a + 128;
    let b = 256 * s;
    let f = b + 256;
    touch_part(
        depth,
        &mut node[a..e],
        &mut start[a..e],
        &mut end[a..e],
        &mut id[a..e],
        &mut stamp[a..e],
        &mut touched[a..e],
        &mut write[a..e],
        &mut marks[b..f],
        bytes,
        n,
        sp,
        time,
        counted,
        refreshes,
        top,
        next,
    )
}

// The numbers after a taken turn.
fn run_on(y: Run, w: Used) -> Run
    requires { (y.top + w.stamps ≤ max_stamp) × (y.next + w.need ≤ max_stamp) × (y.sum + w.bytes < 18446744073709551616) }
    ensures { result ≡ run_on y w }
{
    Run {
        n: w.n,
        top: y.top + w.stamps,
        next: y.next + w.need as u64,
        sum: y.sum + w.bytes,
        number: 0,
    }
}

// One span at its turn, with no part kept: refused, 8 or 11, with nothing written; or taken.
pub fn one_turn(
    sp: Span,
    depth: &[usize],
    node: &mut [usize],
    start: &mut [usize],
    end: &mut [usize],
    id: &mut [u64],
    stamp: &mut [u64],
    touched: &mut [f64],
    write: &mut [u32],
    marks: &mut [usize],
    bytes: &[u64],
    s: usize,
    refreshes: bool,
    time: f64,
    counted: bool,
    y: Run,
) -> Run
    requires { RunReady sp depth.now bytes.now (ranges_of node.old start.old end.old id.old stamp.old touched.old write.old) marks.old s refreshes y }
    ensures { (o : Others) (x : List ℕ)
        → RunAt o x sp depth.now bytes.now
        (ranges_of node.old start.old end.old id.old stamp.old touched.old
        write.old)
        marks.old s refreshes y
        → Ran sp s time counted
        (whole o depth.now bytes.now
        (ranges_of node.old start.old end.old id.old stamp.old touched.old
        write.old)
        marks.old x)
        y
        (whole o depth.now bytes.now
        (ranges_of node.new start.new end.new id.new stamp.new touched.new
        write.new)
        marks.new (books_with s result x))
        result }
{
    let ranges = RangesRef {
        node,
        start,
        end,
        id,
        stamp,
        touched,
        write,
    };
    let number = turn_number(ranges, s, y.n, sp, refreshes, y.top, y.next);
    if number != 0 {
        return Run { number, ..y };
    }
    let used = touch_pools(
        depth, node, start, end, id, stamp, touched, write, marks, bytes, s, y.n, sp, time,
        counted, refreshes, y.top, y.next,
    );
    run_on(y, used)
}

// ---- a turn of a touch that keeps the store's part

// One span of a touch, at its turn: nothing once a turn was refused; refused, 8 or 11, with what the earlier turns changed put back; or taken.
pub fn one(
    sp: Span,
    depth: &[usize],
    node: &mut [usize],
    start: &mut [usize],
    end: &mut [usize],
    id: &mut [u64],
    stamp: &mut [u64],
    touched: &mut [f64],
    write: &mut [u32],
    marks: &mut [usize],
    bytes: &[u64],
    y: Turn,
) -> Turn
    requires { Ready sp depth.now bytes.now (ranges_of node.old start.old end.old id.old stamp.old touched.old write.old) marks.old y }
    ensures { (o : Others) (x : List ℕ)
        → (y.run.number ≡ 0
        → TurnAt o x sp depth.now bytes.now
        (ranges_of node.old start.old end.old id.old stamp.old touched.old
        write.old)
        marks.old y)
        → Turned sp
        (whole o depth.now bytes.now
        (ranges_of node.old start.old end.old id.old stamp.old touched.old
        write.old)
        marks.old x)
        y
        (whole o depth.now bytes.now
        (ranges_of node.new start.new end.new id.new stamp.new touched.new
        write.new)
        marks.new (books_with y.s result.run x))
        result }
{
    if y.run.number != 0 {
        return y;
    }
    let s = y.s;
    let old = keep_first(node, start, end, id, stamp, touched, write, marks, y);
    let run = one_turn(
        sp,
        depth,
        node,
        start,
        end,
        id,
        stamp,
        touched,
        write,
        marks,
        bytes,
        s,
        y.refreshes,
        y.time,
        y.counted,
        y.run,
    );
    if run.number != 0 {
        pool_undo::undo(node, start, end, id, stamp, touched, write, marks, s, old);
    }
    Turn {
        run,
        old,
        turns: y.turns + 1,
        ..y
    }
}

// ---- after the turns

// The numbers of a run of store s, and nothing else, written to the small numbers.
pub fn put_run(books: &mut [u64], s: usize, y: Run)
    requires { (s < max_stores) × (max_numbers ≤ length books.old) }
    ensures { books.new ≡ books_with s y books.old }
{
    let mut b = pool_book::book_of(books, s);
    b.records = y.n;
    b.stamp = y.top;
    let stalls = books[4];
    pool_book::put_book(books, s, b);
    pool_book::put_next(books, y.next, stalls);
}

// The answer, with the numbers written where nothing was refused.
pub fn finish(books: &mut [u64], y: Turn) -> StoreUsed
    requires { Writes books.old y }
    ensures { Finished books.old y books.new result }
{
    let run = y.run;
    if run.number != 0 {
        return StoreUsed::Refused(run.number);
    }
    put_run(books, y.s, run);
    StoreUsed::Done(TouchAnswer { bytes: run.sum })
}
