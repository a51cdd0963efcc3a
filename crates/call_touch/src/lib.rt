#![tactic(auto)]

ghost use Rattle.std.specs.Prelude.{◌≡◌, List, ℕ, ◌≤◌, length, take};
ghost use Rattle.model.specs.Sizes.{max_numbers};
ghost use Rattle.model.specs.Words.{any};
ghost use Rattle.model.specs.State.{Tree};
ghost use Rattle.model.specs.Sound.{Sound};
ghost use Rattle.model.specs.Calls.{store_used};
ghost use Rattle.shape_state.specs.Lent.{ranges_of};
ghost use Rattle.call_touch_span.specs.Turn.{Others, whole, first_number, books_with};
ghost use Rattle.call_touch.specs.Looking.{bad, refused_by, Looks};
ghost use Rattle.call_touch.specs.Going.{AtFirst, Turns};
ghost use Rattle.call_touch.specs.Running.{Starts, CanStart, Went, Outcomes};
ghost use Rattle.shape_answer.specs.Answers.{state_from, outcome, store_used_of};

use call_touch_span::{Run, Turn};
use model::{Span, TouchAnswer};
use shape_answer::StoreUsed;

// The spans of a lent list, one call for each, before the first turn: 4 if one of them is not one of the tree.
pub fn look_spans(spans: &[Span], len: &[usize], x: Turn) -> Turn
    requires { x.nodes ≤ length len.now }
    ensures { Looks spans.now len.now x (length spans.now) result }
{
    let mut y = x;
    for &sp in spans {
        y = call_touch_span::check_one(sp, len, y);
    }
    y
}

// The spans of a lent list, in turn: one call for each. Once a turn was refused the rest do nothing, and the pools are as they were before the first.
pub fn touch_spans(
    spans: &[Span],
    depth: &[usize],
    node: &mut [usize],
    start: &mut [usize],
    end: &mut [usize],
    id: &mut [u64],
    stamp: &mut [u64],
    touched: &mut [f64],
    write: &mut [u32],
    marks: &mut [usize],
    bytes: &[u64],
    x: Turn,
) -> Turn
    requires { AtFirst spans.now depth.now bytes.now (ranges_of node.old start.old end.old id.old stamp.old touched.old write.old) marks.old x }
    ensures { Turns spans.now depth.now bytes.now
        (ranges_of node.old start.old end.old id.old stamp.old touched.old
        write.old)
        marks.old x (length spans.now)
        (ranges_of node.new start.new end.new id.new stamp.new touched.new write.new)
        marks.new result }
{
    let mut y = x;
    for &sp in spans {
        y = call_touch_span::one(
            sp, depth, node, start, end, id, stamp, touched, write, marks, bytes, y,
        );
    }
    y
}

// 2, 3, 4 or 5, before any turn of the first `count` spans, or 0.
fn first_refusal(
    len: &[usize],
    nodes: usize,
    stores: usize,
    s: usize,
    spans: [Span; 64],
    count: usize,
    time: f64,
) -> u8
    requires { (nodes ≤ length len.now) × (count ≤ 64) }
    ensures { (t : Tree)
        → t.len ≡ len.now
        → t.nodes ≡ nodes
        → result ≡ refused_by (any (length (take count spans)) (bad t (take count spans))) (first_number stores s (length (take count spans)) time) }
{
    let first = call_touch_span::first_number(stores, s, count, time);
    for &sp in &spans[..count] {
        if !test_arguments::span_in(len, nodes, sp) {
            return call_touch_span::four_first(first);
        }
    }
    first
}

// The first `count` spans in turn, up to the first that is refused. That one writes nothing; what the earlier ones wrote stands.
fn take_turns(
    depth: &[usize],
    node: &mut [usize],
    start: &mut [usize],
    end: &mut [usize],
    id: &mut [u64],
    stamp: &mut [u64],
    touched: &mut [f64],
    write: &mut [u32],
    marks: &mut [usize],
    bytes: &[u64],
    s: usize,
    refreshes: bool,
    spans: [Span; 64],
    count: usize,
    time: f64,
    counted: bool,
    y: Run,
) -> Run
    requires { CanStart (take count spans) depth.now bytes.now (ranges_of node.old start.old end.old id.old stamp.old touched.old write.old)
        marks.old s refreshes time counted y
        × (count ≤ 64) }
    ensures { (o : Others) (x : List ℕ)
        → Starts o x (take count spans) depth.now bytes.now
        (ranges_of node.old start.old end.old id.old stamp.old touched.old
        write.old)
        marks.old s refreshes time counted y
        → Went
        (whole o depth.now bytes.now
        (ranges_of node.old start.old end.old id.old stamp.old touched.old
        write.old)
        marks.old x)
        s (take count spans) time counted
        (whole o depth.now bytes.now
        (ranges_of node.new start.new end.new id.new stamp.new touched.new
        write.new)
        marks.new (books_with s result x))
        result }
{
    let mut z = y;
    for &sp in &spans[..count] {
        z = call_touch_span::one_turn(
            sp, depth, node, start, end, id, stamp, touched, write, marks, bytes, s, refreshes,
            time, counted, z,
        );
        if z.number != 0 {
            return z;
        }
    }
    z
}

// The turns where one may be refused: the store's part is kept, and put back then.
fn touch_kept(
    depth: &[usize],
    node: &mut [usize],
    start: &mut [usize],
    end: &mut [usize],
    id: &mut [u64],
    stamp: &mut [u64],
    touched: &mut [f64],
    write: &mut [u32],
    marks: &mut [usize],
    bytes: &[u64],
    books: &mut [u64],
    s: usize,
    refreshes: bool,
    spans: [Span; 64],
    count: usize,
    time: f64,
    counted: bool,
    y: Run,
) -> StoreUsed
    requires { CanStart (take count spans) depth.now bytes.now (ranges_of node.old start.old end.old id.old stamp.old touched.old write.old)
        marks.old s refreshes time counted y
        × (count ≤ 64)
        × (max_numbers ≤ length books.old) }
    ensures { (o : Others)
        → Starts o books.old (take count spans) depth.now bytes.now
        (ranges_of node.old start.old end.old id.old stamp.old touched.old
        write.old)
        marks.old s refreshes time counted y
        → Outcomes
        (whole o depth.now bytes.now
        (ranges_of node.old start.old end.old id.old stamp.old touched.old
        write.old)
        marks.old books.old)
        s (take count spans) time counted
        (whole o depth.now bytes.now
        (ranges_of node.new start.new end.new id.new stamp.new touched.new
        write.new)
        marks.new books.new)
        result }
{
    let old = pool_undo::keep(node, start, end, id, stamp, touched, write, marks, s);
    let z = take_turns(
        depth, node, start, end, id, stamp, touched, write, marks, bytes, s, refreshes, spans,
        count, time, counted, y,
    );
    if z.number != 0 {
        pool_undo::undo(node, start, end, id, stamp, touched, write, marks, s, old);
        return StoreUsed::Refused(z.number);
    }
    call_touch_span::put_run(books, s, z);
    StoreUsed::Done(TouchAnswer { bytes: z.sum })
}

// A touch of the first `count` spans of an array by value: for callers that have no slice of spans.
pub fn store_used_array(
    parent: &[usize],
    depth: &[usize],
    len: &[usize],
    run: &[usize],
    words: &[u64],
    node: &mut [usize],
    start: &mut [usize],
    end: &mut [usize],
    id: &mut [u64],
    stamp: &mut [u64],
    touched: &mut [f64],
    write: &mut [u32],
    pin_node: &[usize],
    pin_start: &[usize],
    pin_end: &[usize],
    pin_count: &[u64],
    marks: &mut [usize],
    bytes: &[u64],
    books: &mut [u64],
    s: usize,
    spans: [Span; 64],
    count: usize,
    time: f64,
    counted: bool,
) -> StoreUsed
    requires { Sound
        (state_from parent.now depth.now len.now run.now words.now node.old start.old end.old id.old stamp.old touched.old write.old
        pin_node.now pin_start.now pin_end.now pin_count.now marks.old bytes.now books.old)
        × (count ≤ 64) }
    ensures { outcome
        (state_from parent.now depth.now len.now run.now words.now node.new
        start.new end.new id.new stamp.new touched.new write.new pin_node.now
        pin_start.now pin_end.now pin_count.now marks.new bytes.now
        books.new)
        tt (store_used_of result)
        ≡ store_used
        (state_from parent.now depth.now len.now run.now words.now node.old
        start.old end.old id.old stamp.old touched.old write.old
        pin_node.now pin_start.now pin_end.now pin_count.now marks.old
        bytes.now books.old)
        s (take count spans) time counted }
{
    let nodes = books[0] as usize;
    let stores = books[2] as usize;
    let number = first_refusal(len, nodes, stores, s, spans, count, time);
    if number != 0 {
        return StoreUsed::Refused(number);
    }
    let b = pool_book::book_of(books, s);
    let refreshes = b.policy == 1;
    let y = Run {
        n: b.records,
        top: b.stamp,
        next: books[3],
        sum: 0,
        number: 0,
    };
    if !test_arguments::roomy(y.n, y.top, y.next, count) {
        return touch_kept(
            depth, node, start, end, id, stamp, touched, write, marks, bytes, books, s, refreshes,
            spans, count, time, counted, y,
        );
    }
    let z = take_turns(
        depth, node, start, end, id, stamp, touched, write, marks, bytes, s, refreshes, spans,
        count, time, counted, y,
    );
    call_touch_span::put_run(books, s, z);
    StoreUsed::Done(TouchAnswer { bytes: z.sum })
}
