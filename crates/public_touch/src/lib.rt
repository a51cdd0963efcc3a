#![tactic(auto)]
// The public touch, of a lent list of spans, or of the first ones of an array: the test for 1 and the tests that need no span, a pass that looks at the
// spans, a pass of turns, and the answer.
ghost use Rattle.std.specs.Prelude.{◌≡◌, ◌≤◌, min, take};
ghost use Rattle.model.specs.Calls.{store_used};
ghost use Rattle.shape_answer.specs.Answers.{state_from, outcome, store_used_of};

use model::Span;
use shape_answer::StoreUsed;

// Touches the spans in store s, in turn, and answers the bytes read; or refuses all of them.
pub fn store_used(
    parent: &[usize],
    depth: &[usize],
    len: &[usize],
    run: &[usize],
    words: &[u64],
    node: &mut [usize],
    start: &mut [usize],
    end: &mut [usize],
    id: &mut [u64],
    stamp: &mut [u64],
    touched: &mut [f64],
    write: &mut [u32],
    pin_node: &[usize],
    pin_start: &[usize],
    pin_end: &[usize],
    pin_count: &[u64],
    marks: &mut [usize],
    bytes: &[u64],
    books: &mut [u64],
    s: usize,
    spans: &[Span],
    time: f64,
    counted: bool,
) -> StoreUsed
    ensures { outcome
        (state_from parent.now depth.now len.now run.now words.now node.new
        start.new end.new id.new stamp.new touched.new write.new pin_node.now
        pin_start.now pin_end.now pin_count.now marks.new bytes.now
        books.new)
        tt (store_used_of result)
        ≡ store_used
        (state_from parent.now depth.now len.now run.now words.now node.old
        start.old end.old id.old stamp.old touched.old write.old
        pin_node.now pin_start.now pin_end.now pin_count.now marks.old
        bytes.now books.old)
        s spans.now time counted }
{
    let n = spans.len();
    let y = public_start::start_touch(
        parent, depth, len, run, words, node, start, end, id, stamp, touched, write, pin_node,
        pin_start, pin_end, pin_count, marks, bytes, books, s, n, time, counted,
    );
    let z = call_touch::look_spans(spans, len, y);
    let w = call_touch::touch_spans(
        spans, depth, node, start, end, id, stamp, touched, write, marks, bytes, z,
    );
    call_touch_span::finish(books, w)
}

// The public call on the first count of them.
fn first_used(
    parent: &[usize],
    depth: &[usize],
    len: &[usize],
    run: &[usize],
    words: &[u64],
    node: &mut [usize],
    start: &mut [usize],
    end: &mut [usize],
    id: &mut [u64],
    stamp: &mut [u64],
    touched: &mut [f64],
    write: &mut [u32],
    pin_node: &[usize],
    pin_start: &[usize],
    pin_end: &[usize],
    pin_count: &[u64],
    marks: &mut [usize],
    bytes: &[u64],
    books: &mut [u64],
    s: usize,
    spans: [Span; 65],
    count: usize,
    time: f64,
    counted: bool,
) -> StoreUsed
    requires { count ≤ 65 }
    ensures { let old = state_from parent.now depth.now len.now run.now words.now node.old
        start.old end.old id.old stamp.old touched.old write.old pin_node.now
        pin_start.now pin_end.now pin_count.now marks.old bytes.now books.old in
        let new = state_from parent.now depth.now len.now run.now words.now node.new
        start.new end.new id.new stamp.new touched.new write.new pin_node.now
        pin_start.now pin_end.now pin_count.now marks.new bytes.now books.new in
        outcome new tt (store_used_of result) ≡ store_used old s (take count spans) time counted }
{
    store_used(
        parent,
        depth,
        len,
        run,
        words,
        node,
        start,
        end,
        id,
        stamp,
        touched,
        write,
        pin_node,
        pin_start,
        pin_end,
        pin_count,
        marks,
        bytes,
        books,
        s,
        &spans[..count],
        time,
        counted,
    )
}

// At most all 65.
fn within(count: usize) -> usize
    ensures { result ≡ min count 65 }
{
    if 65 < count {
        return 65;
    }
    count
}

// Touches the first count spans, or all where count is more, in store s, in turn, and answers the bytes read; or refuses all of them.
pub fn store_used_array(
    parent: &[usize],
    depth: &[usize],
    len: &[usize],
    run: &[usize],
    words: &[u64],
    node: &mut [usize],
    start: &mut [usize],
    end: &mut [usize],
    id: &mut [u64],
    stamp: &mut [u64],
    touched: &mut [f64],
    write: &mut [u32],
    pin_node: &[usize],
    pin_start: &[usize],
    pin_end: &[usize],
    pin_count: &[u64],
    marks: &mut [usize],
    bytes: &[u64],
    books: &mut [u64],
    s: usize,
    spans: [Span; 65],
    count: usize,
    time: f64,
    counted: bool,
) -> StoreUsed
    ensures { let old = state_from parent.now depth.now len.now run.now words.now node.old
        start.old end.old id.old stamp.old touched.old write.old pin_node.now
        pin_start.now pin_end.now pin_count.now marks.old bytes.now books.old in
        let new = state_from parent.now depth.now len.now run.now words.now node.new
        start.new end.new id.new stamp.new touched.new write.new pin_node.now
        pin_start.now pin_end.now pin_count.now marks.new bytes.now books.new in
        outcome new tt (store_used_of result) ≡ store_used old s (take count spans) time counted }
{
    let n = within(count);
    first_used(
        parent, depth, len, run, words, node, start, end, id, stamp, touched, write, pin_node,
        pin_start, pin_end, pin_count, marks, bytes, books, s, spans, n, time, counted,
    )
}
