#![tactic(auto)]
// Before the spans of a touch are looked at: the test for 1, then the tests that need no span.
ghost use Rattle.std.specs.Prelude.{◌≡◌};
ghost use Rattle.shape_answer.specs.Answers.{state_from};
ghost use Rattle.public_start.specs.Started.{Stopped, Started};

use call_touch_span::{Run, Turn};

// A touch that is refused, 1. It has no node, so that a look at its spans looks no node up.
fn stop(s: usize, time: f64, counted: bool) -> Turn
    ensures { Stopped result }
{
    let run = Run {
        n: 0,
        top: 0,
        next: 0,
        sum: 0,
        number: 1,
    };
    call_touch_span::fresh(0, false, run, s, time, counted)
}

// A touch of store s with n spans, before the first: 1, 2, 3, 5 or none. The lent lists come as they go.
pub fn start_touch(
    parent: &[usize],
    depth: &[usize],
    len: &[usize],
    run: &[usize],
    words: &[u64],
    node: &mut [usize],
    start: &mut [usize],
    end: &mut [usize],
    id: &mut [u64],
    stamp: &mut [u64],
    touched: &mut [f64],
    write: &mut [u32],
    pin_node: &[usize],
    pin_start: &[usize],
    pin_end: &[usize],
    pin_count: &[u64],
    marks: &mut [usize],
    bytes: &[u64],
    books: &mut [u64],
    s: usize,
    n: usize,
    time: f64,
    counted: bool,
) -> Turn
    ensures { Started
        (state_from parent.now depth.now len.now run.now words.now node.old
        start.old end.old id.old stamp.old touched.old write.old
        pin_node.now pin_start.now pin_end.now pin_count.now marks.old
        bytes.now books.old)
        books.old s n time counted result
        × (node.new ≡ node.old)
        × (start.new ≡ start.old)
        × (end.new ≡ end.old)
        × (id.new ≡ id.old)
        × (stamp.new ≡ stamp.old)
        × (touched.new ≡ touched.old)
        × (write.new ≡ write.old)
        × (marks.new ≡ marks.old)
        × (books.new ≡ books.old) }
{
    if test_state::sound_state(
        parent, depth, len, run, words, node, start, end, id, stamp, touched, write, pin_node,
        pin_start, pin_end, pin_count, marks, bytes, books,
    ) {
        return call_touch_span::begin(books, s, n, time, counted);
    }
    stop(s, time, counted)
}
