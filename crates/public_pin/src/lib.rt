#![tactic(auto)]
// The public calls of the pins: the test for 1, then the call that a caller with a sound state uses.
ghost use Rattle.std.specs.Prelude.{◌≡◌};
ghost use Rattle.model.specs.Calls.{pin_source, unpin_source};
ghost use Rattle.shape_answer.specs.Answers.{state_from, outcome, plain_of};

use model::Span;
use shape_answer::Plain;

// Adds 1 to the entry of exactly that span of store s.
pub fn pin_source(
    parent: &[usize],
    depth: &[usize],
    len: &[usize],
    run: &[usize],
    words: &[u64],
    node: &[usize],
    start: &[usize],
    end: &[usize],
    id: &[u64],
    stamp: &[u64],
    touched: &[f64],
    write: &[u32],
    pin_node: &mut [usize],
    pin_start: &mut [usize],
    pin_end: &mut [usize],
    pin_count: &mut [u64],
    marks: &[usize],
    bytes: &[u64],
    books: &mut [u64],
    s: usize,
    sp: Span,
) -> Plain
    ensures { outcome
        (state_from parent.now depth.now len.now run.now words.now node.now
        start.now end.now id.now stamp.now touched.now write.now
        pin_node.new pin_start.new pin_end.new pin_count.new marks.now
        bytes.now books.new)
        tt (plain_of result)
        ≡ pin_source
        (state_from parent.now depth.now len.now run.now words.now node.now
        start.now end.now id.now stamp.now touched.now write.now
        pin_node.old pin_start.old pin_end.old pin_count.old marks.now
        bytes.now books.old)
        s sp }
{
    if !test_state::sound_state(
        parent, depth, len, run, words, node, start, end, id, stamp, touched, write, pin_node,
        pin_start, pin_end, pin_count, marks, bytes, books,
    ) {
        return Plain::Refused(1);
    }
    call_pin::pin_source(
        parent, depth, len, run, words, node, start, end, id, stamp, touched, write, pin_node,
        pin_start, pin_end, pin_count, marks, bytes, books, s, sp,
    )
}

// Takes 1 off the entry of exactly that span of store s. It never trims.
pub fn unpin_source(
    parent: &[usize],
    depth: &[usize],
    len: &[usize],
    run: &[usize],
    words: &[u64],
    node: &[usize],
    start: &[usize],
    end: &[usize],
    id: &[u64],
    stamp: &[u64],
    touched: &[f64],
    write: &[u32],
    pin_node: &mut [usize],
    pin_start: &mut [usize],
    pin_end: &mut [usize],
    pin_count: &mut [u64],
    marks: &[usize],
    bytes: &[u64],
    books: &mut [u64],
    s: usize,
    sp: Span,
) -> Plain
    ensures { outcome
        (state_from parent.now depth.now len.now run.now words.now node.now
        start.now end.now id.now stamp.now touched.now write.now
        pin_node.new pin_start.new pin_end.new pin_count.new marks.now
        bytes.now books.new)
        tt (plain_of result)
        ≡ unpin_source
        (state_from parent.now depth.now len.now run.now words.now node.now
        start.now end.now id.now stamp.now touched.now write.now
        pin_node.old pin_start.old pin_end.old pin_count.old marks.now
        bytes.now books.old)
        s sp }
{
    if !test_state::sound_state(
        parent, depth, len, run, words, node, start, end, id, stamp, touched, write, pin_node,
        pin_start, pin_end, pin_count, marks, bytes, books,
    ) {
        return Plain::Refused(1);
    }
    call_pin::unpin_source(
        parent, depth, len, run, words, node, start, end, id, stamp, touched, write, pin_node,
        pin_start, pin_end, pin_count, marks, bytes, books, s, sp,
    )
}
