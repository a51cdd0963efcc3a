#![tactic(auto)]
// A span pinned, and unpinned, in a sound state.
ghost use Rattle.std.specs.Prelude.{◌≡◌};
ghost use Rattle.model.specs.Sound.{Sound};
ghost use Rattle.model.specs.Calls.{pin_source, unpin_source};
ghost use Rattle.shape_answer.specs.Answers.{state_from, outcome, plain_of};

use model::Span;
use pool_pin::{PinsMut, place_of};
use shape_answer::Plain;

// Pin: 1 more on the entry of exactly that span of store s, held or not.
pub fn pin_source(
    parent: &[usize],
    depth: &[usize],
    len: &[usize],
    run: &[usize],
    words: &[u64],
    node: &[usize],
    start: &[usize],
    end: &[usize],
    id: &[u64],
    stamp: &[u64],
    touched: &[f64],
    write: &[u32],
    pin_node: &mut [usize],
    pin_start: &mut [usize],
    pin_end: &mut [usize],
    pin_count: &mut [u64],
    marks: &[usize],
    bytes: &[u64],
    books: &mut [u64],
    s: usize,
    sp: Span,
) -> Plain
    requires { Sound
        (state_from parent.now depth.now len.now run.now words.now node.now start.now end.now id.now stamp.now touched.now write.now
        pin_node.old pin_start.old pin_end.old pin_count.old marks.now bytes.now books.old) }
    ensures { outcome
        (state_from parent.now depth.now len.now run.now words.now node.now
        start.now end.now id.now stamp.now touched.now write.now
        pin_node.new pin_start.new pin_end.new pin_count.new marks.now
        bytes.now books.new)
        tt (plain_of result)
        ≡ pin_source
        (state_from parent.now depth.now len.now run.now words.now node.now
        start.now end.now id.now stamp.now touched.now write.now
        pin_node.old pin_start.old pin_end.old pin_count.old marks.now
        bytes.now books.old)
        s sp }
{
    let stores = books[2] as usize;
    if stores <= s {
        return Plain::Refused(2);
    }
    let nodes = books[0] as usize;
    if !test_arguments::span_in(len, nodes, sp) {
        return Plain::Refused(4);
    }
    let mut b = pool_book::book_of(books, s);
    let n = b.entries;
    let a = 32 * s;
    let mut pins = PinsMut {
        node: pin_node,
        start: pin_start,
        end: pin_end,
        count: pin_count,
    };
    let place = place_of(pins.view(), a, n, sp);
    let blocks = sp.end - sp.start;
    if test_arguments::too_many(place.is_ok(), n, b.pinned, blocks) {
        return Plain::Refused(9);
    }
    b.entries = pins.add(a, n, place, sp, 1);
    b.pinned += blocks as u64;
    pool_book::put_book(books, s, b);
    Plain::Done
}

// Unpin: 1 off the entry of exactly that span of store s. It never trims.
pub fn unpin_source(
    parent: &[usize],
    depth: &[usize],
    len: &[usize],
    run: &[usize],
    words: &[u64],
    node: &[usize],
    start: &[usize],
    end: &[usize],
    id: &[u64],
    stamp: &[u64],
    touched: &[f64],
    write: &[u32],
    pin_node: &mut [usize],
    pin_start: &mut [usize],
    pin_end: &mut [usize],
    pin_count: &mut [u64],
    marks: &[usize],
    bytes: &[u64],
    books: &mut [u64],
    s: usize,
    sp: Span,
) -> Plain
    requires { Sound
        (state_from parent.now depth.now len.now run.now words.now node.now start.now end.now id.now stamp.now touched.now write.now
        pin_node.old pin_start.old pin_end.old pin_count.old marks.now bytes.now books.old) }
    ensures { outcome
        (state_from parent.now depth.now len.now run.now words.now node.now
        start.now end.now id.now stamp.now touched.now write.now
        pin_node.new pin_start.new pin_end.new pin_count.new marks.now
        bytes.now books.new)
        tt (plain_of result)
        ≡ unpin_source
        (state_from parent.now depth.now len.now run.now words.now node.now
        start.now end.now id.now stamp.now touched.now write.now
        pin_node.old pin_start.old pin_end.old pin_count.old marks.now
        bytes.now books.old)
        s sp }
{
    let stores = books[2] as usize;
    if stores <= s {
        return Plain::Refused(2);
    }
    let nodes = books[0] as usize;
    if !test_arguments::span_in(len, nodes, sp) {
        return Plain::Refused(4);
    }
    let mut b = pool_book::book_of(books, s);
    let n = b.entries;
    let a = 32 * s;
    let mut pins = PinsMut {
        node: pin_node,
        start: pin_start,
        end: pin_end,
        count: pin_count,
    };
    let Ok(at) = place_of(pins.view(), a, n, sp) else {
        return Plain::Refused(10);
    };
    b.entries = pins.take(a, n, at, sp);
    b.pinned -= (sp.end - sp.start) as u64;
    pool_book::put_book(books, s, b);
    Plain::Done
}
