#![tactic(auto)]
// One line's operation: its call is made on the pools, and its answer written on a page.
//
// The state is 19 arrays. Once a set-up was accepted it is sound, and each operation keeps it so.
ghost use Rattle.std.specs.Prelude.{◌≤◌, length};
ghost use Rattle.model.specs.Sound.{Sound};
ghost use Rattle.text_lines.specs.Lines.{Filled};
ghost use Rattle.shape_answer.specs.Answers.{state_from};
ghost use Rattle.prog_tree.specs.Between.{SoundIfSetUp};

use known::NUMBERS;
use text_lines::Op;
use text_page::{Page, ROOM};
use text_print::put_bytes;

// A line before the first accepted set-up that is no set-up.
fn before_set_up(page: &mut Page<ROOM>, op: Op)
    requires { length page.old ≤ 500000 }
{
    match op {
        Op::Blank => {}
        Op::Unreadable => text_answer::put_line(page, b"unreadable"),
        Op::State => text_answer::put_line(page, b"state none"),
        _ => text_answer::put_refused(page, 1),
    }
}

// What only reads the state. A line that asks for nothing gets no answer.
fn read(
    parent: &[usize; 256],
    depth: &[usize; 256],
    len: &[usize; 256],
    run: &[usize; 256],
    words: &[u64; 4096],
    node: &[usize; 1024],
    start: &[usize; 1024],
    end: &[usize; 1024],
    id: &[u64; 1024],
    stamp: &[u64; 1024],
    touched: &[f64; 1024],
    write: &[u32; 1024],
    pin_node: &[usize; 256],
    pin_start: &[usize; 256],
    pin_end: &[usize; 256],
    pin_count: &[u64; 256],
    marks: &[usize; 2048],
    bytes: &[u64; 1025],
    books: &[u64; NUMBERS],
    page: &mut Page<ROOM>,
    list: &[u64; 1026],
    tiers: &[usize; 9],
    op: Op,
)
    requires { Filled op
        × Sound
        (state_from parent.now depth.now len.now run.now words.now node.now start.now end.now id.now stamp.now touched.now write.now
        pin_node.now pin_start.now pin_end.now pin_count.now marks.now bytes.now books.now)
        × (length page.old ≤ 500000) }
{
    match op {
        Op::Resolve(n) => prog_tree::resolve(
            parent,
            depth,
            len,
            run,
            words,
            node,
            start,
            end,
            id,
            stamp,
            touched,
            write,
            pin_node,
            pin_start,
            pin_end,
            pin_count,
            marks,
            bytes,
            books,
            page,
            &list[..n],
        ),
        Op::Lookup(k, n) => prog_tree::lookup(
            parent,
            depth,
            len,
            run,
            words,
            node,
            start,
            end,
            id,
            stamp,
            touched,
            write,
            pin_node,
            pin_start,
            pin_end,
            pin_count,
            marks,
            bytes,
            books,
            page,
            &list[..n],
            &tiers[..k],
        ),
        Op::State => prog_tree::state(
            parent, depth, len, run, words, node, start, end, id, stamp, touched, write, pin_node,
            pin_start, pin_end, pin_count, marks, bytes, books, page,
        ),
        Op::Unreadable => text_answer::put_line(page, b"unreadable"),
        _ => {}
    }
}

pub fn call_on_page(
    parent: &mut [usize; 256],
    depth: &mut [usize; 256],
    len: &mut [usize; 256],
    run: &mut [usize; 256],
    words: &mut [u64; 4096],
    node: &mut [usize; 1024],
    start: &mut [usize; 1024],
    end: &mut [usize; 1024],
    id: &mut [u64; 1024],
    stamp: &mut [u64; 1024],
    touched: &mut [f64; 1024],
    write: &mut [u32; 1024],
    pin_node: &mut [usize; 256],
    pin_start: &mut [usize; 256],
    pin_end: &mut [usize; 256],
    pin_count: &mut [u64; 256],
    marks: &mut [usize; 2048],
    bytes: &mut [u64; 1025],
    books: &mut [u64; NUMBERS],
    page: &mut Page<ROOM>,
    list: &[u64; 1026],
    spans: &[usize; 192],
    tiers: &[usize; 9],
    capacity: &[u64; 9],
    refreshes: &[bool; 9],
    op: Op,
)
    requires { Filled op
        × SoundIfSetUp
        (state_from parent.old depth.old len.old run.old words.old node.old start.old end.old id.old stamp.old touched.old write.old
        pin_node.old pin_start.old pin_end.old pin_count.old marks.old bytes.old books.old)
        × (length page.old ≤ 500000) }
    ensures { SoundIfSetUp
        (state_from parent.new depth.new len.new run.new words.new node.new start.new
        end.new id.new stamp.new touched.new write.new pin_node.new
        pin_start.new pin_end.new pin_count.new marks.new bytes.new books.new) }
{
    match op {
        Op::SetUp(k, n) => prog_tree::set_up(
            parent,
            depth,
            len,
            run,
            &*words,
            &*node,
            &*start,
            &*end,
            &*id,
            &*stamp,
            &*touched,
            &*write,
            &*pin_node,
            &*pin_start,
            &*pin_end,
            &*pin_count,
            marks,
            bytes,
            books,
            page,
            &list[..k],
            &capacity[..n],
            &refreshes[..n],
        ),
        // no node, not even the root: nothing was set up
        _ if books[0] == 0 => before_set_up(page, op),
        Op::Insert(n) => prog_tree::insert(
            parent,
            depth,
            len,
            run,
            words,
            node,
            start,
            end,
            id,
            stamp,
            touched,
            write,
            pin_node,
            pin_start,
            pin_end,
            pin_count,
            marks,
            &*bytes,
            books,
            page,
            &list[..n],
        ),
        Op::Bring(s, sp, time, w) => prog_store::bring(
            &*parent,
            &*depth,
            &*len,
            &*run,
            &*words,
            node,
            start,
            end,
            id,
            stamp,
            touched,
            write,
            &*pin_node,
            &*pin_start,
            &*pin_end,
            &*pin_count,
            marks,
            &*bytes,
            books,
            page,
            s,
            sp,
            time,
            w,
        ),
        Op::Touch(s, time, counted, n) => prog_store::touch(
            &*parent,
            &*depth,
            &*len,
            &*run,
            &*words,
            node,
            start,
            end,
            id,
            stamp,
            touched,
            write,
            &*pin_node,
            &*pin_start,
            &*pin_end,
            &*pin_count,
            marks,
            &*bytes,
            books,
            page,
            spans,
            s,
            time,
            counted,
            n,
        ),
        Op::Remove(s, sp) => prog_store::remove(
            &*parent,
            &*depth,
            &*len,
            &*run,
            &*words,
            node,
            start,
            end,
            id,
            stamp,
            touched,
            write,
            &*pin_node,
            &*pin_start,
            &*pin_end,
            &*pin_count,
            marks,
            &*bytes,
            books,
            page,
            s,
            sp,
        ),
        Op::Expire(s, time, seconds) => prog_store::expire(
            &*parent,
            &*depth,
            &*len,
            &*run,
            &*words,
            node,
            start,
            end,
            id,
            stamp,
            touched,
            write,
            &*pin_node,
            &*pin_start,
            &*pin_end,
            &*pin_count,
            marks,
            &*bytes,
            books,
            page,
            s,
            time,
            seconds,
        ),
        Op::Pin(s, sp) => prog_store::pin(
            &*parent, &*depth, &*len, &*run, &*words, &*node, &*start, &*end, &*id, &*stamp,
            &*touched, &*write, pin_node, pin_start, pin_end, pin_count, &*marks, &*bytes, books,
            page, s, sp,
        ),
        Op::Unpin(s, sp) => prog_store::unpin(
            &*parent, &*depth, &*len, &*run, &*words, &*node, &*start, &*end, &*id, &*stamp,
            &*touched, &*write, pin_node, pin_start, pin_end, pin_count, &*marks, &*bytes, books,
            page, s, sp,
        ),
        _ => read(
            &*parent,
            &*depth,
            &*len,
            &*run,
            &*words,
            &*node,
            &*start,
            &*end,
            &*id,
            &*stamp,
            &*touched,
            &*write,
            &*pin_node,
            &*pin_start,
            &*pin_end,
            &*pin_count,
            &*marks,
            &*bytes,
            &*books,
            page,
            list,
            tiers,
            op,
        ),
    }
}

// The same, written from `at` on in a buffer that the caller lends: answers the place past it.
pub fn call(
    parent: &mut [usize; 256],
    depth: &mut [usize; 256],
    len: &mut [usize; 256],
    run: &mut [usize; 256],
    words: &mut [u64; 4096],
    node: &mut [usize; 1024],
    start: &mut [usize; 1024],
    end: &mut [usize; 1024],
    id: &mut [u64; 1024],
    stamp: &mut [u64; 1024],
    touched: &mut [f64; 1024],
    write: &mut [u32; 1024],
    pin_node: &mut [usize; 256],
    pin_start: &mut [usize; 256],
    pin_end: &mut [usize; 256],
    pin_count: &mut [u64; 256],
    marks: &mut [usize; 2048],
    bytes: &mut [u64; 1025],
    books: &mut [u64; NUMBERS],
    out: &mut [u8; ROOM],
    at: usize,
    list: &[u64; 1026],
    spans: &[usize; 192],
    tiers: &[usize; 9],
    capacity: &[u64; 9],
    refreshes: &[bool; 9],
    op: Op,
) -> usize
    requires { Filled op
        × SoundIfSetUp
        (state_from parent.old depth.old len.old run.old words.old node.old start.old end.old id.old stamp.old touched.old write.old
        pin_node.old pin_start.old pin_end.old pin_count.old marks.old bytes.old books.old)
        × (at ≤ 500000) }
    ensures { SoundIfSetUp
        (state_from parent.new depth.new len.new run.new words.new node.new start.new
        end.new id.new stamp.new touched.new write.new pin_node.new
        pin_start.new pin_end.new pin_count.new marks.new bytes.new books.new)
        × (result ≤ 1048576) }
{
    let mut page = Page::over(*out, at);
    call_on_page(
        parent, depth, len, run, words, node, start, end, id, stamp, touched, write, pin_node,
        pin_start, pin_end, pin_count, marks, bytes, books, &mut page, list, spans, tiers,
        capacity, refreshes, op,
    );
    put_bytes(out, 0, page.bytes())
}

#[cfg(test)]
mod tests;
