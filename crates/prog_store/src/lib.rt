#![tactic(auto)]
// The calls of a store: each is made on the pools, and its answer written on a page. A sound state stays sound.
ghost use Rattle.std.specs.Prelude.{◌≡◌, ◌≤◌, length, replicate};
ghost use Rattle.model.specs.Sound.{Sound};
ghost use Rattle.shape_answer.specs.Answers.{state_from};
ghost use Rattle.text_answer.specs.Text.{OutRoom};

use known::NUMBERS;
use model::Span;
use text_answer::Outs;
use text_page::{Page, ROOM};

// The lists for the spans that a call gives out.
#[derive(Drop)]
pub struct OutLists {
    pub node: [usize; 128],
    pub start: [usize; 128],
    pub end: [usize; 128],
    pub write: [u32; 128],
    pub bytes: [u64; 128],
    pub dead: [u64; 128],
}

impl OutLists {
    pub fn new() -> Self
        ensures { (result.node ≡ replicate 128 0)
            × (result.start ≡ replicate 128 0)
            × (result.end ≡ replicate 128 0)
            × (result.write ≡ replicate 128 0)
            × (result.bytes ≡ replicate 128 0)
            × (result.dead ≡ replicate 128 0) }
    {
        OutLists {
            node: [0; 128],
            start: [0; 128],
            end: [0; 128],
            write: [0; 128],
            bytes: [0; 128],
            dead: [0; 128],
        }
    }

    pub fn lend(&self) -> Outs<'_>
        ensures { OutRoom result }
    {
        Outs {
            node: &self.node,
            start: &self.start,
            end: &self.end,
            write: &self.write,
            bytes: &self.bytes,
            dead: &self.dead,
        }
    }
}

// `bring`
pub fn bring(
    parent: &[usize; 256],
    depth: &[usize; 256],
    len: &[usize; 256],
    run: &[usize; 256],
    words: &[u64; 4096],
    node: &mut [usize; 1024],
    start: &mut [usize; 1024],
    end: &mut [usize; 1024],
    id: &mut [u64; 1024],
    stamp: &mut [u64; 1024],
    touched: &mut [f64; 1024],
    write: &mut [u32; 1024],
    pin_node: &[usize; 256],
    pin_start: &[usize; 256],
    pin_end: &[usize; 256],
    pin_count: &[u64; 256],
    marks: &mut [usize; 2048],
    bytes: &[u64; 1025],
    books: &mut [u64; NUMBERS],
    page: &mut Page<ROOM>,
    s: usize,
    sp: Span,
    time: f64,
    w: u32,
)
    requires { Sound
        (state_from parent.now depth.now len.now run.now words.now node.old start.old end.old id.old stamp.old touched.old write.old
        pin_node.now pin_start.now pin_end.now pin_count.now marks.old bytes.now books.old)
        × (length page.old ≤ 500000) }
    ensures { Sound
        (state_from parent.now depth.now len.now run.now words.now node.new
        start.new end.new id.new stamp.new touched.new write.new pin_node.now
        pin_start.now pin_end.now pin_count.now marks.new bytes.now
        books.new) }
{
    let mut outs = OutLists::new();
    let r = known::store_insert(
        parent,
        depth,
        len,
        run,
        words,
        node,
        start,
        end,
        id,
        stamp,
        touched,
        write,
        pin_node,
        pin_start,
        pin_end,
        pin_count,
        marks,
        bytes,
        books,
        &mut outs.node,
        &mut outs.start,
        &mut outs.end,
        &mut outs.write,
        &mut outs.bytes,
        &mut outs.dead,
        s,
        sp,
        time,
        w,
    );
    text_answer::put_brought(page, outs.lend(), r);
}

// The refusal of a touch of more than 64 spans.
pub fn too_many(stores: usize, s: usize) -> u8 {
    if stores <= s { 2 } else { 3 }
}

// The spans of a list, three places each.
pub fn spans_of(spans: &[usize; 192]) -> [Span; 64] {
    std::array::from_fn(|i| Span {
        node: spans[3 * i],
        start: spans[3 * i + 1],
        end: spans[3 * i + 2],
    })
}

// `touch`
pub fn touch(
    parent: &[usize; 256],
    depth: &[usize; 256],
    len: &[usize; 256],
    run: &[usize; 256],
    words: &[u64; 4096],
    node: &mut [usize; 1024],
    start: &mut [usize; 1024],
    end: &mut [usize; 1024],
    id: &mut [u64; 1024],
    stamp: &mut [u64; 1024],
    touched: &mut [f64; 1024],
    write: &mut [u32; 1024],
    pin_node: &[usize; 256],
    pin_start: &[usize; 256],
    pin_end: &[usize; 256],
    pin_count: &[u64; 256],
    marks: &mut [usize; 2048],
    bytes: &[u64; 1025],
    books: &mut [u64; NUMBERS],
    page: &mut Page<ROOM>,
    spans: &[usize; 192],
    s: usize,
    time: f64,
    counted: bool,
    n: usize,
)
    requires { Sound
        (state_from parent.now depth.now len.now run.now words.now node.old start.old end.old id.old stamp.old touched.old write.old
        pin_node.now pin_start.now pin_end.now pin_count.now marks.old bytes.now books.old)
        × (length page.old ≤ 500000)
        × (n ≤ 65) }
    ensures { Sound
        (state_from parent.now depth.now len.now run.now words.now node.new
        start.new end.new id.new stamp.new touched.new write.new pin_node.now
        pin_start.now pin_end.now pin_count.now marks.new bytes.now
        books.new) }
{
    if 64 < n {
        return text_answer::put_refused(page, too_many(books[2] as usize, s));
    }
    let sps = spans_of(spans);
    let r = known::store_used_array(
        parent, depth, len, run, words, node, start, end, id, stamp, touched, write, pin_node,
        pin_start, pin_end, pin_count, marks, bytes, books, s, sps, n, time, counted,
    );
    text_answer::put_bytes_read(page, r);
}

// `remove`
pub fn remove(
    parent: &[usize; 256],
    depth: &[usize; 256],
    len: &[usize; 256],
    run: &[usize; 256],
    words: &[u64; 4096],
    node: &mut [usize; 1024],
    start: &mut [usize; 1024],
    end: &mut [usize; 1024],
    id: &mut [u64; 1024],
    stamp: &mut [u64; 1024],
    touched: &mut [f64; 1024],
    write: &mut [u32; 1024],
    pin_node: &[usize; 256],
    pin_start: &[usize; 256],
    pin_end: &[usize; 256],
    pin_count: &[u64; 256],
    marks: &mut [usize; 2048],
    bytes: &[u64; 1025],
    books: &mut [u64; NUMBERS],
    page: &mut Page<ROOM>,
    s: usize,
    sp: Span,
)
    requires { Sound
        (state_from parent.now depth.now len.now run.now words.now node.old start.old end.old id.old stamp.old touched.old write.old
        pin_node.now pin_start.now pin_end.now pin_count.now marks.old bytes.now books.old)
        × (length page.old ≤ 500000) }
    ensures { Sound
        (state_from parent.now depth.now len.now run.now words.now node.new
        start.new end.new id.new stamp.new touched.new write.new pin_node.now
        pin_start.now pin_end.now pin_count.now marks.new bytes.now
        books.new) }
{
    let mut writes = [0u32; 128];
    let r = known::store_remove(
        parent,
        depth,
        len,
        run,
        words,
        node,
        start,
        end,
        id,
        stamp,
        touched,
        write,
        pin_node,
        pin_start,
        pin_end,
        pin_count,
        marks,
        bytes,
        books,
        &mut writes,
        s,
        sp,
    );
    text_answer::put_removed(page, &writes, r);
}

// `expire`
pub fn expire(
    parent: &[usize; 256],
    depth: &[usize; 256],
    len: &[usize; 256],
    run: &[usize; 256],
    words: &[u64; 4096],
    node: &mut [usize; 1024],
    start: &mut [usize; 1024],
    end: &mut [usize; 1024],
    id: &mut [u64; 1024],
    stamp: &mut [u64; 1024],
    touched: &mut [f64; 1024],
    write: &mut [u32; 1024],
    pin_node: &[usize; 256],
    pin_start: &[usize; 256],
    pin_end: &[usize; 256],
    pin_count: &[u64; 256],
    marks: &mut [usize; 2048],
    bytes: &[u64; 1025],
    books: &mut [u64; NUMBERS],
    page: &mut Page<ROOM>,
    s: usize,
    time: f64,
    seconds: f64,
)
    requires { Sound
        (state_from parent.now depth.now len.now run.now words.now node.old start.old end.old id.old stamp.old touched.old write.old
        pin_node.now pin_start.now pin_end.now pin_count.now marks.old bytes.now books.old)
        × (length page.old ≤ 500000) }
    ensures { Sound
        (state_from parent.now depth.now len.now run.now words.now node.new
        start.new end.new id.new stamp.new touched.new write.new pin_node.now
        pin_start.now pin_end.now pin_count.now marks.new bytes.now
        books.new) }
{
    let mut outs = OutLists::new();
    let r = known::store_expire(
        parent,
        depth,
        len,
        run,
        words,
        node,
        start,
        end,
        id,
        stamp,
        touched,
        write,
        pin_node,
        pin_start,
        pin_end,
        pin_count,
        marks,
        bytes,
        books,
        &mut outs.node,
        &mut outs.start,
        &mut outs.end,
        &mut outs.write,
        &mut outs.bytes,
        &mut outs.dead,
        s,
        time,
        seconds,
    );
    text_answer::put_expired(page, outs.lend(), r);
}

// `pin`
pub fn pin(
    parent: &[usize; 256],
    depth: &[usize; 256],
    len: &[usize; 256],
    run: &[usize; 256],
    words: &[u64; 4096],
    node: &[usize; 1024],
    start: &[usize; 1024],
    end: &[usize; 1024],
    id: &[u64; 1024],
    stamp: &[u64; 1024],
    touched: &[f64; 1024],
    write: &[u32; 1024],
    pin_node: &mut [usize; 256],
    pin_start: &mut [usize; 256],
    pin_end: &mut [usize; 256],
    pin_count: &mut [u64; 256],
    marks: &[usize; 2048],
    bytes: &[u64; 1025],
    books: &mut [u64; NUMBERS],
    page: &mut Page<ROOM>,
    s: usize,
    sp: Span,
)
    requires { Sound
        (state_from parent.now depth.now len.now run.now words.now node.now start.now end.now id.now stamp.now touched.now write.now
        pin_node.old pin_start.old pin_end.old pin_count.old marks.now bytes.now books.old)
        × (length page.old ≤ 500000) }
    ensures { Sound
        (state_from parent.now depth.now len.now run.now words.now node.now
        start.now end.now id.now stamp.now touched.now write.now
        pin_node.new pin_start.new pin_end.new pin_count.new marks.now
        bytes.now books.new) }
{
    let r = known::pin_source(
        parent, depth, len, run, words, node, start, end, id, stamp, touched, write, pin_node,
        pin_start, pin_end, pin_count, marks, bytes, books, s, sp,
    );
    text_answer::put_plain(page, r);
}

// `unpin`
pub fn unpin(
    parent: &[usize; 256],
    depth: &[usize; 256],
    len: &[usize; 256],
    run: &[usize; 256],
    words: &[u64; 4096],
    node: &[usize; 1024],
    start: &[usize; 1024],
    end: &[usize; 1024],
    id: &[u64; 1024],
    stamp: &[u64; 1024],
    touched: &[f64; 1024],
    write: &[u32; 1024],
    pin_node: &mut [usize; 256],
    pin_start: &mut [usize; 256],
    pin_end: &mut [usize; 256],
    pin_count: &mut [u64; 256],
    marks: &[usize; 2048],
    bytes: &[u64; 1025],
    books: &mut [u64; NUMBERS],
    page: &mut Page<ROOM>,
    s: usize,
    sp: Span,
)
    requires { Sound
        (state_from parent.now depth.now len.now run.now words.now node.now start.now end.now id.now stamp.now touched.now write.now
        pin_node.old pin_start.old pin_end.old pin_count.old marks.now bytes.now books.old)
        × (length page.old ≤ 500000) }
    ensures { Sound
        (state_from parent.now depth.now len.now run.now words.now node.now
        start.now end.now id.now stamp.now touched.now write.now
        pin_node.new pin_start.new pin_end.new pin_count.new marks.now
        bytes.now books.new) }
{
    let r = known::unpin_source(
        parent, depth, len, run, words, node, start, end, id, stamp, touched, write, pin_node,
        pin_start, pin_end, pin_count, marks, bytes, books, s, sp,
    );
    text_answer::put_plain(page, r);
}
