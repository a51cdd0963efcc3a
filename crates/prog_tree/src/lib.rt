#![tactic(auto)]
// Set-up, the calls of the tree, lookup and the state's line: each is made on the pools, and its answer written on a page.
//
// The state is 19 arrays. Once a set-up was accepted it is sound, and stays so.
ghost use Rattle.std.specs.Prelude.{◌≡◌, ◌≤◌, length, replicate};
ghost use Rattle.model.specs.Sound.{Sound};
ghost use Rattle.shape_answer.specs.Answers.{state_from};
ghost use Rattle.text_answer.specs.Text.{PathRoom, SpanRoom};
ghost use Rattle.prog_tree.specs.Between.{SoundIfSetUp};

use known::NUMBERS;
use text_answer::{Segments, TierSpans};
use text_page::{Page, ROOM};

// The lists for a path's segments.
#[derive(Drop)]
pub struct PathLists {
    pub node: [usize; 255],
    pub len: [usize; 255],
}

impl PathLists {
    pub fn new() -> Self
        ensures { (result.node ≡ replicate 255 0)
            × (result.len ≡ replicate 255 0) }
    {
        PathLists {
            node: [0; 255],
            len: [0; 255],
        }
    }

    pub fn lend(&self) -> Segments<'_>
        ensures { PathRoom result }
    {
        Segments {
            node: &self.node,
            len: &self.len,
        }
    }
}

// The lists for the spans that a lookup finds.
#[derive(Drop)]
pub struct TierLists {
    pub tier: [usize; 1024],
    pub node: [usize; 1024],
    pub start: [usize; 1024],
    pub end: [usize; 1024],
}

impl TierLists {
    pub fn new() -> Self
        ensures { (result.tier ≡ replicate 1024 0)
            × (result.node ≡ replicate 1024 0)
            × (result.start ≡ replicate 1024 0)
            × (result.end ≡ replicate 1024 0) }
    {
        TierLists {
            tier: [0; 1024],
            node: [0; 1024],
            start: [0; 1024],
            end: [0; 1024],
        }
    }

    pub fn lend(&self) -> TierSpans<'_>
        ensures { SpanRoom result }
    {
        TierSpans {
            tier: &self.tier,
            node: &self.node,
            start: &self.start,
            end: &self.end,
        }
    }
}

// `setup`; a refused one leaves the state as it was.
pub fn set_up(
    parent: &mut [usize; 256],
    depth: &mut [usize; 256],
    len: &mut [usize; 256],
    run: &mut [usize; 256],
    words: &[u64; 4096],
    node: &[usize; 1024],
    start: &[usize; 1024],
    end: &[usize; 1024],
    id: &[u64; 1024],
    stamp: &[u64; 1024],
    touched: &[f64; 1024],
    write: &[u32; 1024],
    pin_node: &[usize; 256],
    pin_start: &[usize; 256],
    pin_end: &[usize; 256],
    pin_count: &[u64; 256],
    marks: &mut [usize; 2048],
    bytes: &mut [u64; 1025],
    books: &mut [u64; NUMBERS],
    page: &mut Page<ROOM>,
    table: &[u64],
    capacity: &[u64],
    refreshes: &[bool],
)
    requires { SoundIfSetUp
        (state_from parent.old depth.old len.old run.old words.now node.now start.now end.now id.now stamp.now touched.now write.now
        pin_node.now pin_start.now pin_end.now pin_count.now marks.old bytes.old books.old)
        × (length page.old ≤ 500000) }
    ensures { SoundIfSetUp
        (state_from parent.new depth.new len.new run.new words.now node.now
        start.now end.now id.now stamp.now touched.now write.now
        pin_node.now pin_start.now pin_end.now pin_count.now marks.new
        bytes.new books.new) }
{
    let r = known::set_up(
        parent, depth, len, run, words, node, start, end, id, stamp, touched, write, pin_node,
        pin_start, pin_end, pin_count, marks, bytes, books, table, capacity, refreshes,
    );
    text_answer::put_plain(page, r);
}

// `insert`
pub fn insert(
    parent: &mut [usize; 256],
    depth: &mut [usize; 256],
    len: &mut [usize; 256],
    run: &mut [usize; 256],
    words: &mut [u64; 4096],
    node: &mut [usize; 1024],
    start: &mut [usize; 1024],
    end: &mut [usize; 1024],
    id: &mut [u64; 1024],
    stamp: &mut [u64; 1024],
    touched: &mut [f64; 1024],
    write: &mut [u32; 1024],
    pin_node: &mut [usize; 256],
    pin_start: &mut [usize; 256],
    pin_end: &mut [usize; 256],
    pin_count: &mut [u64; 256],
    marks: &mut [usize; 2048],
    bytes: &[u64; 1025],
    books: &mut [u64; NUMBERS],
    page: &mut Page<ROOM>,
    hashes: &[u64],
)
    requires { Sound
        (state_from parent.old depth.old len.old run.old words.old node.old start.old end.old id.old stamp.old touched.old write.old
        pin_node.old pin_start.old pin_end.old pin_count.old marks.old bytes.now books.old)
        × (length page.old ≤ 500000) }
    ensures { Sound
        (state_from parent.new depth.new len.new run.new words.new node.new start.new
        end.new id.new stamp.new touched.new write.new pin_node.new
        pin_start.new pin_end.new pin_count.new marks.new bytes.now books.new) }
{
    let mut path = PathLists::new();
    let r = known::insert(
        parent,
        depth,
        len,
        run,
        words,
        node,
        start,
        end,
        id,
        stamp,
        touched,
        write,
        pin_node,
        pin_start,
        pin_end,
        pin_count,
        marks,
        bytes,
        books,
        &mut path.node,
        &mut path.len,
        hashes,
    );
    text_answer::put_inserted(page, path.lend(), r);
}

// `resolve`
pub fn resolve(
    parent: &[usize; 256],
    depth: &[usize; 256],
    len: &[usize; 256],
    run: &[usize; 256],
    words: &[u64; 4096],
    node: &[usize; 1024],
    start: &[usize; 1024],
    end: &[usize; 1024],
    id: &[u64; 1024],
    stamp: &[u64; 1024],
    touched: &[f64; 1024],
    write: &[u32; 1024],
    pin_node: &[usize; 256],
    pin_start: &[usize; 256],
    pin_end: &[usize; 256],
    pin_count: &[u64; 256],
    marks: &[usize; 2048],
    bytes: &[u64; 1025],
    books: &[u64; NUMBERS],
    page: &mut Page<ROOM>,
    hashes: &[u64],
)
    requires { Sound
        (state_from parent.now depth.now len.now run.now words.now node.now start.now end.now id.now stamp.now touched.now write.now
        pin_node.now pin_start.now pin_end.now pin_count.now marks.now bytes.now books.now)
        × (length page.old ≤ 500000) }
{
    let mut path = PathLists::new();
    let r = known::resolve(
        parent,
        depth,
        len,
        run,
        words,
        node,
        start,
        end,
        id,
        stamp,
        touched,
        write,
        pin_node,
        pin_start,
        pin_end,
        pin_count,
        marks,
        bytes,
        books,
        &mut path.node,
        &mut path.len,
        hashes,
    );
    text_answer::put_resolved(page, path.lend(), r);
}

// `lookup`
pub fn lookup(
    parent: &[usize; 256],
    depth: &[usize; 256],
    len: &[usize; 256],
    run: &[usize; 256],
    words: &[u64; 4096],
    node: &[usize; 1024],
    start: &[usize; 1024],
    end: &[usize; 1024],
    id: &[u64; 1024],
    stamp: &[u64; 1024],
    touched: &[f64; 1024],
    write: &[u32; 1024],
    pin_node: &[usize; 256],
    pin_start: &[usize; 256],
    pin_end: &[usize; 256],
    pin_count: &[u64; 256],
    marks: &[usize; 2048],
    bytes: &[u64; 1025],
    books: &[u64; NUMBERS],
    page: &mut Page<ROOM>,
    hashes: &[u64],
    tiers: &[usize],
)
    requires { Sound
        (state_from parent.now depth.now len.now run.now words.now node.now start.now end.now id.now stamp.now touched.now write.now
        pin_node.now pin_start.now pin_end.now pin_count.now marks.now bytes.now books.now)
        × (length page.old ≤ 500000) }
{
    let mut path = PathLists::new();
    let mut spans = TierLists::new();
    let r = known::lookup(
        parent,
        depth,
        len,
        run,
        words,
        node,
        start,
        end,
        id,
        stamp,
        touched,
        write,
        pin_node,
        pin_start,
        pin_end,
        pin_count,
        marks,
        bytes,
        books,
        &mut path.node,
        &mut path.len,
        &mut spans.tier,
        &mut spans.node,
        &mut spans.start,
        &mut spans.end,
        tiers,
        hashes,
    );
    text_answer::put_looked_up(page, path.lend(), spans.lend(), r, tiers.len());
}

// `state`
pub fn state(
    parent: &[usize; 256],
    depth: &[usize; 256],
    len: &[usize; 256],
    run: &[usize; 256],
    words: &[u64; 4096],
    node: &[usize; 1024],
    start: &[usize; 1024],
    end: &[usize; 1024],
    id: &[u64; 1024],
    stamp: &[u64; 1024],
    touched: &[f64; 1024],
    write: &[u32; 1024],
    pin_node: &[usize; 256],
    pin_start: &[usize; 256],
    pin_end: &[usize; 256],
    pin_count: &[u64; 256],
    marks: &[usize; 2048],
    bytes: &[u64; 1025],
    books: &[u64; NUMBERS],
    page: &mut Page<ROOM>,
)
    requires { Sound
        (state_from parent.now depth.now len.now run.now words.now node.now start.now end.now id.now stamp.now touched.now write.now
        pin_node.now pin_start.now pin_end.now pin_count.now marks.now bytes.now books.now)
        × (length page.old ≤ 500000) }
{
    text_state::put_state(
        page, parent, depth, len, run, words, node, start, end, id, stamp, touched, write,
        pin_node, pin_start, pin_end, pin_count, marks, bytes, books,
    );
}
