#![tactic(auto)]
// The whole state in the replay form, one line, written on a page.
ghost use Rattle.std.specs.Prelude.{◌+◌, ◌≤◌, ◌<◌, length};
ghost use Rattle.model.specs.Sizes.{max_numbers};
ghost use Rattle.model.specs.State.{stores_in};
ghost use Rattle.model.specs.Sound.{Sound};
ghost use Rattle.shape_answer.specs.Answers.{state_from};
ghost use Rattle.text_page.specs.Page.{Wrote};
ghost use Rattle.text_state.specs.Columns.{Run, Nodes, Spot, SpotAt, Spots};

use model::Book;
use text_answer::{put_rules, put_span};
use text_page::Page;

// ` | n NODE p=PARENT d=DEPTH l=LEN h=FIRST..LAST`, with the first and the last hash of node k's run.
fn put_node<const N: usize>(
    page: &mut Page<N>,
    parent: &[usize],
    depth: &[usize],
    len: &[usize],
    run: &[usize],
    words: &[u64],
    k: usize,
)
    requires { Run parent.now depth.now len.now run.now words.now k × (length page.old + 160 ≤ N) }
    ensures { Wrote 144 page.old page.new }
{
    let from = run[k];
    let last = from + len[k] - 1;
    page.push_field(b" | n ", k as u64);
    page.push_field(b" p=", parent[k] as u64);
    page.push_field(b" d=", depth[k] as u64);
    page.push_field(b" l=", len[k] as u64);
    page.push_field(b" h=", words[from]);
    page.push_field(b"..", words[last]);
}

// Each node from 1.
fn put_nodes<const N: usize>(
    page: &mut Page<N>,
    parent: &[usize],
    depth: &[usize],
    len: &[usize],
    run: &[usize],
    words: &[u64],
    nodes: usize,
)
    requires { Nodes parent.now depth.now len.now run.now words.now nodes × (length page.old + 40000 ≤ N) }
    ensures { Wrote 36864 page.old page.new }
{
    for k in 1..nodes {
        put_node(page, parent, depth, len, run, words, k);
    }
}

// ` held=H stamp=T ver=V`
fn put_counts<const N: usize>(page: &mut Page<N>, held: u64, stamp: u64, version: u64)
    requires { length page.old + 96 ≤ N }
    ensures { Wrote 78 page.old page.new }
{
    page.push_field(b" held=", held);
    page.push_field(b" stamp=", stamp);
    page.push_field(b" ver=", version);
}

// ` pinned=P avail=A`
fn put_pinned<const N: usize>(page: &mut Page<N>, capacity: u64, pinned: u64)
    requires { length page.old + 64 ≤ N }
    ensures { Wrote 55 page.old page.new }
{
    page.push_field(b" pinned=", pinned);
    page.push_field(b" avail=", capacity.saturating_sub(pinned));
}

// Store s's own numbers.
fn put_store<const N: usize>(page: &mut Page<N>, s: usize, own: Book)
    requires { (s < 8) × (length page.old + 256 ≤ N) }
    ensures { Wrote 200 page.old page.new }
{
    put_rules(page, b" | s ", s, own.capacity, own.policy == 1);
    put_counts(page, own.held, own.stamp, own.version);
    put_pinned(page, own.capacity, own.pinned);
}

// ` abs=FROM-UPTO last=HASH`
fn put_position<const N: usize>(
    page: &mut Page<N>,
    depth: usize,
    start: usize,
    end: usize,
    last: u64,
)
    requires { (depth + start ≤ 1024) × (depth + end ≤ 1024) × (length page.old + 96 ≤ N) }
    ensures { Wrote 72 page.old page.new }
{
    page.push_field(b" abs=", (depth + start) as u64);
    page.push_field(b"-", (depth + end) as u64);
    page.push_field(b" last=", last);
}

// `S NODE:START-END abs=FROM-UPTO last=HASH`, after the letter of a record or a pin.
fn put_place<const N: usize>(
    page: &mut Page<N>,
    name: &[u8],
    depth: &[usize],
    run: &[usize],
    words: &[u64],
    s: usize,
    node: usize,
    start: usize,
    end: usize,
)
    requires { (length name.now ≤ 5) × Spot depth.now run.now words.now node start end × (length page.old + 224 ≤ N) }
    ensures { Wrote 182 page.old page.new }
{
    let last = run[node] + end - 1;
    page.push_field(name, s as u64);
    put_span(page, b" ", node, start, end);
    put_position(page, depth[node], start, end, words[last]);
}

// ` t=TIME`
fn put_time<const N: usize>(page: &mut Page<N>, touched: f64)
    requires { length page.old + 32 ≤ N }
    ensures { Wrote 24 page.old page.new }
{
    page.push_bytes(b" t=");
    let mut text = [0; 21];
    let n = text_times::time_text(touched, &mut text, 0);
    page.push_bytes(&text[..n]);
}

// ` id=I st=STAMP t=TIME w=WRITE`
fn put_record_end<const N: usize>(page: &mut Page<N>, id: u64, stamp: u64, touched: f64, write: u32)
    requires { length page.old + 128 ≤ N }
    ensures { Wrote 96 page.old page.new }
{
    page.push_field(b" id=", id);
    page.push_field(b" st=", stamp);
    put_time(page, touched);
    page.push_field(b" w=", write as u64);
}

// The record at place i, of store s.
fn put_record<const N: usize>(
    page: &mut Page<N>,
    depth: &[usize],
    run: &[usize],
    words: &[u64],
    node: &[usize],
    start: &[usize],
    end: &[usize],
    id: &[u64],
    stamp: &[u64],
    touched: &[f64],
    write: &[u32],
    s: usize,
    i: usize,
)
    requires { SpotAt i depth.now run.now words.now node.now start.now end.now
        × (i < length id.now)
        × (i < length stamp.now)
        × (i < length touched.now)
        × (i < length write.now)
        × (length page.old + 320 ≤ N) }
    ensures { Wrote 278 page.old page.new }
{
    put_place(
        page, b" | r ", depth, run, words, s, node[i], start[i], end[i],
    );
    put_record_end(page, id[i], stamp[i], touched[i], write[i]);
}

// The n records of store s.
fn put_records<const N: usize>(
    page: &mut Page<N>,
    depth: &[usize],
    run: &[usize],
    words: &[u64],
    node: &[usize],
    start: &[usize],
    end: &[usize],
    id: &[u64],
    stamp: &[u64],
    touched: &[f64],
    write: &[u32],
    s: usize,
    n: usize,
)
    requires { Spots 128 s n depth.now run.now words.now node.now start.now end.now
        × (s < 8)
        × (n ≤ 128)
        × (1024 ≤ length id.now)
        × (1024 ≤ length stamp.now)
        × (1024 ≤ length touched.now)
        × (1024 ≤ length write.now)
        × (length page.old + 36864 ≤ N) }
    ensures { Wrote 35584 page.old page.new }
{
    for k in 0..n {
        put_record(
            page,
            depth,
            run,
            words,
            node,
            start,
            end,
            id,
            stamp,
            touched,
            write,
            s,
            128 * s + k,
        );
    }
}

// The pin entry at place i, of store s.
fn put_pin<const N: usize>(
    page: &mut Page<N>,
    depth: &[usize],
    run: &[usize],
    words: &[u64],
    node: &[usize],
    start: &[usize],
    end: &[usize],
    count: &[u64],
    s: usize,
    i: usize,
)
    requires { SpotAt i depth.now run.now words.now node.now start.now end.now × (i < length count.now) × (length page.old + 256 ≤ N) }
    ensures { Wrote 208 page.old page.new }
{
    put_place(
        page, b" | p ", depth, run, words, s, node[i], start[i], end[i],
    );
    page.push_field(b" c=", count[i]);
}

// The n pin entries of store s.
fn put_pins<const N: usize>(
    page: &mut Page<N>,
    depth: &[usize],
    run: &[usize],
    words: &[u64],
    node: &[usize],
    start: &[usize],
    end: &[usize],
    count: &[u64],
    s: usize,
    n: usize,
)
    requires { Spots 32 s n depth.now run.now words.now node.now start.now end.now
        × (s < 8)
        × (n ≤ 32)
        × (256 ≤ length count.now)
        × (length page.old + 8192 ≤ N) }
    ensures { Wrote 6656 page.old page.new }
{
    for k in 0..n {
        put_pin(
            page,
            depth,
            run,
            words,
            node,
            start,
            end,
            count,
            s,
            32 * s + k,
        );
    }
}

// ` | m S NODE MARK`, where the mark is above 0.
fn put_mark<const N: usize>(page: &mut Page<N>, s: usize, node: usize, mark: usize)
    requires { length page.old + 96 ≤ N }
    ensures { Wrote 72 page.old page.new }
{
    if mark != 0 {
        page.push_field(b" | m ", s as u64);
        page.push_field(b" ", node as u64);
        page.push_field(b" ", mark as u64);
    }
}

fn put_marks<const N: usize>(page: &mut Page<N>, marks: &[usize], s: usize)
    requires { (s < 8) × (2048 ≤ length marks.now) × (length page.old + 18560 ≤ N) }
    ensures { Wrote 18432 page.old page.new }
{
    for (node, mark) in marks[256 * s..256 * s + 256].iter().enumerate() {
        put_mark(page, s, node, *mark);
    }
}

// Store s: its numbers, records, pins and marks.
fn put_whole_store<const N: usize>(
    page: &mut Page<N>,
    parent: &[usize],
    depth: &[usize],
    len: &[usize],
    run: &[usize],
    words: &[u64],
    node: &[usize],
    start: &[usize],
    end: &[usize],
    id: &[u64],
    stamp: &[u64],
    touched: &[f64],
    write: &[u32],
    pin_node: &[usize],
    pin_start: &[usize],
    pin_end: &[usize],
    pin_count: &[u64],
    marks: &[usize],
    bytes: &[u64],
    books: &[u64],
    s: usize,
)
    requires { Sound
        (state_from parent.now depth.now len.now run.now words.now node.now start.now end.now id.now stamp.now touched.now write.now
        pin_node.now pin_start.now pin_end.now pin_count.now marks.now bytes.now books.now)
        × (s < stores_in books.now)
        × (length page.old + 61440 ≤ N) }
    ensures { Wrote 60928 page.old page.new }
{
    let own = pool_book::book_of(books, s);
    put_store(page, s, own);
    put_records(
        page,
        depth,
        run,
        words,
        node,
        start,
        end,
        id,
        stamp,
        touched,
        write,
        s,
        own.records,
    );
    put_pins(
        page,
        depth,
        run,
        words,
        pin_node,
        pin_start,
        pin_end,
        pin_count,
        s,
        own.entries,
    );
    put_marks(page, marks, s);
}

// `state nodes=N words=W nextid=I stalls=X`
fn put_head<const N: usize>(page: &mut Page<N>, books: &[u64])
    requires { (max_numbers ≤ length books.now) × (length page.old + 160 ≤ N) }
    ensures { Wrote 128 page.old page.new }
{
    page.push_bytes(b"state");
    page.push_field(b" nodes=", books[0]);
    page.push_field(b" words=", books[1]);
    page.push_field(b" nextid=", books[3]);
    page.push_field(b" stalls=", books[4]);
}

// The whole state.
pub fn put_state<const N: usize>(
    page: &mut Page<N>,
    parent: &[usize],
    depth: &[usize],
    len: &[usize],
    run: &[usize],
    words: &[u64],
    node: &[usize],
    start: &[usize],
    end: &[usize],
    id: &[u64],
    stamp: &[u64],
    touched: &[f64],
    write: &[u32],
    pin_node: &[usize],
    pin_start: &[usize],
    pin_end: &[usize],
    pin_count: &[u64],
    marks: &[usize],
    bytes: &[u64],
    books: &[u64],
)
    requires { Sound
        (state_from parent.now depth.now len.now run.now words.now node.now start.now end.now id.now stamp.now touched.now write.now
        pin_node.now pin_start.now pin_end.now pin_count.now marks.now bytes.now books.now)
        × (length page.old + 540672 ≤ N) }
    ensures { Wrote 540672 page.old page.new }
{
    let nodes = books[0] as usize;
    let stores = books[2] as usize;
    put_head(page, books);
    put_nodes(page, parent, depth, len, run, words, nodes);
    for s in 0..stores {
        put_whole_store(
            page, parent, depth, len, run, words, node, start, end, id, stamp, touched, write,
            pin_node, pin_start, pin_end, pin_count, marks, bytes, books, s,
        );
    }
    page.end_line();
}
