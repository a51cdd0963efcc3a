#![tactic(auto)]
// A cut of the whole state: what refuses an insertion, then each store in turn, on its part of the pools.
ghost use Rattle.std.specs.Prelude.{◌≡◌, ◌++◌, List, ℕ, ◌+◌, ◌*◌, ◌≤◌, ◌<◌, length, take, drop};
ghost use Rattle.model.specs.Sizes.{max_stamp, max_pinned, max_stores, max_numbers};
ghost use Rattle.model.specs.Sound.{RangesLent, PinsLent};
ghost use Rattle.model.specs.State.{Ranges, Pins, at, State, Tree, stalls_in, stores_in};
ghost use Rattle.model.specs.Store.{lay, ranges, lay_ranges, pins, lay_pins, plus, lay_book, lay_next};
ghost use Rattle.model.specs.Insert.{heads, tails, ranges_across, cut_marks, cut_pins, pins_across, cut_store_in, cut_stores, cut};
ghost use Rattle.shape_state.specs.Lent.{ranges_of, pins_of, state_of};
ghost use Rattle.pool_range.specs.Part.{Sized};
ghost use Rattle.rule_cut.specs.Cutting.{across_in, cut_ranges as cut_part};
ghost use Rattle.rule_cut_pins.specs.Entries.{counts, pins_across_in, PinsSized, cut_entries};
ghost use Rattle.model.specs.Words.{any};
ghost use Rattle.call_cut.specs.Needs.{overfull, overpinned, ids_below};
ghost use Rattle.model.specs.Calls.{front};
ghost use Rattle.call_cut.specs.Halves.{cut_book, RangesRoom, RangesCut, StoreRoom};
ghost use Rattle.call_cut.specs.Refusal.{insert_refusal, cut_refusal, Seen, Shown};
ghost use Rattle.shape_answer.specs.Answers.{state_from};
ghost use Rattle.call_cut.specs.Room.{Cuttable, StoresCuttable};

use model::Book;
use pool_book::{book_of, entries_of, put_book, put_counts, put_next, records_of};
use pool_pin::PinsMut;
use pool_range::RangesMut;
use rule_cut::After;
use rule_grow::cut_tree;
use rule_resolve::Match;

// The first n ranges of a part, cut. The columns stand one by one here and above: a slice of a slice put in a struct is lost to the check.
fn cut_range_part(
    node: &mut [usize],
    start: &mut [usize],
    end: &mut [usize],
    id: &mut [u64],
    stamp: &mut [u64],
    touched: &mut [f64],
    write: &mut [u32],
    n: usize,
    j: usize,
    k: usize,
    m: usize,
    next: u64,
) -> After
    requires { (n + across_in j k n (ranges_of node.old start.old end.old id.old stamp.old touched.old write.old) ≤ 128)
        × (next ≤ max_stamp)
        × Sized 128 (ranges_of node.old start.old end.old id.old stamp.old touched.old write.old) }
    ensures columns { ranges_of node.new start.new end.new id.new stamp.new touched.new write.new
        ≡ cut_part j k m next n (ranges_of node.old start.old end.old id.old stamp.old touched.old write.old) }
    ensures count { result.n ≡ n + across_in j k n (ranges_of node.old start.old end.old id.old stamp.old touched.old write.old) }
    ensures ids { result.next ≡ next + across_in j k n (ranges_of node.old start.old end.old id.old stamp.old touched.old write.old) }
{
    let mut ranges = RangesMut {
        node,
        start,
        end,
        id,
        stamp,
        touched,
        write,
    };
    rule_cut::cut_ranges(&mut ranges, n, j, k, m, next)
}

// The ranges of store s, cut: its part of each column is lent on.
pub fn cut_ranges(
    node: &mut [usize],
    start: &mut [usize],
    end: &mut [usize],
    id: &mut [u64],
    stamp: &mut [u64],
    touched: &mut [f64],
    write: &mut [u32],
    s: usize,
    n: usize,
    j: usize,
    k: usize,
    m: usize,
    next: u64,
) -> After
    requires { (s < 8)
        × (n + ranges_across j k (ranges (ranges_of node.old start.old end.old id.old stamp.old touched.old write.old) (128 * s) n) ≤ 128)
        × (next ≤ max_stamp)
        × RangesLent (ranges_of node.old start.old end.old id.old stamp.old touched.old write.old) }
    ensures { (ranges_of node.new start.new end.new id.new stamp.new touched.new write.new
        ≡ lay_ranges (128 * s)
        (n
        + ranges_across j k
        (ranges
        (ranges_of node.old start.old end.old id.old stamp.old touched.old
        write.old)
        (128 * s) n))
        (heads j k
        (ranges
        (ranges_of node.old start.old end.old id.old stamp.old touched.old
        write.old)
        (128 * s) n)
        ++ tails j k m next
        (ranges
        (ranges_of node.old start.old end.old id.old stamp.old touched.old
        write.old)
        (128 * s) n))
        (ranges_of node.old start.old end.old id.old stamp.old touched.old
        write.old))
        × (result.n
        ≡ n
        + ranges_across j k
        (ranges
        (ranges_of node.old start.old end.old id.old stamp.old touched.old
        write.old)
        (128 * s) n))
        × (result.next
        ≡ next
        + ranges_across j k
        (ranges
        (ranges_of node.old start.old end.old id.old stamp.old touched.old
        write.old)
        (128 * s) n)) }
{
    let a = 128 * s;
    let e = a + 128;
    cut_range_part(
        &mut node[a..e],
        &mut start[a..e],
        &mut end[a..e],
        &mut id[a..e],
        &mut stamp[a..e],
        &mut touched[a..e],
        &mut write[a..e],
        n,
        j,
        k,
        m,
        next,
    )
}

// The read marks of store s, cut; `node` and `n` are those after the cut of its ranges.
pub fn cut_marks(
    node: &[usize],
    marks: &mut [usize],
    s: usize,
    n: usize,
    j: usize,
    k: usize,
    m: usize,
)
    requires { (s < 8) × (n ≤ 128) × (j < 256) × (m < 256) × (2048 ≤ length marks.old) × (1024 ≤ length node.now) }
    ensures { (c : Ranges)
        → c.node ≡ node.now
        → marks.new
        ≡ lay 0 (256 * s) 256 (cut_marks j k m (ranges c (128 * s) n) (take 256 (drop (256 * s) marks.old))) marks.old }
{
    let a = 256 * s;
    let e = a + 256;
    let b = 128 * s;
    let f = b + 128;
    pool_mark::cut_marks(&node[b..f], &mut marks[a..e], n, j, k, m);
}

// How many ranges of store s are across k on node j.
pub fn ranges_across(
    node: &[usize],
    start: &[usize],
    end: &[usize],
    s: usize,
    n: usize,
    j: usize,
    k: usize,
) -> usize
    requires { (s < 8) × (n ≤ 128) × (1024 ≤ length node.now) × (1024 ≤ length start.now) × (1024 ≤ length end.now) }
    ensures { (result ≤ n)
        × ((c : Ranges)
        → c.node ≡ node.now
        → c.start ≡ start.now
        → c.end ≡ end.now
        → result ≡ ranges_across j k (ranges c (128 * s) n)) }
{
    let a = 128 * s;
    let e = a + 128;
    rule_cut::ranges_across(&node[a..e], &start[a..e], &end[a..e], n, j, k)
}

// Does some store have too few records left for a cut of node j at k?
pub fn records_over(
    node: &[usize],
    start: &[usize],
    end: &[usize],
    records: [usize; 8],
    stores: usize,
    j: usize,
    k: usize,
) -> bool
    requires { (stores ≤ 8)
        × ((s : ℕ) → s < stores → at records s ≤ 128)
        × (1024 ≤ length node.now)
        × (1024 ≤ length start.now)
        × (1024 ≤ length end.now) }
    ensures { (c : Ranges)
        → c.node ≡ node.now
        → c.start ≡ start.now
        → c.end ≡ end.now
        → result ≡ any stores (overfull j k c records) }
{
    for s in 0..stores {
        let n = records[s];
        if 128 < n + ranges_across(node, start, end, s, n, j, k) {
            return true;
        }
    }
    false
}

// How many new ids a cut of node j at k needs, over all stores.
pub fn ids_needed(
    node: &[usize],
    start: &[usize],
    end: &[usize],
    records: [usize; 8],
    stores: usize,
    j: usize,
    k: usize,
) -> usize
    requires { (stores ≤ 8)
        × ((s : ℕ) → s < stores → at records s ≤ 128)
        × (1024 ≤ length node.now)
        × (1024 ≤ length start.now)
        × (1024 ≤ length end.now) }
    ensures { (result ≤ 128 * stores)
        × ((c : Ranges)
        → c.node ≡ node.now
        → c.start ≡ start.now
        → c.end ≡ end.now
        → result ≡ ids_below j k c records stores) }
{
    let mut sum: usize = 0;
    for s in 0..stores {
        sum += ranges_across(node, start, end, s, records[s], j, k);
    }
    sum
}

// The first n pin entries of a part, cut; the columns as above.
fn cut_pin_part(
    node: &mut [usize],
    start: &mut [usize],
    end: &mut [usize],
    count: &mut [u64],
    n: usize,
    j: usize,
    k: usize,
    m: usize,
) -> usize
    requires { (n + pins_across_in j k n (pins_of node.old start.old end.old count.old) ≤ 32)
        × (counts (pins (pins_of node.old start.old end.old count.old) 0 n) ≤ max_pinned)
        × PinsSized 32 (pins_of node.old start.old end.old count.old) }
    ensures columns { pins_of node.new start.new end.new count.new ≡ cut_entries j k m n (pins_of node.old start.old end.old count.old) }
    ensures entries { result ≡ length (cut_pins j k m (pins (pins_of node.old start.old end.old count.old) 0 n)) }
{
    let mut part = PinsMut {
        node,
        start,
        end,
        count,
    };
    rule_cut_pins::cut_pins(&mut part, n, j, k, m)
}

// The pin entries of store s, cut: its part of each column is lent on.
pub fn cut_pins(
    node: &mut [usize],
    start: &mut [usize],
    end: &mut [usize],
    count: &mut [u64],
    s: usize,
    n: usize,
    j: usize,
    k: usize,
    m: usize,
) -> usize
    requires { (s < 8)
        × (n + pins_across j k (pins (pins_of node.old start.old end.old count.old) (32 * s) n) ≤ 32)
        × (counts (pins (pins_of node.old start.old end.old count.old) (32 * s) n) ≤ max_pinned)
        × PinsLent (pins_of node.old start.old end.old count.old) }
    ensures { (pins_of node.new start.new end.new count.new
        ≡ lay_pins (32 * s) (n + pins_across j k (pins (pins_of node.old start.old end.old count.old) (32 * s) n))
        (cut_pins j k m (pins (pins_of node.old start.old end.old count.old) (32 * s) n))
        (pins_of node.old start.old end.old count.old))
        × (result ≡ length (cut_pins j k m (pins (pins_of node.old start.old end.old count.old) (32 * s) n))) }
{
    let a = 32 * s;
    let e = a + 32;
    cut_pin_part(
        &mut node[a..e],
        &mut start[a..e],
        &mut end[a..e],
        &mut count[a..e],
        n,
        j,
        k,
        m,
    )
}

// How many pin entries of store s are across k on node j.
pub fn pins_across(
    node: &[usize],
    start: &[usize],
    end: &[usize],
    s: usize,
    n: usize,
    j: usize,
    k: usize,
) -> usize
    requires { (s < 8) × (n ≤ 32) × (256 ≤ length node.now) × (256 ≤ length start.now) × (256 ≤ length end.now) }
    ensures { (result ≤ n)
        × ((c : Pins)
        → c.node ≡ node.now
        → c.start ≡ start.now
        → c.end ≡ end.now
        → result ≡ pins_across j k (pins c (32 * s) n)) }
{
    let a = 32 * s;
    let e = a + 32;
    rule_cut_pins::pins_across(&node[a..e], &start[a..e], &end[a..e], n, j, k)
}

// Does some store have too few pin entries left for a cut of node j at k?
pub fn entries_over(
    node: &[usize],
    start: &[usize],
    end: &[usize],
    entries: [usize; 8],
    stores: usize,
    j: usize,
    k: usize,
) -> bool
    requires { (stores ≤ 8)
        × ((s : ℕ) → s < stores → at entries s ≤ 32)
        × (256 ≤ length node.now)
        × (256 ≤ length start.now)
        × (256 ≤ length end.now) }
    ensures { (c : Pins)
        → c.node ≡ node.now
        → c.start ≡ start.now
        → c.end ≡ end.now
        → result ≡ any stores (overpinned j k c entries) }
{
    for s in 0..stores {
        let n = entries[s];
        if 32 < n + pins_across(node, start, end, s, n, j, k) {
            return true;
        }
    }
    false
}

// The first n of src, in front of dst. A refusal must not write the lent path lists, so a path is found in local arrays first.
pub fn copy_front(dst: &mut [usize], src: &[usize], n: usize)
    requires { (n ≤ length src.now) × (n ≤ length dst.old) }
    ensures { dst.new ≡ front (take n src.now) dst.old }
{
    pool_range::copy_over(&mut dst[..n], &src[..n]);
}

// What a cut of node j at k is refused for: 8, 9, 11 or nothing, 0. `over` says whether some store has too few pin entries left.
fn cut_refusal(
    node: &[usize],
    start: &[usize],
    end: &[usize],
    over: bool,
    records: [usize; 8],
    stores: usize,
    next: u64,
    j: usize,
    k: usize,
) -> u8
    requires { (stores ≤ 8)
        × ((s : ℕ) → s < stores → at records s ≤ 128)
        × (1024 ≤ length node.now)
        × (1024 ≤ length start.now)
        × (1024 ≤ length end.now)
        × (next ≤ max_stamp) }
    ensures { (c : Ranges)
        → c.node ≡ node.now
        → c.start ≡ start.now
        → c.end ≡ end.now
        → result ≡ cut_refusal j k over c records stores next }
{
    if records_over(node, start, end, records, stores, j, k) {
        return 8;
    }
    if over {
        return 9;
    }
    let ids = ids_needed(node, start, end, records, stores, j, k);
    if 281474976710655 < next + ids as u64 {
        return 11;
    }
    0
}

// One node for the leaf, and one more for a cut.
fn node_need(inside: bool) -> usize
    ensures { result ≡ plus inside 1 }
{
    if inside { 2 } else { 1 }
}

// What an insert is refused for once the state is sound and no list is too short or too long: 6, 7, 8, 9, 11 or nothing, 0. It writes nothing.
pub fn insert_refusal(
    len: &[usize],
    node: &[usize],
    start: &[usize],
    end: &[usize],
    books: &[u64],
    over: bool,
    m: Match,
    count: usize,
) -> u8
    requires { (st : State) × (hs : List ℕ) × Seen len.now node.now start.now end.now books.now over m count st hs }
    ensures { (st : State) (hs : List ℕ)
        → Seen len.now node.now start.now end.now books.now over m count st hs
        → result ≡ insert_refusal st hs }
{
    if count <= m.blocks {
        return 0;
    }
    let j = m.node;
    let k = m.len;
    let inside = k < len[j];
    let nodes = books[0] as usize;
    if 256 < nodes + node_need(inside) {
        return 6;
    }
    let used = books[1] as usize;
    if 4096 < used + (count - m.blocks) {
        return 7;
    }
    if !inside {
        return 0;
    }
    let stores = books[2] as usize;
    let next = books[3];
    let records = records_of(books);
    cut_refusal(node, start, end, over, records, stores, next, j, k)
}

// The same with 9's test made here.
pub fn refusal(
    len: &[usize],
    node: &[usize],
    start: &[usize],
    end: &[usize],
    pin_node: &[usize],
    pin_start: &[usize],
    pin_end: &[usize],
    books: &[u64],
    m: Match,
    count: usize,
) -> u8
    requires { (st : State)
        × (hs : List ℕ)
        × Shown len.now node.now start.now end.now pin_node.now pin_start.now pin_end.now books.now m count st hs }
    ensures { (st : State) (hs : List ℕ)
        → Shown len.now node.now start.now end.now pin_node.now pin_start.now
        pin_end.now books.now m count st hs
        → result ≡ insert_refusal st hs }
{
    let stores = books[2] as usize;
    let entries = entries_of(books);
    let over = entries_over(pin_node, pin_start, pin_end, entries, stores, m.node, m.len);
    insert_refusal(len, node, start, end, books, over, m, count)
}

// The ranges and the marks of store s, of which n are used, cut; its pin entries are cut apart.
fn cut_range_half(
    node: &mut [usize],
    start: &mut [usize],
    end: &mut [usize],
    id: &mut [u64],
    stamp: &mut [u64],
    touched: &mut [f64],
    write: &mut [u32],
    marks: &mut [usize],
    s: usize,
    n: usize,
    j: usize,
    k: usize,
    m: usize,
    next: u64,
) -> After
    requires { RangesRoom j k m s n next (ranges_of node.old start.old end.old id.old stamp.old touched.old write.old) marks.old }
    ensures { RangesCut j k m s n next
        (ranges_of node.old start.old end.old id.old stamp.old touched.old
        write.old)
        marks.old
        (ranges_of node.new start.new end.new id.new stamp.new touched.new write.new)
        marks.new result }
{
    let cut = cut_ranges(
        node, start, end, id, stamp, touched, write, s, n, j, k, m, next,
    );
    cut_marks(node, marks, s, cut.n, j, k, m);
    cut
}

// The small numbers with those of store s after its cut. A cut pins no block more, so the count of pinned blocks stays.
fn cut_books(books: &mut [u64], s: usize, b: Book, cut: After, entries: usize)
    requires { (s < max_stores) × (max_numbers ≤ length books.old) }
    ensures { books.new ≡ lay_next cut.next (stalls_in books.old) (lay_book s (cut_book b cut.n entries) books.old) }
{
    let stalls = books[4];
    put_book(
        books,
        s,
        Book {
            records: cut.n,
            entries,
            ..b
        },
    );
    put_next(books, cut.next, stalls);
}

// Store s, cut: first its ranges and marks, then its pin entries.
pub fn cut_store(
    node: &mut [usize],
    start: &mut [usize],
    end: &mut [usize],
    id: &mut [u64],
    stamp: &mut [u64],
    touched: &mut [f64],
    write: &mut [u32],
    pin_node: &mut [usize],
    pin_start: &mut [usize],
    pin_end: &mut [usize],
    pin_count: &mut [u64],
    marks: &mut [usize],
    books: &mut [u64],
    s: usize,
    j: usize,
    k: usize,
    m: usize,
)
    requires { StoreRoom j k m s (ranges_of node.old start.old end.old id.old stamp.old touched.old write.old)
        (pins_of pin_node.old pin_start.old pin_end.old pin_count.old) marks.old books.old }
    ensures { (t : Tree) (bytes : List ℕ)
        → state_of t
        (ranges_of node.new start.new end.new id.new stamp.new touched.new write.new)
        (pins_of pin_node.new pin_start.new pin_end.new pin_count.new) marks.new bytes
        books.new
        ≡ cut_store_in j k m s
        (state_of t
        (ranges_of node.old start.old end.old id.old stamp.old touched.old
        write.old)
        (pins_of pin_node.old pin_start.old pin_end.old pin_count.old) marks.old
        bytes books.old) }
{
    let b = book_of(books, s);
    let cut = cut_range_half(
        node, start, end, id, stamp, touched, write, marks, s, b.records, j, k, m, books[3],
    );
    let entries = cut_pins(
        pin_node, pin_start, pin_end, pin_count, s, b.entries, j, k, m,
    );
    cut_books(books, s, b, cut, entries);
}

// Every store, cut, in the order of their numbers: so new ids go by store.
fn cut_stores(
    node: &mut [usize],
    start: &mut [usize],
    end: &mut [usize],
    id: &mut [u64],
    stamp: &mut [u64],
    touched: &mut [f64],
    write: &mut [u32],
    pin_node: &mut [usize],
    pin_start: &mut [usize],
    pin_end: &mut [usize],
    pin_count: &mut [u64],
    marks: &mut [usize],
    books: &mut [u64],
    j: usize,
    k: usize,
    m: usize,
)
    requires { StoresCuttable j k m (ranges_of node.old start.old end.old id.old stamp.old touched.old write.old)
        (pins_of pin_node.old pin_start.old pin_end.old pin_count.old) marks.old books.old }
    ensures { (t : Tree) (bytes : List ℕ)
        → state_of t
        (ranges_of node.new start.new end.new id.new stamp.new touched.new write.new)
        (pins_of pin_node.new pin_start.new pin_end.new pin_count.new) marks.new bytes
        books.new
        ≡ cut_stores j k m 0 (stores_in books.old)
        (state_of t
        (ranges_of node.old start.old end.old id.old stamp.old touched.old
        write.old)
        (pins_of pin_node.old pin_start.old pin_end.old pin_count.old) marks.old
        bytes books.old) }
{
    let stores = books[2] as usize;
    for s in 0..stores {
        cut_store(
            node, start, end, id, stamp, touched, write, pin_node, pin_start, pin_end, pin_count,
            marks, books, s, j, k, m,
        );
    }
}

// Node j, cut at k: first in the tree, then in every store. Words and byte table stay.
pub fn cut_all(
    parent: &mut [usize],
    depth: &mut [usize],
    len: &mut [usize],
    run: &mut [usize],
    words: &[u64],
    node: &mut [usize],
    start: &mut [usize],
    end: &mut [usize],
    id: &mut [u64],
    stamp: &mut [u64],
    touched: &mut [f64],
    write: &mut [u32],
    pin_node: &mut [usize],
    pin_start: &mut [usize],
    pin_end: &mut [usize],
    pin_count: &mut [u64],
    marks: &mut [usize],
    bytes: &[u64],
    books: &mut [u64],
    j: usize,
    k: usize,
)
    requires { Cuttable j k
        (state_from parent.old depth.old len.old run.old words.now node.old start.old end.old id.old stamp.old touched.old write.old
        pin_node.old pin_start.old pin_end.old pin_count.old marks.old bytes.now books.old) }
    ensures { state_from parent.new depth.new len.new run.new words.now node.new start.new
        end.new id.new stamp.new touched.new write.new pin_node.new
        pin_start.new pin_end.new pin_count.new marks.new bytes.now books.new
        ≡ cut j k
        (state_from parent.old depth.old len.old run.old words.now node.old
        start.old end.old id.old stamp.old touched.old write.old
        pin_node.old pin_start.old pin_end.old pin_count.old marks.old
        bytes.now books.old) }
{
    let nodes = books[0] as usize;
    let used = books[1] as usize;
    cut_tree(parent, depth, len, run, nodes, j, k);
    put_counts(books, nodes + 1, used);
    cut_stores(
        node, start, end, id, stamp, touched, write, pin_node, pin_start, pin_end, pin_count,
        marks, books, j, k, nodes,
    );
}
