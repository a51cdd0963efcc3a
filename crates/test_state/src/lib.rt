#![tactic(auto)]

ghost use Rattle.std.specs.Prelude.{◌≡◌, ℕ, ◌+◌, ◌*◌, ◌%◌, ◌≤◌, ◌<◌, length};
ghost use Rattle.model.specs.Words.{Says, Each};
ghost use Rattle.model.specs.Sizes.{max_numbers};
ghost use Rattle.model.specs.State.{at, nodes_in, used_in, stores_in, book_in};
ghost use Rattle.model.specs.Sound.{StoreCounts, Sound};
ghost use Rattle.shape_state.specs.Lent.{tree_of, ranges_of, pins_of, state_of};
ghost use Rattle.test_tree.specs.Chain.{Chain, reach};
ghost use Rattle.test_state.specs.Ids.{Live, Differ, Fresh, id_bucket};
ghost use Rattle.test_state.specs.Stores.{NumbersFit, CountsFit, StoreRecords, StorePins, StoreMarks};

use model::Book;

const MAX_STAMP: u64 = 281474976710655;

const MAX_STALLS: u64 = 281474976710656;

fn numbers_fit(books: &[u64]) -> bool
    requires { max_numbers ≤ length books.now }
    ensures { Says result (NumbersFit books.now) }
{
    (1..=8).contains(&books[2]) && (1..=MAX_STAMP).contains(&books[3]) && books[4] <= MAX_STALLS
}

fn counts_fit(b: Book) -> bool
    ensures { Says result (StoreCounts b) }
{
    b.capacity <= 1000000
        && b.policy <= 1
        && b.records <= 128
        && b.entries <= 32
        && b.pinned <= 1000000
        && b.stamp <= MAX_STAMP
}

fn all_counts_fit(books: &[u64]) -> bool
    requires { (max_numbers ≤ length books.now) × (stores_in books.now ≤ 8) }
    ensures { Says result (Each 0 (stores_in books.now) (CountsFit books.now)) }
{
    let stores = books[2] as usize;
    (0..stores).all(|s| counts_fit(pool_book::book_of(books, s)))
}

// Each store's records: its 128 places of the pool of ranges.
fn all_records_fit(
    len: &[usize],
    node: &[usize],
    start: &[usize],
    end: &[usize],
    id: &[u64],
    stamp: &[u64],
    touched: &[f64],
    books: &[u64],
) -> bool
    requires { (max_numbers ≤ length books.now)
        × (stores_in books.now ≤ 8)
        × (nodes_in books.now ≤ length len.now)
        × (1024 ≤ length node.now)
        × (1024 ≤ length start.now)
        × (1024 ≤ length end.now)
        × (1024 ≤ length id.now)
        × (1024 ≤ length stamp.now)
        × (1024 ≤ length touched.now)
        × ((k : ℕ) → k < nodes_in books.now → at len.now k ≤ 1024)
        × Each 0 (stores_in books.now) (CountsFit books.now) }
    ensures { Says result
        (Each 0 (stores_in books.now)
        (StoreRecords len.now node.now start.now end.now id.now stamp.now
        touched.now (nodes_in books.now) books.now)) }
{
    let nodes = books[0] as usize;
    let stores = books[2] as usize;
    let next = books[3];
    (0..stores).all(|s| {
        let b = pool_book::book_of(books, s);
        test_store::records_fit(
            len,
            node,
            start,
            end,
            id,
            stamp,
            touched,
            nodes,
            next,
            128 * s,
            b.records,
            b.stamp,
            b.held,
            b.capacity,
        )
    })
}

// Each store's pin entries: its 32 places of the pool of pin entries.
fn all_pins_fit(
    len: &[usize],
    node: &[usize],
    start: &[usize],
    end: &[usize],
    count: &[u64],
    books: &[u64],
) -> bool
    requires { (max_numbers ≤ length books.now)
        × (stores_in books.now ≤ 8)
        × (nodes_in books.now ≤ length len.now)
        × (256 ≤ length node.now)
        × (256 ≤ length start.now)
        × (256 ≤ length end.now)
        × (256 ≤ length count.now)
        × ((k : ℕ) → k < nodes_in books.now → at len.now k ≤ 1024)
        × Each 0 (stores_in books.now) (CountsFit books.now) }
    ensures { Says result
        (Each 0 (stores_in books.now)
        (StorePins len.now node.now start.now end.now count.now (nodes_in books.now)
        books.now)) }
{
    let nodes = books[0] as usize;
    let stores = books[2] as usize;
    (0..stores).all(|s| {
        let b = pool_book::book_of(books, s);
        test_store::pins_fit(
            len,
            node,
            start,
            end,
            count,
            nodes,
            32 * s,
            b.entries,
            b.pinned,
        )
    })
}

// Each store's marks: its 256 places of the pool of marks.
fn all_marks_fit(len: &[usize], node: &[usize], marks: &[usize], books: &[u64]) -> bool
    requires { (max_numbers ≤ length books.now)
        × (stores_in books.now ≤ 8)
        × (nodes_in books.now ≤ 256)
        × (256 ≤ length len.now)
        × (1024 ≤ length node.now)
        × (2048 ≤ length marks.now)
        × Each 0 (stores_in books.now) (CountsFit books.now)
        × Each 0 (stores_in books.now)
        (λ (s : ℕ). Each (128 * s) (128 * s + (book_in books.now s).records) (λ (i : ℕ). at node.now i < nodes_in books.now)) }
    ensures { Says result
        (Each 0 (stores_in books.now)
        (StoreMarks len.now node.now marks.now (nodes_in books.now) books.now)) }
{
    let nodes = books[0] as usize;
    let stores = books[2] as usize;
    (0..stores).all(|s| {
        let a = 128 * s;
        let b = a + pool_book::book_of(books, s).records;
        test_store::marks_fit(len, node, marks, nodes, a, b, 256 * s)
    })
}

// No record of the chain that begins at the link `from` has the id `y`.
fn fresh(id: &[u64], books: &[u64], prev: &[Option<u16>], from: Option<u16>, y: u64) -> bool
    requires { (reach from ≤ length id.now)
        × (reach from ≤ length prev.now)
        × Chain (id_bucket id.now) (Live books.now) prev.now (reach from)
        × ((j : ℕ) → reach from ≡ j + 1 → Live books.now j × (id_bucket id.now j ≡ y % 1024)) }
    ensures { Says result (Fresh id.now books.now (reach from) y) }
{
    let mut link = from;
    while let Some(j) = link {
        let j = usize::from(j);
        if id[j] == y {
            return false;
        }
        link = prev[j];
    }
    true
}

fn ids_differ(id: &[u64], books: &[u64]) -> bool
    requires { (max_numbers ≤ length books.now) × (stores_in books.now ≤ 8) × (1024 ≤ length id.now) }
    ensures { Says result (Differ id.now books.now (128 * stores_in books.now)) }
{
    let mut last = [None; 1024];
    let mut prev = [None; 1024];
    let stores = books[2] as usize;
    let records = pool_book::records_of(books);
    let n = 128 * stores;
    for k in 0..n {
        if records[k / 128] <= k % 128 {
            continue;
        }
        let y = id[k];
        let bucket = (y % 1024) as usize;
        let from = last[bucket];
        if !fresh(id, books, &prev, from, y) {
            return false;
        }
        prev[k] = from;
        last[bucket] = Some(k as u16);
    }
    true
}

// Whether the state is sound, on any pools and any small numbers, of any length.
#[tactic(auto, using(crate::proofs::State::sound_says))]
pub fn sound_state(
    parent: &[usize],
    depth: &[usize],
    len: &[usize],
    run: &[usize],
    words: &[u64],
    node: &[usize],
    start: &[usize],
    end: &[usize],
    id: &[u64],
    stamp: &[u64],
    touched: &[f64],
    write: &[u32],
    pin_node: &[usize],
    pin_start: &[usize],
    pin_end: &[usize],
    pin_count: &[u64],
    marks: &[usize],
    bytes: &[u64],
    books: &[u64],
) -> bool
    ensures { Says result
        (Sound
        (state_of
        (tree_of parent.now depth.now len.now run.now words.now (nodes_in books.now)
        (used_in books.now))
        (ranges_of node.now start.now end.now id.now stamp.now touched.now
        write.now)
        (pins_of pin_node.now pin_start.now pin_end.now pin_count.now)
        marks.now bytes.now books.now)) }
{
    pool_book::long_enough(books)
        && numbers_fit(books)
        && all_counts_fit(books)
        && test_tree::ranges_lent(node, start, end, id, stamp, touched, write)
        && test_tree::pins_lent(pin_node, pin_start, pin_end, pin_count)
        && marks.len() >= 2048
        && test_tree::table_rises(bytes)
        && test_tree::tree_sound(
            parent,
            depth,
            len,
            run,
            words,
            books[0] as usize,
            books[1] as usize,
        )
        && all_records_fit(len, node, start, end, id, stamp, touched, books)
        && all_pins_fit(len, pin_node, pin_start, pin_end, pin_count, books)
        && all_marks_fit(len, node, marks, books)
        && ids_differ(id, books)
}
