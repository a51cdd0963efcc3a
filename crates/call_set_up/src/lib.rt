#![tactic(auto)]

ghost use Rattle.std.specs.Prelude.{◌≡◌, [], ◌∷◌, ℕ, ◌≤◌, length, set};
ghost use Rattle.model.specs.Words.{Says, Each};
ghost use Rattle.model.specs.Sizes.{max_numbers};
ghost use Rattle.model.specs.State.{at, book_from};
ghost use Rattle.model.specs.Sound.{TreeLent};
ghost use Rattle.model.specs.SetUp.{SetUpFits, policy, new_book};
ghost use Rattle.model.specs.Calls.{front, set_up};
ghost use Rattle.shape_state.specs.Lent.{tree_of};
ghost use Rattle.call_set_up.specs.Fresh.{fresh_books};
ghost use Rattle.shape_answer.specs.Answers.{state_from, outcome, plain_of};

use model::Book;
use shape_answer::Plain;

// ---- the test for 12

fn tree_lent(parent: &[usize], depth: &[usize], len: &[usize], run: &[usize], words: &[u64]) -> bool
    ensures { (nodes used : ℕ)
        → Says result (TreeLent (tree_of parent.now depth.now len.now run.now words.now nodes used)) }
{
    parent.len() >= 256
        && depth.len() >= 256
        && len.len() >= 256
        && run.len() >= 256
        && words.len() >= 4096
}

fn capacities_fit(capacity: &[u64]) -> bool
    ensures { Says result (Each 0 (length capacity.now) (λ (s : ℕ). at capacity.now s ≤ 1000000)) }
{
    capacity.iter().all(|&c| c <= 1000000)
}

// Whether sizes, capacities, byte table and pools are inside the rules, on any lists.
fn fits(
    parent: &[usize],
    depth: &[usize],
    len: &[usize],
    run: &[usize],
    words: &[u64],
    node: &[usize],
    start: &[usize],
    end: &[usize],
    id: &[u64],
    stamp: &[u64],
    touched: &[f64],
    write: &[u32],
    pin_node: &[usize],
    pin_start: &[usize],
    pin_end: &[usize],
    pin_count: &[u64],
    marks: &[usize],
    bytes: &[u64],
    books: &[u64],
    table: &[u64],
    capacity: &[u64],
    refreshes: &[bool],
) -> bool
    ensures { Says result
        (SetUpFits
        (state_from parent.now depth.now len.now run.now words.now node.now
        start.now end.now id.now stamp.now touched.now write.now
        pin_node.now pin_start.now pin_end.now pin_count.now marks.now
        bytes.now books.now)
        table.now capacity.now refreshes.now) }
{
    // A ladder: of twelve tests joined by && the check does not find what the last one tells.
    if capacity.is_empty() {
        return false;
    }
    if 8 < capacity.len() {
        return false;
    }
    if refreshes.len() != capacity.len() {
        return false;
    }
    if !capacities_fit(capacity) {
        return false;
    }
    if table.len() != 1025 {
        return false;
    }
    if !test_tree::table_rises(table) {
        return false;
    }
    if !tree_lent(parent, depth, len, run, words) {
        return false;
    }
    if !test_tree::ranges_lent(node, start, end, id, stamp, touched, write) {
        return false;
    }
    if !test_tree::pins_lent(pin_node, pin_start, pin_end, pin_count) {
        return false;
    }
    if marks.len() < 2048 {
        return false;
    }
    if bytes.len() < 1025 {
        return false;
    }
    if !pool_book::long_enough(books) {
        return false;
    }
    true
}

// ---- what set-up writes

// `from` in front of what stands in `to`.
fn copy_in(to: &mut [u64], from: &[u64])
    requires { length from.now ≤ length to.old }
    ensures { to.new ≡ front from.now to.old }
{
    pool_range::copy_over(&mut to[..from.len()], from);
}

// A store's own numbers: its capacity and its policy, everything else 0.
fn new_book(capacity: u64, refreshes: bool) -> Book
    ensures { result ≡ book_from (capacity ∷ policy refreshes ∷ []) }
{
    pool_book::new_book(capacity, u64::from(refreshes))
}

// The same of store s; 0 past the lists.
fn book_at(capacity: &[u64], refreshes: &[bool], s: usize) -> Book
    requires { length refreshes.now ≡ length capacity.now }
    ensures { result ≡ new_book capacity.now refreshes.now s }
{
    if s < capacity.len() {
        new_book(capacity[s], refreshes[s])
    } else {
        new_book(0, false)
    }
}

// The small numbers: the root only, the stores, next id 1, everything else 0; what stands past them stays.
fn fresh_books(books: &mut [u64], capacity: &[u64], refreshes: &[bool])
    requires { (max_numbers ≤ length books.old) × (length refreshes.now ≡ length capacity.now) }
    ensures { books.new ≡ fresh_books capacity.now refreshes.now books.old }
{
    for s in 0..8 {
        pool_book::put_book(books, s, book_at(capacity, refreshes, s));
    }
    pool_book::put_counts(books, 1, 0);
    books[2] = capacity.len() as u64;
    pool_book::put_next(books, 1, 0);
}

// Node 0 with length and depth 0.
fn root_only(parent: &mut [usize], depth: &mut [usize], len: &mut [usize], run: &mut [usize])
    requires { (1 ≤ length parent.old) × (1 ≤ length depth.old) × (1 ≤ length len.old) × (1 ≤ length run.old) }
    ensures { (parent.new ≡ set parent.old 0 0)
        × (depth.new ≡ set depth.old 0 0)
        × (len.new ≡ set len.old 0 0)
        × (run.new ≡ set run.old 0 0) }
{
    parent[0] = 0;
    depth[0] = 0;
    len[0] = 0;
    run[0] = 0;
}

// Sets up the tree and the stores, one for each capacity; or refuses by 12.
pub fn set_up(
    parent: &mut [usize],
    depth: &mut [usize],
    len: &mut [usize],
    run: &mut [usize],
    words: &[u64],
    node: &[usize],
    start: &[usize],
    end: &[usize],
    id: &[u64],
    stamp: &[u64],
    touched: &[f64],
    write: &[u32],
    pin_node: &[usize],
    pin_start: &[usize],
    pin_end: &[usize],
    pin_count: &[u64],
    marks: &mut [usize],
    bytes: &mut [u64],
    books: &mut [u64],
    table: &[u64],
    capacity: &[u64],
    refreshes: &[bool],
) -> Plain
    ensures { outcome
        (state_from parent.new depth.new len.new run.new words.now node.now
        start.now end.now id.now stamp.now touched.now write.now
        pin_node.now pin_start.now pin_end.now pin_count.now marks.new
        bytes.new books.new)
        tt (plain_of result)
        ≡ set_up
        (state_from parent.old depth.old len.old run.old words.now node.now
        start.now end.now id.now stamp.now touched.now write.now
        pin_node.now pin_start.now pin_end.now pin_count.now marks.old
        bytes.old books.old)
        table.now capacity.now refreshes.now }
{
    if !fits(
        parent, depth, len, run, words, node, start, end, id, stamp, touched, write, pin_node,
        pin_start, pin_end, pin_count, marks, bytes, books, table, capacity, refreshes,
    ) {
        return Plain::Refused(12);
    }
    root_only(parent, depth, len, run);
    pool_mark::clear_marks(marks);
    copy_in(bytes, table);
    fresh_books(books, capacity, refreshes);
    Plain::Done
}
