#![tactic(auto)]
// A store's own numbers, read from its part of the small numbers and written back; the tree's counts, the next id and the stalls. All but the
// test take a list that is long enough.
ghost use Rattle.std.specs.Prelude.{◌≡◌, ◌+◌, ◌*◌, ◌<◌, ◌≤◌, [], ◌∷◌, length, take, drop};
ghost use Rattle.std.proofs.Math.Seq.{paste};
ghost use Rattle.model.specs.Words.{Says};
ghost use Rattle.model.specs.Sizes.{max_stores, store_numbers, max_numbers};
ghost use Rattle.model.specs.State.{numbers, book_from, book_in};
ghost use Rattle.model.specs.Store.{ranged, lay_book, lay_next, lay_counts};
ghost use Rattle.model.specs.Remove.{version_past};
ghost use Rattle.pool_book.specs.Books.{records_in, entries_in};

use model::Book;
use std::array;

// How many numbers there are in all.
pub fn books_size() -> usize
    ensures { result ≡ max_numbers }
{
    69
}

// Is the list long enough?
pub fn long_enough(books: &[u64]) -> bool
    ensures { Says result (max_numbers ≤ length books.now) }
{
    books_size() <= books.len()
}

// ---- a store's own numbers in their order, and the place of its part

fn row_of(b: Book) -> [u64; 8]
    ensures { result ≡ numbers b }
{
    [
        b.capacity,
        b.policy,
        b.records as u64,
        b.held,
        b.stamp,
        b.version,
        b.entries as u64,
        b.pinned,
    ]
}

fn book_from(row: &[u64]) -> Book
    requires { length row.now ≡ store_numbers }
    ensures { result ≡ book_from row.now }
{
    Book {
        capacity: row[0],
        policy: row[1],
        records: row[2] as usize,
        held: row[3],
        stamp: row[4],
        version: row[5],
        entries: row[6] as usize,
        pinned: row[7],
    }
}

// As set-up has it: a capacity, a policy, and 0 for the rest.
pub fn new_book(capacity: u64, policy: u64) -> Book
    ensures { result ≡ book_from (capacity ∷ policy ∷ []) }
{
    book_from(&[capacity, policy, 0, 0, 0, 0, 0, 0])
}

fn first_of(s: usize) -> usize
    requires { s < max_stores }
    ensures { result ≡ 5 + store_numbers * s }
{
    5 + 8 * s
}

// ---- read and written

pub fn book_of(books: &[u64], s: usize) -> Book
    requires { (s < max_stores) × (max_numbers ≤ length books.now) }
    ensures { result ≡ book_in books.now s }
{
    let a = first_of(s);
    book_from(&books[a..a + 8])
}

// b for store s.
pub fn put_book(books: &mut [u64], s: usize, b: Book)
    requires { (s < max_stores) × (max_numbers ≤ length books.old) }
    ensures { books.new ≡ lay_book s b books.old }
{
    let a = first_of(s);
    books[a..a + 8].copy_from_slice(&row_of(b));
}

// b for store s after a rule on its ranges: these four are new, the rest stays.
pub fn put_ranged(
    books: &mut [u64],
    s: usize,
    b: Book,
    records: usize,
    held: u64,
    stamp: u64,
    version: u64,
)
    requires { (s < max_stores) × (max_numbers ≤ length books.old) }
    ensures { books.new ≡ lay_book s (ranged b records held stamp version) books.old }
{
    let new = Book {
        records,
        held,
        stamp,
        version,
        ..b
    };
    put_book(books, s, new);
}

// The next id and the stalls.
pub fn put_next(books: &mut [u64], next: u64, stalls: u64)
    requires { max_numbers ≤ length books.old }
    ensures { books.new ≡ lay_next next stalls books.old }
{
    books[3] = next;
    books[4] = stalls;
}

// How many nodes and hash words are in use.
pub fn put_counts(books: &mut [u64], nodes: usize, used: usize)
    requires { max_numbers ≤ length books.old }
    ensures { books.new ≡ lay_counts nodes used books.old }
{
    books[0] = nodes as u64;
    books[1] = used as u64;
}

// Each store's used records.
pub fn records_of(books: &[u64]) -> [usize; 8]
    requires { max_numbers ≤ length books.now }
    ensures { result ≡ records_in books.now }
{
    array::from_fn(|s| book_of(books, s).records)
}

// Each store's used pin entries.
pub fn entries_of(books: &[u64]) -> [usize; 8]
    requires { max_numbers ≤ length books.now }
    ensures { result ≡ entries_in books.now }
{
    array::from_fn(|s| book_of(books, s).entries)
}

// The version, one higher if a block went.
pub fn version_past(removed: u64, version: u64) -> u64
    ensures { result ≡ version_past removed version }
{
    if removed == 0 {
        version
    } else {
        version.wrapping_add(1)
    }
}
