#![tactic(auto)]

ghost use Rattle.std.specs.Prelude.{◌≡◌, ℕ, ◌≤◌, ◌<◌, length};
ghost use Rattle.model.specs.Sizes.{max_stores, max_numbers};
ghost use Rattle.model.specs.State.{State, stores_in, book_in};
ghost use Rattle.model.specs.Calls.{held_call, capacity_call, pinned_call, available_call, version_call, stalls_call};
ghost use Rattle.shape_answer.specs.Answers.{count_of};
ghost use Rattle.call_count.specs.Counted.{Of};

use model::Book;
use shape_answer::Count;

// What is counted of the numbers of store s.
fn of_store<F: FnOnce(Book) -> u64>(books: &[u64], s: usize, count: F) -> Count
    requires stores { stores_in books.now ≤ max_stores }
    requires long { max_numbers ≤ length books.now }
    requires callable { F.IsAlwaysCallable count }
    ensures refused { stores_in books.now ≤ s → result ≡ Count.Refused 2 }
    ensures counted { s < stores_in books.now → (v : ℕ) × (result ≡ Count.Done v) × F.post count (book_in books.now s) v }
{
    if s < books[2] as usize {
        Count::Done(count(pool_book::book_of(books, s)))
    } else {
        Count::Refused(2)
    }
}

// The blocks that store s holds.
pub fn store_held_blocks(books: &[u64], s: usize) -> Count
    requires { (stores_in books.now ≤ max_stores) × (max_numbers ≤ length books.now) }
    ensures { (st : State) → Of books.now st → count_of result ≡ (held_call st s).answer }
{
    of_store(books, s, |b| b.held)
}

// The capacity of store s, in blocks.
pub fn store_capacity_blocks(books: &[u64], s: usize) -> Count
    requires { (stores_in books.now ≤ max_stores) × (max_numbers ≤ length books.now) }
    ensures { (st : State) → Of books.now st → count_of result ≡ (capacity_call st s).answer }
{
    of_store(books, s, |b| b.capacity)
}

// The pinned blocks of store s.
pub fn store_pinned_blocks(books: &[u64], s: usize) -> Count
    requires { (stores_in books.now ≤ max_stores) × (max_numbers ≤ length books.now) }
    ensures { (st : State) → Of books.now st → count_of result ≡ (pinned_call st s).answer }
{
    of_store(books, s, |b| b.pinned)
}

// The available blocks of store s: its capacity less its pinned blocks, or 0.
pub fn store_available_for_stage(books: &[u64], s: usize) -> Count
    requires { (stores_in books.now ≤ max_stores) × (max_numbers ≤ length books.now) }
    ensures { (st : State) → Of books.now st → count_of result ≡ (available_call st s).answer }
{
    of_store(books, s, |b| b.capacity.saturating_sub(b.pinned))
}

// The version of store s.
pub fn source_version(books: &[u64], s: usize) -> Count
    requires { (stores_in books.now ≤ max_stores) × (max_numbers ≤ length books.now) }
    ensures { (st : State) → Of books.now st → count_of result ≡ (version_call st s).answer }
{
    of_store(books, s, |b| b.version)
}

// How often a trim stalled on pins, over all stores.
pub fn pin_stalls(books: &[u64]) -> Count
    requires { max_numbers ≤ length books.now }
    ensures { (st : State) → Of books.now st → count_of result ≡ (stalls_call st).answer }
{
    Count::Done(books[4])
}
