#![tactic(auto)]
// The lines of the Monday report, written on a page (`write_..`), or from a place on in a buffer that the caller lends (`put_..`).
ghost use Rattle.std.specs.Prelude.{◌+◌, ◌*◌, ◌≤◌, ◌<◌, length};
ghost use Rattle.model.specs.Sizes.{max_stores, max_numbers};
ghost use Rattle.model.specs.State.{stores_in};
ghost use Rattle.text_page.specs.Page.{Wrote};
ghost use Rattle.text_report.specs.Lent.{PutAtMost};

use model::Book;
use text_answer::put_rules;
use text_page::Page;
use text_print::put_bytes;

// The sums stand eight to a figure, in the order of the line; then lookups, their blocks and their bytes.
#[derive(Clone, Copy)]
enum Figure {
    In,
    Room,
    Age,
    Back,
    Removed,
    Bytes,
    Dead,
}

fn sum_at(sums: &[u64], figure: Figure, s: usize) -> u64
    requires { (s < 8) × (59 ≤ length sums.now) }
{
    sums[8 * figure as usize + s]
}

// ` in=I room=R age=A`
fn put_blocks<const N: usize>(page: &mut Page<N>, sums: &[u64], s: usize)
    requires { (s < 8) × (59 ≤ length sums.now) × (length page.old + 128 ≤ N) }
    ensures { Wrote 75 page.old page.new }
{
    page.push_field(b" in=", sum_at(sums, Figure::In, s));
    page.push_field(b" room=", sum_at(sums, Figure::Room, s));
    page.push_field(b" age=", sum_at(sums, Figure::Age, s));
}

// ` back=K removed=D`
fn put_gone<const N: usize>(page: &mut Page<N>, sums: &[u64], s: usize)
    requires { (s < 8) × (59 ≤ length sums.now) × (length page.old + 128 ≤ N) }
    ensures { Wrote 55 page.old page.new }
{
    page.push_field(b" back=", sum_at(sums, Figure::Back, s));
    page.push_field(b" removed=", sum_at(sums, Figure::Removed, s));
}

// ` held=H bytes=Y dead=Z`
fn put_held<const N: usize>(page: &mut Page<N>, sums: &[u64], s: usize, held: u64)
    requires { (s < 8) × (59 ≤ length sums.now) × (length page.old + 128 ≤ N) }
    ensures { Wrote 79 page.old page.new }
{
    page.push_field(b" held=", held);
    page.push_field(b" bytes=", sum_at(sums, Figure::Bytes, s));
    page.push_field(b" dead=", sum_at(sums, Figure::Dead, s));
}

// A store's line, from its own numbers and its sums.
pub fn write_store<const N: usize>(page: &mut Page<N>, sums: &[u64], s: usize, b: Book)
    requires { (s < 8) × (59 ≤ length sums.now) × (length page.old + 512 ≤ N) }
    ensures { Wrote 300 page.old page.new }
{
    put_rules(page, b"store ", s, b.capacity, b.policy == 1);
    put_blocks(page, sums, s);
    put_gone(page, sums, s);
    put_held(page, sums, s, b.held);
    page.end_line();
}

// A line for each store.
fn put_stores<const N: usize>(page: &mut Page<N>, books: &[u64], sums: &[u64])
    requires { (stores_in books.now ≤ max_stores) × (max_numbers ≤ length books.now) × (59 ≤ length sums.now) × (length page.old + 4096 ≤ N) }
    ensures { Wrote 2400 page.old page.new }
{
    for s in 0..books[2] as usize {
        write_store(page, sums, s, pool_book::book_of(books, s));
    }
}

// `lookups N blocks B bytes Y`
pub fn write_lookups<const N: usize>(page: &mut Page<N>, sums: &[u64])
    requires { (59 ≤ length sums.now) × (length page.old + 128 ≤ N) }
    ensures { Wrote 96 page.old page.new }
{
    page.push_field(b"lookups ", sums[56]);
    page.push_field(b" blocks ", sums[57]);
    page.push_field(b" bytes ", sums[58]);
    page.end_line();
}

// `refused NUMBER TIMES`, where it came at all.
fn put_refusal<const N: usize>(page: &mut Page<N>, number: usize, times: u64)
    requires { length page.old + 96 ≤ N }
    ensures { Wrote 64 page.old page.new }
{
    if times != 0 {
        page.push_field(b"refused ", number as u64);
        page.push_field(b" ", times);
        page.end_line();
    }
}

// A line for each number from `first` on that came: times[n] is how often n did.
fn put_refusals<const N: usize>(page: &mut Page<N>, times: &[u64], first: usize)
    requires { (first ≤ length times.now) × (length page.old + 64 * length times.now + 96 ≤ N) }
    ensures { Wrote (64 * length times.now) page.old page.new }
{
    for n in first..times.len() {
        put_refusal(page, n, times[n]);
    }
}

// `unreadable TIMES`
fn put_unreadable<const N: usize>(page: &mut Page<N>, times: u64)
    requires { length page.old + 64 ≤ N }
    ensures { Wrote 64 page.old page.new }
{
    page.push_field(b"unreadable ", times);
    page.end_line();
}

// What ends a report: the refusals by number, times[n] for number n, and the lines that were unreadable.
pub fn write_refused<const N: usize>(page: &mut Page<N>, times: &[u64], unreadable: u64)
    requires { (length times.now ≤ 32) × (length page.old + 4096 ≤ N) }
    ensures { Wrote 2112 page.old page.new }
{
    put_refusals(page, times, 0);
    put_unreadable(page, unreadable);
}

// The whole report, from the stores' own numbers, the sums, and how many lines were refused, by number, or unreadable, which is counts[0].
pub fn write_report<const N: usize>(
    page: &mut Page<N>,
    books: &[u64],
    sums: &[u64],
    counts: &[u64; 256],
)
    requires { (stores_in books.now ≤ max_stores)
        × (max_numbers ≤ length books.now)
        × (59 ≤ length sums.now)
        × (length page.old + 32768 ≤ N) }
    ensures { Wrote 32768 page.old page.new }
{
    put_stores(page, books, sums);
    write_lookups(page, sums);
    put_refusals(page, counts, 1);
    put_unreadable(page, counts[0]);
}

// A store's line.
pub fn put_store(out: &mut [u8], at: usize, sums: &[u64], s: usize, b: Book) -> usize
    requires { (s < 8) × (59 ≤ length sums.now) × (at + 512 ≤ length out.old) }
    ensures { PutAtMost at 300 out.old out.new result }
{
    let mut line: Page<512> = Page::new();
    write_store(&mut line, sums, s, b);
    put_bytes(out, at, line.bytes())
}

// The lookups' line.
pub fn put_lookups(out: &mut [u8], at: usize, sums: &[u64]) -> usize
    requires { (59 ≤ length sums.now) × (at + 128 ≤ length out.old) }
    ensures { PutAtMost at 96 out.old out.new result }
{
    let mut total: Page<128> = Page::new();
    write_lookups(&mut total, sums);
    put_bytes(out, at, total.bytes())
}

// What ends a report.
pub fn put_refused(out: &mut [u8], at: usize, times: &[u64], unreadable: u64) -> usize
    requires { (length times.now ≤ 32) × (at + 4096 ≤ length out.old) }
    ensures { PutAtMost at 2112 out.old out.new result }
{
    let mut ending: Page<4096> = Page::new();
    write_refused(&mut ending, times, unreadable);
    put_bytes(out, at, ending.bytes())
}

// The whole report, in front.
pub fn put_report(out: &mut [u8], books: &[u64], sums: &[u64], counts: &[u64; 256]) -> usize
    requires { (stores_in books.now ≤ max_stores)
        × (max_numbers ≤ length books.now)
        × (59 ≤ length sums.now)
        × (32768 ≤ length out.old) }
    ensures { PutAtMost 0 32768 out.old out.new result }
{
    let mut page: Page<32768> = Page::new();
    write_report(&mut page, books, sums, counts);
    put_bytes(out, 0, page.bytes())
}

#[cfg(test)]
mod tests;
