#![tactic(auto)]
// Reads a set-up and operations on standard input and writes the sums at its end. docs/REPORT.md has the form.
ghost use Rattle.std.specs.Prelude.{◌≤◌};
ghost use Rattle.model.specs.Sizes.{max_stores};
ghost use Rattle.model.specs.State.{stores_in};

use known::{NUMBERS, Plain};
use std::io::Result;
use text_input::Lines;
use text_lines::{Lists, Op};
use text_page::Page;

// The set-up is refused.
fn print_refused(n: u8) {
    let mut page: Page<64> = Page::new();
    text_answer::put_refused(&mut page, n);
    let text = page.bytes();
    io::write_all(1, text);
}

// The whole report.
fn print_report(books: &[u64; NUMBERS], sums: &[u64; 59], counts: &[u64; 256])
    requires { stores_in books.now ≤ max_stores }
{
    let mut page: Page<32768> = Page::new();
    text_report::write_report(&mut page, books, sums, counts);
    let text = page.bytes();
    io::write_all(1, text);
}

// A proved loop has to end, and nothing says that the input does: the turns are counted up to a number that no run reaches. Where a read fails,
// nothing is printed: the sums would be those of a part of the operations.
fn main(rt: HostRuntime) -> Result<()> {
    let mut parent = [0usize; 256];
    let mut depth = [0usize; 256];
    let mut len = [0usize; 256];
    let mut run = [0usize; 256];
    let mut words = [0u64; 4096];
    let mut node = [0usize; 1024];
    let mut start = [0usize; 1024];
    let mut end = [0usize; 1024];
    let mut id = [0u64; 1024];
    let mut stamp = [0u64; 1024];
    let mut touched = [0.0f64; 1024];
    let mut write = [0u32; 1024];
    let mut pin_node = [0usize; 256];
    let mut pin_start = [0usize; 256];
    let mut pin_end = [0usize; 256];
    let mut pin_count = [0u64; 256];
    let mut marks = [0usize; 2048];
    let mut bytes = [0u64; 1025];
    let mut books = [0u64; NUMBERS];
    let mut sums = [0u64; 59];
    let mut counts = [0u64; 256];
    let mut input = rt.stdin();
    let mut lines = Lines::new();
    let mut lists = Lists::new();
    let Some(Op::SetUp(k, n)) = lines.first_op(&mut input, &mut lists)? else {
        io::write_all(1, b"unreadable\n");
        return Ok(());
    };
    let r = prog_report::begin(
        &mut parent,
        &mut depth,
        &mut len,
        &mut run,
        &words,
        &node,
        &start,
        &end,
        &id,
        &stamp,
        &touched,
        &write,
        &pin_node,
        &pin_start,
        &pin_end,
        &pin_count,
        &mut marks,
        &mut bytes,
        &mut books,
        &lists.numbers[..k],
        &lists.capacity[..n],
        &lists.refreshes[..n],
    );
    if let Plain::Refused(number) = r {
        print_refused(number);
        return Ok(());
    }
    for _ in 0..u64::MAX {
        let Some(op) = lines.next_op(&mut input, &mut lists)? else {
            print_report(&books, &sums, &counts);
            return Ok(());
        };
        prog_report::call(
            &mut parent,
            &mut depth,
            &mut len,
            &mut run,
            &mut words,
            &mut node,
            &mut start,
            &mut end,
            &mut id,
            &mut stamp,
            &mut touched,
            &mut write,
            &mut pin_node,
            &mut pin_start,
            &mut pin_end,
            &mut pin_count,
            &mut marks,
            &bytes,
            &mut books,
            &mut sums,
            &mut counts,
            &lists.numbers,
            &lists.spans,
            &lists.tiers,
            op,
        );
    }
    Ok(())
}
