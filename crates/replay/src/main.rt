#![tactic(auto)]
// Reads the lines of the replay form on standard input and writes an answer line for each. docs/REPLAY.md has the form.
ghost use Rattle.std.specs.Prelude.{◌≤◌, length};

use known::NUMBERS;
use std::io::Result;
use text_input::Lines;
use text_lines::Lists;
use text_page::{Page, ROOM};

// What was written goes out where it is more than `most` bytes.
fn flush(page: &mut Page<ROOM>, most: usize)
    ensures { length page.new ≤ most }
{
    let text = page.bytes();
    if most < text.len() {
        io::write_all(1, text);
        page.clear();
    }
}

// A proved loop has to end, and nothing says that the input does: the turns are counted up to a number that no run reaches. Where a read fails, the
// answers up to there go out first.
fn main(rt: HostRuntime) -> Result<()> {
    let mut parent = [0usize; 256];
    let mut depth = [0usize; 256];
    let mut len = [0usize; 256];
    let mut run = [0usize; 256];
    let mut words = [0u64; 4096];
    let mut node = [0usize; 1024];
    let mut start = [0usize; 1024];
    let mut end = [0usize; 1024];
    let mut id = [0u64; 1024];
    let mut stamp = [0u64; 1024];
    let mut touched = [0.0f64; 1024];
    let mut write = [0u32; 1024];
    let mut pin_node = [0usize; 256];
    let mut pin_start = [0usize; 256];
    let mut pin_end = [0usize; 256];
    let mut pin_count = [0u64; 256];
    let mut marks = [0usize; 2048];
    let mut bytes = [0u64; 1025];
    let mut books = [0u64; NUMBERS];
    let mut input = rt.stdin();
    let mut lines = Lines::new();
    let mut lists = Lists::new();
    let mut page: Page<ROOM> = Page::new();
    for _ in 0..u64::MAX {
        let op = match lines.next_op(&mut input, &mut lists) {
            Ok(Some(op)) => op,
            Ok(None) => {
                flush(&mut page, 0);
                return Ok(());
            }
            Err(e) => {
                flush(&mut page, 0);
                return Err(e);
            }
        };
        prog_calls::call_on_page(
            &mut parent,
            &mut depth,
            &mut len,
            &mut run,
            &mut words,
            &mut node,
            &mut start,
            &mut end,
            &mut id,
            &mut stamp,
            &mut touched,
            &mut write,
            &mut pin_node,
            &mut pin_start,
            &mut pin_end,
            &mut pin_count,
            &mut marks,
            &mut bytes,
            &mut books,
            &mut page,
            &lists.numbers,
            &lists.spans,
            &lists.tiers,
            &lists.capacity,
            &lists.refreshes,
            op,
        );
        flush(&mut page, 500000);
    }
    Ok(())
}
