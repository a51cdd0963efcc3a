// Answers before a set-up, written into a part of a buffer.
use super::call;
use known::NUMBERS;
use text_lines::{Lists, Op};
use text_page::ROOM;

#[test]
fn answers_at_a_place(rt: HostRuntime) {
    let mut parent = [0usize; 256];
    let mut depth = [0usize; 256];
    let mut len = [0usize; 256];
    let mut run = [0usize; 256];
    let mut words = [0u64; 4096];
    let mut node = [0usize; 1024];
    let mut start = [0usize; 1024];
    let mut end = [0usize; 1024];
    let mut id = [0u64; 1024];
    let mut stamp = [0u64; 1024];
    let mut touched = [0.0f64; 1024];
    let mut write = [0u32; 1024];
    let mut pin_node = [0usize; 256];
    let mut pin_start = [0usize; 256];
    let mut pin_end = [0usize; 256];
    let mut pin_count = [0u64; 256];
    let mut marks = [0usize; 2048];
    let mut bytes = [0u64; 1025];
    let mut books = [0u64; NUMBERS];
    let mut out = [7u8; ROOM];
    let lists = Lists::new();
    let a = call(
        &mut parent,
        &mut depth,
        &mut len,
        &mut run,
        &mut words,
        &mut node,
        &mut start,
        &mut end,
        &mut id,
        &mut stamp,
        &mut touched,
        &mut write,
        &mut pin_node,
        &mut pin_start,
        &mut pin_end,
        &mut pin_count,
        &mut marks,
        &mut bytes,
        &mut books,
        &mut out,
        3,
        &lists.numbers,
        &lists.spans,
        &lists.tiers,
        &lists.capacity,
        &lists.refreshes,
        Op::State,
    );
    let b = call(
        &mut parent,
        &mut depth,
        &mut len,
        &mut run,
        &mut words,
        &mut node,
        &mut start,
        &mut end,
        &mut id,
        &mut stamp,
        &mut touched,
        &mut write,
        &mut pin_node,
        &mut pin_start,
        &mut pin_end,
        &mut pin_count,
        &mut marks,
        &mut bytes,
        &mut books,
        &mut out,
        14,
        &lists.numbers,
        &lists.spans,
        &lists.tiers,
        &lists.capacity,
        &lists.refreshes,
        Op::Unreadable,
    );
    assert!(rt; a == 14 && b == 25);
    assert!(rt; &out[..3] == [7; 3].as_slice());
    assert!(rt; &out[3..25] == b"state none\nunreadable\n".as_slice());
    assert!(rt; out[25] == 7);
}
