#![tactic(auto)]
// The public call that inserts a list: the tests for 1 and 14, then the call that a caller with a sound state uses.
ghost use Rattle.std.specs.Prelude.{◌≡◌};
ghost use Rattle.model.specs.Calls.{insert as insert_call};
ghost use Rattle.shape_answer.specs.Lists.{path_list_of};
ghost use Rattle.shape_answer.specs.Answers.{state_from, outcome, inserted_of};

use shape_answer::Inserted;

// Inserts the list: the path of all its hashes, and the cut where there was one.
pub fn insert(
    parent: &mut [usize],
    depth: &mut [usize],
    len: &mut [usize],
    run: &mut [usize],
    words: &mut [u64],
    node: &mut [usize],
    start: &mut [usize],
    end: &mut [usize],
    id: &mut [u64],
    stamp: &mut [u64],
    touched: &mut [f64],
    write: &mut [u32],
    pin_node: &mut [usize],
    pin_start: &mut [usize],
    pin_end: &mut [usize],
    pin_count: &mut [u64],
    marks: &mut [usize],
    bytes: &[u64],
    books: &mut [u64],
    path_node: &mut [usize],
    path_len: &mut [usize],
    hashes: &[u64],
) -> Inserted
    ensures { outcome
        (state_from parent.new depth.new len.new run.new words.new node.new start.new
        end.new id.new stamp.new touched.new write.new pin_node.new
        pin_start.new pin_end.new pin_count.new marks.new bytes.now books.new)
        (path_list_of path_node.new path_len.new) (inserted_of result)
        ≡ insert_call
        (state_from parent.old depth.old len.old run.old words.old node.old
        start.old end.old id.old stamp.old touched.old write.old
        pin_node.old pin_start.old pin_end.old pin_count.old marks.old
        bytes.now books.old)
        (path_list_of path_node.old path_len.old) hashes.now }
{
    if !test_state::sound_state(
        parent, depth, len, run, words, node, start, end, id, stamp, touched, write, pin_node,
        pin_start, pin_end, pin_count, marks, bytes, books,
    ) {
        return Inserted::Refused(1);
    }
    if !test_arguments::path_fits(path_node, path_len) {
        return Inserted::Refused(14);
    }
    call_insert::insert(
        parent, depth, len, run, words, node, start, end, id, stamp, touched, write, pin_node,
        pin_start, pin_end, pin_count, marks, bytes, books, path_node, path_len, hashes,
    )
}
