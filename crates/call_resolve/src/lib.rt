#![tactic(auto)]

ghost use Rattle.std.specs.Prelude.{◌≡◌};
ghost use Rattle.model.specs.Sound.{Sound};
ghost use Rattle.model.specs.Refusals.{PathFits};
ghost use Rattle.model.specs.Calls.{resolve_call};
ghost use Rattle.shape_answer.specs.Lists.{path_list_of};
ghost use Rattle.shape_answer.specs.Answers.{state_from, outcome, resolved_of};

use model::{Path, ResolveAnswer};
use shape_answer::Resolved;

// Resolve, with its test for 3: the path stands in front of the path list.
pub fn resolve(
    parent: &[usize],
    depth: &[usize],
    len: &[usize],
    run: &[usize],
    words: &[u64],
    node: &[usize],
    start: &[usize],
    end: &[usize],
    id: &[u64],
    stamp: &[u64],
    touched: &[f64],
    write: &[u32],
    pin_node: &[usize],
    pin_start: &[usize],
    pin_end: &[usize],
    pin_count: &[u64],
    marks: &[usize],
    bytes: &[u64],
    books: &[u64],
    path_node: &mut [usize],
    path_len: &mut [usize],
    hashes: &[u64],
) -> Resolved
    requires { Sound
        (state_from parent.now depth.now len.now run.now words.now node.now start.now end.now id.now stamp.now touched.now write.now
        pin_node.now pin_start.now pin_end.now pin_count.now marks.now bytes.now books.now)
        × PathFits (path_list_of path_node.old path_len.old) }
    ensures { outcome
        (state_from parent.now depth.now len.now run.now words.now node.now
        start.now end.now id.now stamp.now touched.now write.now
        pin_node.now pin_start.now pin_end.now pin_count.now marks.now
        bytes.now books.now)
        (path_list_of path_node.new path_len.new) (resolved_of result)
        ≡ resolve_call
        (state_from parent.now depth.now len.now run.now words.now node.now
        start.now end.now id.now stamp.now touched.now write.now
        pin_node.now pin_start.now pin_end.now pin_count.now marks.now
        bytes.now books.now)
        (path_list_of path_node.old path_len.old) hashes.now }
{
    if 1024 < hashes.len() {
        return Resolved::Refused(3);
    }
    let m = rule_resolve::resolve(
        parent,
        len,
        run,
        words,
        books[0] as usize,
        hashes,
        path_node,
        path_len,
    );
    Resolved::Done(ResolveAnswer {
        path: Path {
            segs: m.segs,
            blocks: m.blocks,
        },
    })
}
