#![tactic(auto)]
// The demands of the public calls by their contracts: see proofs/Demands.antt and proofs/Prefix.antt. The one of a single call stands as a contract here.
ghost use Rattle.std.specs.Prelude.{◌≡◌};
ghost use Rattle.model.specs.State.{nodes_in, used_in};
ghost use Rattle.model.specs.Calls.{done};
ghost use Rattle.shape_state.specs.Lent.{tree_of};
ghost use Rattle.shape_answer.specs.Lists.{path_list_of};
ghost use Rattle.shape_answer.specs.Answers.{resolved_of};
ghost use Rattle.promise.specs.Prefix.{LongestPath};

use model::ResolveAnswer;
use shape_answer::Resolved;

// What resolve answers for a list that is chained with the tree is the longest prefix that any stored path has: the path, not only its length. The listed
// segments spell the first hashes of the list, and the count is theirs.
pub fn resolve_longest(
    parent: &[usize],
    depth: &[usize],
    len: &[usize],
    run: &[usize],
    words: &[u64],
    node: &[usize],
    start: &[usize],
    end: &[usize],
    id: &[u64],
    stamp: &[u64],
    touched: &[f64],
    write: &[u32],
    pin_node: &[usize],
    pin_start: &[usize],
    pin_end: &[usize],
    pin_count: &[u64],
    marks: &[usize],
    bytes: &[u64],
    books: &[u64],
    path_node: &mut [usize],
    path_len: &mut [usize],
    hashes: &[u64],
) -> Resolved
    ensures { (a : ResolveAnswer) → resolved_of result ≡ done a
        → LongestPath
        (tree_of parent.now depth.now len.now run.now words.now
        (nodes_in books.now) (used_in books.now))
        hashes.now
        (path_list_of path_node.new path_len.new)
        a.path }
{
    radix::resolve(
        parent, depth, len, run, words, node, start, end, id, stamp, touched, write, pin_node,
        pin_start, pin_end, pin_count, marks, bytes, books, path_node, path_len, hashes,
    )
}
