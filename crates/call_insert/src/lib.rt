#![tactic(auto)]
// A list inserted in a sound state: the path that is there, and below it one leaf with the rest.
ghost use Rattle.std.specs.Prelude.{◌≡◌, Option, List, [], ◌∷◌, ◌++◌, ℕ, ◌≤◌, ◌<◌, length, take};
ghost use Rattle.model.specs.declared.Cut.{Cut};
ghost use Rattle.model.specs.State.{Ranges, Pins, nodes_in, used_in};
ghost use Rattle.model.specs.Sound.{Sound};
ghost use Rattle.model.specs.Tree.{Seg};
ghost use Rattle.model.specs.Insert.{with_leaf};
ghost use Rattle.model.specs.Refusals.{PathFits};
ghost use Rattle.model.specs.Calls.{front, insert as insert_call};
ghost use Rattle.shape_state.specs.Lent.{tree_of, state_of};
ghost use Rattle.shape_answer.specs.Lists.{path_list_of};
ghost use Rattle.shape_answer.specs.Answers.{state_from, outcome, inserted_of};
ghost use Rattle.call_insert.specs.Found.{Found, Passed, LeafRoom, Left};

use call_cut::{copy_front, cut_all, refusal};
use model::{Cut, InsertAnswer, Path};
use pool_book::put_counts;
use rule_grow::add_leaf;
use rule_resolve::{Match, resolve};
use shape_answer::Inserted;

// The path that was found, in front of the answer lists.
fn lay_path(
    path_node: &mut [usize],
    path_len: &mut [usize],
    found_node: &[usize],
    found_len: &[usize],
    n: usize,
)
    requires { (n ≤ length found_node.now) × (n ≤ length found_len.now) × (n ≤ length path_node.old) × (n ≤ length path_len.old) }
    ensures { (path_list_of path_node.new path_len.new)
        ≡ path_list_of (front (take n found_node.now) path_node.old)
        (front (take n found_len.now) path_len.old) }
{
    copy_front(path_node, found_node, n);
    copy_front(path_len, found_len, n);
}

// The same with one segment more, at the end.
fn lay_longer(
    path_node: &mut [usize],
    path_len: &mut [usize],
    found_node: &[usize],
    found_len: &[usize],
    n: usize,
    node: usize,
    len: usize,
)
    requires { (n ≤ length found_node.now) × (n ≤ length found_len.now) × (n < length path_node.old) × (n < length path_len.old) }
    ensures { (path_list_of path_node.new path_len.new)
        ≡ path_list_of (front (take n found_node.now ++ (node ∷ [])) path_node.old)
        (front (take n found_len.now ++ (len ∷ [])) path_len.old) }
{
    lay_path(path_node, path_len, found_node, found_len, n);
    path_node[n] = node;
    path_len[n] = len;
}

// One leaf with the rest of the list, below the match's end, and the path that goes on to it.
fn add_rest(
    parent: &mut [usize],
    depth: &mut [usize],
    len: &mut [usize],
    run: &mut [usize],
    words: &mut [u64],
    books: &mut [u64],
    path_node: &mut [usize],
    path_len: &mut [usize],
    hashes: &[u64],
    m: Match,
    found_node: &[usize],
    found_len: &[usize],
)
    requires { (ss : List Seg)
        × LeafRoom ss (tree_of parent.old depth.old len.old run.old words.old (nodes_in books.old) (used_in books.old)) books.old
        (path_list_of path_node.old path_len.old) hashes.now m (path_list_of found_node.now found_len.now) }
    ensures { (ss : List Seg) (split : Option Cut) (c : Ranges) (p : Pins) (marks bytes : List ℕ)
        → Found ss m (path_list_of found_node.now found_len.now)
        → Left
        (with_leaf hashes.now ss split
        (state_of
        (tree_of parent.old depth.old len.old run.old words.old (nodes_in books.old)
        (used_in books.old))
        c p marks bytes books.old))
        (path_list_of path_node.old path_len.old)
        (state_of
        (tree_of parent.new depth.new len.new run.new words.new (nodes_in books.new)
        (used_in books.new))
        c p marks bytes books.new)
        (path_list_of path_node.new path_len.new) }
{
    let nodes = books[0] as usize;
    let used = books[1] as usize;
    let rest = hashes.len() - m.blocks;
    add_leaf(
        parent, depth, len, run, words, nodes, used, m.node, hashes, m.blocks,
    );
    lay_longer(
        path_node, path_len, found_node, found_len, m.segs, nodes, rest,
    );
    put_counts(books, nodes + 1, used + rest);
}

// What insert does once it has made its tests. A cut's node is numbered before the leaf.
fn insert_found(
    parent: &mut [usize],
    depth: &mut [usize],
    len: &mut [usize],
    run: &mut [usize],
    words: &mut [u64],
    node: &mut [usize],
    start: &mut [usize],
    end: &mut [usize],
    id: &mut [u64],
    stamp: &mut [u64],
    touched: &mut [f64],
    write: &mut [u32],
    pin_node: &mut [usize],
    pin_start: &mut [usize],
    pin_end: &mut [usize],
    pin_count: &mut [u64],
    marks: &mut [usize],
    bytes: &[u64],
    books: &mut [u64],
    path_node: &mut [usize],
    path_len: &mut [usize],
    hashes: &[u64],
    m: Match,
    found_node: &[usize],
    found_len: &[usize],
) -> Inserted
    requires { Passed
        (state_from parent.old depth.old len.old run.old words.old node.old start.old end.old id.old stamp.old touched.old write.old
        pin_node.old pin_start.old pin_end.old pin_count.old marks.old bytes.now books.old)
        (path_list_of path_node.old path_len.old) hashes.now m (path_list_of found_node.now found_len.now) }
    ensures { outcome
        (state_from parent.new depth.new len.new run.new words.new node.new start.new
        end.new id.new stamp.new touched.new write.new pin_node.new
        pin_start.new pin_end.new pin_count.new marks.new bytes.now books.new)
        (path_list_of path_node.new path_len.new) (inserted_of result)
        ≡ insert_call
        (state_from parent.old depth.old len.old run.old words.old node.old
        start.old end.old id.old stamp.old touched.old write.old
        pin_node.old pin_start.old pin_end.old pin_count.old marks.old
        bytes.now books.old)
        (path_list_of path_node.old path_len.old) hashes.now }
{
    let count = hashes.len();
    if count <= m.blocks {
        lay_path(path_node, path_len, found_node, found_len, m.segs);
        return Inserted::Done(InsertAnswer {
            path: Path {
                segs: m.segs,
                blocks: m.blocks,
            },
            split: None,
        });
    }
    let j = m.node;
    let k = m.len;
    let segs = m.segs + 1;
    if len[j] <= k {
        add_rest(
            parent, depth, len, run, words, books, path_node, path_len, hashes, m, found_node,
            found_len,
        );
        return Inserted::Done(InsertAnswer {
            path: Path {
                segs,
                blocks: count,
            },
            split: None,
        });
    }
    let new = books[0] as usize;
    cut_all(
        parent, depth, len, run, words, node, start, end, id, stamp, touched, write, pin_node,
        pin_start, pin_end, pin_count, marks, bytes, books, j, k,
    );
    add_rest(
        parent, depth, len, run, words, books, path_node, path_len, hashes, m, found_node,
        found_len,
    );
    Inserted::Done(InsertAnswer {
        path: Path {
            segs,
            blocks: count,
        },
        split: Some(Cut {
            node: j,
            at: k,
            new,
        }),
    })
}

// Insert: the tests first, on a path found in arrays of its own, for a refusal writes nothing.
pub fn insert(
    parent: &mut [usize],
    depth: &mut [usize],
    len: &mut [usize],
    run: &mut [usize],
    words: &mut [u64],
    node: &mut [usize],
    start: &mut [usize],
    end: &mut [usize],
    id: &mut [u64],
    stamp: &mut [u64],
    touched: &mut [f64],
    write: &mut [u32],
    pin_node: &mut [usize],
    pin_start: &mut [usize],
    pin_end: &mut [usize],
    pin_count: &mut [u64],
    marks: &mut [usize],
    bytes: &[u64],
    books: &mut [u64],
    path_node: &mut [usize],
    path_len: &mut [usize],
    hashes: &[u64],
) -> Inserted
    requires { Sound
        (state_from parent.old depth.old len.old run.old words.old node.old start.old end.old id.old stamp.old touched.old write.old
        pin_node.old pin_start.old pin_end.old pin_count.old marks.old bytes.now books.old)
        × PathFits (path_list_of path_node.old path_len.old) }
    ensures { outcome
        (state_from parent.new depth.new len.new run.new words.new node.new start.new
        end.new id.new stamp.new touched.new write.new pin_node.new
        pin_start.new pin_end.new pin_count.new marks.new bytes.now books.new)
        (path_list_of path_node.new path_len.new) (inserted_of result)
        ≡ insert_call
        (state_from parent.old depth.old len.old run.old words.old node.old
        start.old end.old id.old stamp.old touched.old write.old
        pin_node.old pin_start.old pin_end.old pin_count.old marks.old
        bytes.now books.old)
        (path_list_of path_node.old path_len.old) hashes.now }
{
    let count = hashes.len();
    if 1024 < count {
        return Inserted::Refused(3);
    }
    let nodes = books[0] as usize;
    let mut found_node = [0usize; 255];
    let mut found_len = [0usize; 255];
    let m = resolve(
        parent,
        len,
        run,
        words,
        nodes,
        hashes,
        &mut found_node,
        &mut found_len,
    );
    let number = refusal(
        len, node, start, end, pin_node, pin_start, pin_end, books, m, count,
    );
    if number != 0 {
        return Inserted::Refused(number);
    }
    insert_found(
        parent,
        depth,
        len,
        run,
        words,
        node,
        start,
        end,
        id,
        stamp,
        touched,
        write,
        pin_node,
        pin_start,
        pin_end,
        pin_count,
        marks,
        bytes,
        books,
        path_node,
        path_len,
        hashes,
        m,
        &found_node,
        &found_len,
    )
}
