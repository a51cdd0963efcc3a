#![tactic(auto)]
// The tree's half of a cut, and the leaf that an insertion adds.
ghost use Rattle.std.specs.Prelude.{◌≡◌, List, ℕ, ◌+◌, ◌-◌, ◌≤◌, ◌<◌, length, drop};
ghost use Rattle.model.specs.State.{at};
ghost use Rattle.model.specs.Store.{lay};
ghost use Rattle.model.specs.Insert.{adopt as adoptOf, reparent as reparented, cut_tree, add_leaf};
ghost use Rattle.shape_state.specs.Lent.{tree_of};

// The parent of a node after a cut of j, whose children become m's.
fn adopt(j: usize, m: usize, p: usize) -> usize
    ensures { result ≡ adoptOf j m p }
{
    if p == j { m } else { p }
}

// The children of j become m's.
fn reparent(parent: &mut [usize], nodes: usize, j: usize, m: usize)
    requires { (1 ≤ nodes) × (nodes ≤ length parent.old) }
    ensures { parent.new ≡ reparented j m nodes parent.old }
{
    for p in &mut parent[1..nodes] {
        *p = adopt(j, m, *p);
    }
}

// The old number keeps the first k blocks; the next number takes the rest and the children.
pub fn cut_tree(
    parent: &mut [usize],
    depth: &mut [usize],
    len: &mut [usize],
    run: &mut [usize],
    nodes: usize,
    j: usize,
    k: usize,
)
    requires { (1 ≤ nodes)
        × (nodes < length parent.old)
        × (nodes < length depth.old)
        × (nodes < length len.old)
        × (nodes < length run.old)
        × (j < nodes)
        × (k ≤ at len.old j)
        × (at depth.old j + k ≤ 1024)
        × (at run.old j + k ≤ 4096) }
    ensures { (words : List ℕ) (used : ℕ)
        → tree_of parent.new depth.new len.new run.new words (nodes + 1) used
        ≡ cut_tree j k (tree_of parent.old depth.old len.old run.old words nodes used) }
{
    let d = depth[j] + k;
    let l = len[j] - k;
    let r = run[j] + k;
    reparent(parent, nodes, j, nodes);
    parent[nodes] = j;
    depth[nodes] = d;
    len[j] = k;
    len[nodes] = l;
    run[nodes] = r;
}

// The list's hashes from place `from` on, behind the used words.
fn put_words(words: &mut [u64], used: usize, hashes: &[u64], from: usize)
    requires { (from ≤ length hashes.now) × (used + (length hashes.now - from) ≤ length words.old) }
    ensures { words.new ≡ lay 0 used (length (drop from hashes.now)) (drop from hashes.now) words.old }
{
    let rest = &hashes[from..];
    pool_range::copy_over(&mut words[used..used + rest.len()], rest);
}

// One leaf with the rest of the list, below p.
pub fn add_leaf(
    parent: &mut [usize],
    depth: &mut [usize],
    len: &mut [usize],
    run: &mut [usize],
    words: &mut [u64],
    nodes: usize,
    used: usize,
    p: usize,
    hashes: &[u64],
    from: usize,
)
    requires { (nodes < length parent.old)
        × (nodes < length depth.old)
        × (nodes < length len.old)
        × (nodes < length run.old)
        × (from ≤ length hashes.now)
        × (used + (length hashes.now - from) ≤ length words.old) }
    ensures { tree_of parent.new depth.new len.new run.new words.new (nodes + 1)
        (used + (length hashes.now - from))
        ≡ add_leaf p from (drop from hashes.now)
        (tree_of parent.old depth.old len.old run.old words.old nodes used) }
{
    parent[nodes] = p;
    depth[nodes] = from;
    len[nodes] = hashes.len() - from;
    run[nodes] = used;
    put_words(words, used, hashes, from);
}
