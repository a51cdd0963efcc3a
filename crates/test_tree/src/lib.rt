#![tactic(auto)]

ghost use Rattle.std.specs.Prelude.{◌≡◌, true, ℕ, ◌+◌, ◌≤◌, ◌<◌, length};
ghost use Rattle.model.specs.Words.{Says, Each};
ghost use Rattle.model.specs.State.{at};
ghost use Rattle.model.specs.Sound.{RangesLent, PinsLent};
ghost use Rattle.shape_state.specs.Lent.{tree_of, ranges_of, pins_of};
ghost use Rattle.test_tree.specs.Nodes.{Table, NodeFits};
ghost use Rattle.test_tree.specs.Runs.{OneOwner, Filled, Free};
ghost use Rattle.test_tree.specs.Chain.{Chain, reach};
ghost use Rattle.test_tree.specs.Siblings.{NotRoot, Twins, Unlike, Alone, bucket_of, hash_bucket};
ghost use Rattle.test_tree.specs.Tree.{TreeSized, TreeSound};

const MOST_BYTES: u64 = 281474976710656;

// The byte table has 1,025 numbers, never falls and stays at or below 2^48.
pub fn table_rises(bytes: &[u64]) -> bool
    ensures { Says result (Table bytes.now) }
{
    bytes.len() >= 1025 && bytes[1024] <= MOST_BYTES && bytes[..1025].is_sorted_by(|a, b| *a <= *b)
}

// The lent columns of the ranges are each as long as eight stores need, or longer.
pub fn ranges_lent(
    node: &[usize],
    start: &[usize],
    end: &[usize],
    id: &[u64],
    stamp: &[u64],
    touched: &[f64],
    write: &[u32],
) -> bool
    ensures { Says result
        (RangesLent
        (ranges_of node.now start.now end.now id.now stamp.now touched.now
        write.now)) }
{
    node.len() >= 1024
        && start.len() >= 1024
        && end.len() >= 1024
        && id.len() >= 1024
        && stamp.len() >= 1024
        && touched.len() >= 1024
        && write.len() >= 1024
}

// The same of the pins.
pub fn pins_lent(node: &[usize], start: &[usize], end: &[usize], count: &[u64]) -> bool
    ensures { Says result (PinsLent (pins_of node.now start.now end.now count.now)) }
{
    node.len() >= 256 && start.len() >= 256 && end.len() >= 256 && count.len() >= 256
}

fn tree_sized(
    parent: &[usize],
    depth: &[usize],
    len: &[usize],
    run: &[usize],
    words: &[u64],
    nodes: usize,
    used: usize,
) -> bool
    ensures { Says result (TreeSized (tree_of parent.now depth.now len.now run.now words.now nodes used)) }
{
    parent.len() >= 256
        && depth.len() >= 256
        && len.len() >= 256
        && run.len() >= 256
        && words.len() >= 4096
        && nodes >= 1
        && nodes <= 256
        && used <= 4096
        && len[0] == 0
        && depth[0] == 0
}

fn node_fits(
    parent: &[usize],
    depth: &[usize],
    len: &[usize],
    run: &[usize],
    nodes: usize,
    used: usize,
    k: usize,
) -> bool
    requires { (k < nodes) × (nodes ≤ length parent.now) × (nodes ≤ length depth.now) × (nodes ≤ length len.now) × (nodes ≤ length run.now) }
    ensures { Says result (NodeFits parent.now depth.now len.now run.now nodes used k) }
{
    let p = parent[k];
    let d = depth[k];
    let n = len[k];
    p < nodes
        && d.checked_sub(depth[p]) == Some(len[p])
        && n >= 1
        && n <= 1024usize.saturating_sub(d)
        && n <= used.saturating_sub(run[k])
}

fn nodes_fit(
    parent: &[usize],
    depth: &[usize],
    len: &[usize],
    run: &[usize],
    nodes: usize,
    used: usize,
) -> bool
    requires { (nodes ≤ length parent.now) × (nodes ≤ length depth.now) × (nodes ≤ length len.now) × (nodes ≤ length run.now) }
    ensures { Says result (Each 1 nodes (NodeFits parent.now depth.now len.now run.now nodes used)) }
{
    (1..nodes).all(|k| node_fits(parent, depth, len, run, nodes, used, k))
}

// Marks the words from `from` up to `to` with `who`, unless one of them is marked already.
fn claim(own: &mut [u16], who: u16, from: usize, to: usize) -> bool
    requires { (from ≤ to) × (to ≤ length own.old) }
    ensures { Says result (Free own.old from to) × (result ≡ true → Filled own.old own.new from to who) }
{
    let words = &mut own[from..to];
    let free = words.iter().all(|w| *w == 0);
    if free {
        words.fill(who);
    }
    free
}

fn runs_apart(len: &[usize], run: &[usize], nodes: usize) -> bool
    requires { (nodes ≤ 256)
        × (nodes ≤ length run.now)
        × (nodes ≤ length len.now)
        × Each 1 nodes (λ (k : ℕ). at run.now k + at len.now k ≤ 4096) }
    ensures { Says result (OneOwner run.now len.now nodes) }
{
    let mut own = [0u16; 4096];
    for i in 1..nodes {
        let from = run[i];
        if !claim(&mut own, i as u16, from, from + len[i]) {
            return false;
        }
    }
    true
}

// A bucket for a first hash under a parent. Each half of the hash has a factor, so that hashes spread over the buckets whichever of their bits differ.
#[tactic(auto, unfolding(crate::specs::Siblings::bucket_of))]
fn bucket(h: u64, p: usize) -> usize
    ensures is { result ≡ bucket_of h p }
    ensures below { result < 256 }
{
    let spread = h / 4294967296 * 1906780815 + h % 4294967296 * 1425409027;
    ((spread / 16777216 % 256) as usize + p % 256) % 256
}

fn twins(parent: &[usize], run: &[usize], words: &[u64], j: usize, k: usize) -> bool
    requires { (j < length parent.now)
        × (k < length parent.now)
        × (j < length run.now)
        × (k < length run.now)
        × (at run.now j < length words.now)
        × (at run.now k < length words.now) }
    ensures { Says result (Twins parent.now run.now words.now j k) }
{
    parent[j] == parent[k] && words[run[j]] == words[run[k]]
}

// Node `i` has no twin in the chain that begins at the link `from`.
fn alone(
    parent: &[usize],
    run: &[usize],
    words: &[u64],
    prev: &[Option<u16>],
    from: Option<u16>,
    i: usize,
) -> bool
    requires { (reach from ≤ i)
        × (i < length parent.now)
        × (i < length run.now)
        × (i < length prev.now)
        × ((k : ℕ) → k ≤ i → NotRoot k → at run.now k < length words.now)
        × NotRoot i
        × Chain (hash_bucket parent.now run.now words.now) NotRoot prev.now (reach from)
        × ((j : ℕ) → reach from ≡ j + 1 → NotRoot j × (hash_bucket parent.now run.now words.now j ≡ hash_bucket parent.now run.now words.now i)) }
    ensures { Says result (Alone parent.now run.now words.now (reach from) i) }
{
    let mut link = from;
    while let Some(j) = link {
        let j = usize::from(j);
        if twins(parent, run, words, j, i) {
            return false;
        }
        link = prev[j];
    }
    true
}

fn siblings_differ(parent: &[usize], run: &[usize], words: &[u64], nodes: usize) -> bool
    requires { (nodes ≤ 256)
        × (nodes ≤ length parent.now)
        × (nodes ≤ length run.now)
        × ((k : ℕ) → k < nodes → NotRoot k → at run.now k < length words.now) }
    ensures { Says result (Unlike parent.now run.now words.now nodes) }
{
    let mut last = [None; 256];
    let mut prev = [None; 256];
    for i in 1..nodes {
        let b = bucket(words[run[i]], parent[i]);
        let from = last[b];
        if !alone(parent, run, words, &prev, from, i) {
            return false;
        }
        prev[i] = from;
        last[b] = Some(i as u16);
    }
    true
}

// Whether the tree is as a sound state has it, on any lists and counts.
pub fn tree_sound(
    parent: &[usize],
    depth: &[usize],
    len: &[usize],
    run: &[usize],
    words: &[u64],
    nodes: usize,
    used: usize,
) -> bool
    ensures { Says result (TreeSound (tree_of parent.now depth.now len.now run.now words.now nodes used)) }
{
    tree_sized(parent, depth, len, run, words, nodes, used)
        && nodes_fit(parent, depth, len, run, nodes, used)
        && runs_apart(len, run, nodes)
        && siblings_differ(parent, run, words, nodes)
}
