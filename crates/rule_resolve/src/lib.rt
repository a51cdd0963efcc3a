#![tactic(auto)]

ghost use Rattle.std.specs.Prelude.{◌≡◌, List, [], ℕ, ◌+◌, ◌≤◌, ◌<◌, length};
ghost use Rattle.model.specs.State.{at};
ghost use Rattle.model.specs.Tree.{child, matched};
ghost use Rattle.model.specs.Refusals.{PathFits};
ghost use Rattle.model.specs.Trim.{bytes_of, dead_from};
ghost use Rattle.shape_state.specs.Lent.{tree_of};
ghost use Rattle.rule_resolve.specs.Span.{Priced, only_depth};
ghost use Rattle.rule_resolve.specs.Walk.{Scanned, Stored, Walkable, Resolved};
ghost use Rattle.shape_answer.specs.Lists.{path_list_of};

use model::Span;

pub fn span_bytes(depth: &[usize], bytes: &[u64], sp: Span) -> u64
    requires { Priced depth.now bytes.now sp }
    ensures { result ≡ bytes_of (only_depth depth.now) bytes.now sp.node sp.start sp.end }
{
    let d = depth[sp.node];
    bytes[d + sp.end] - bytes[d + sp.start]
}

// The dead part of a span begins at the read mark, or at the side of the span that is nearer to it.
pub fn dead_bytes(depth: &[usize], bytes: &[u64], mark: usize, sp: Span) -> u64
    requires { Priced depth.now bytes.now sp }
    ensures { result ≡ bytes_of (only_depth depth.now) bytes.now sp.node (dead_from mark sp.start sp.end) sp.end }
{
    let start = mark.clamp(sp.start, sp.end);
    span_bytes(depth, bytes, Span { start, ..sp })
}

// A function of its own also where it is compiled: inside a larger one the scan reads its columns' places from the stack at each node.
#[inline(never)]
pub fn child(
    parent: &[usize],
    run: &[usize],
    words: &[u64],
    nodes: usize,
    p: usize,
    h: u64,
) -> Option<usize>
    requires { Scanned parent.now run.now words.now nodes }
    ensures { (depth len : List ℕ) (used : ℕ)
        → result ≡ child (tree_of parent.now depth len run.now words.now nodes used) p h }
{
    // Cut to the nodes, so that the search tests one bound less at each.
    let parent = &parent[..nodes];
    (1..nodes).find(|&k| parent[k] == p && words[run[k]] == h)
}

// How many blocks of node k match the list from pos on. A hash stands for all blocks before it, so two runs that agree at a position agree before it:
// one comparison tells of the whole node, and halving finds the last position that agrees.
pub fn matched(
    len: &[usize],
    run: &[usize],
    words: &[u64],
    hashes: &[u64],
    pos: usize,
    k: usize,
) -> usize
    requires { Stored len.now run.now words.now k × (pos < length hashes.now) }
    ensures by_index { (parent depth : List ℕ) (nodes used : ℕ)
        → result ≡ matched (tree_of parent depth len.now run.now words.now nodes used) hashes.now pos k }
    ensures within { (1 ≤ result) × (result ≤ at len.now k) × (pos + result ≤ length hashes.now) }
{
    let from = run[k];
    let c = (hashes.len() - pos).min(len[k]);
    let last = c - 1;
    if hashes[pos + last] == words[from + last] {
        return c;
    }
    let mut lo = 0;
    let mut hi = last;
    while hi - lo > 1 {
        let mid = (lo + hi) / 2;
        if hashes[pos + mid] == words[from + mid] {
            lo = mid;
        } else {
            hi = mid;
        }
    }
    lo + 1
}

// A path whose segments stand in lists: how many they are, how many blocks they cover, and the last one (of the root and 0 blocks where there is none).
#[derive(Clone, Copy)]
pub struct Match {
    pub segs: usize,
    pub blocks: usize,
    pub node: usize,
    pub len: usize,
}

// The walk from the root: into the child that begins with the next hash, until there is none or a node matches in part. It looks at neither depths nor
// the count of used words, so what it finds holds of the tree with any.
pub fn resolve(
    parent: &[usize],
    len: &[usize],
    run: &[usize],
    words: &[u64],
    nodes: usize,
    hashes: &[u64],
    path_node: &mut [usize],
    path_len: &mut [usize],
) -> Match
    requires by_index { (depth : List ℕ) × (used : ℕ) × Walkable (tree_of parent.now depth len.now run.now words.now nodes used) }
    requires path_fits { PathFits (path_list_of path_node.old path_len.old) }
    ensures { (depth : List ℕ) (used : ℕ)
        → Resolved (tree_of parent.now depth len.now run.now words.now nodes used) hashes.now
        (path_list_of path_node.old path_len.old) (path_list_of path_node.new path_len.new) result }
{
    let mut cur = 0;
    let mut pos = 0;
    let mut segs = 0;
    let mut last = 0;
    while pos < hashes.len() {
        let Some(k) = child(parent, run, words, nodes, cur, hashes[pos]) else {
            break;
        };
        let m = matched(len, run, words, hashes, pos, k);
        path_node[segs] = k;
        path_len[segs] = m;
        cur = k;
        pos += m;
        segs += 1;
        last = m;
        if m < len[k] {
            break;
        }
    }
    Match {
        segs,
        blocks: pos,
        node: cur,
        len: last,
    }
}
