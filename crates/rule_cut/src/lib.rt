#![tactic(auto)]
// The ranges of a store where a node is cut.
ghost use Rattle.std.specs.Prelude.{◌≡◌, true, ◌^◌, ◌≤◌, ◌<◌, ◌+◌, length, ltb};
ghost use Rattle.model.specs.State.{at, Ranges};
ghost use Rattle.pool_range.specs.Lent.{lent, SameColumns};
ghost use Rattle.pool_range.specs.Part.{Sized};
ghost use Rattle.rule_cut.specs.Cut.{is_across, across_before, is_beyond, split_range, move_range, step_ranges, step_progress};
ghost use Rattle.model.specs.Sizes.{max_stamp};
ghost use Rattle.rule_cut.specs.Cutting.{across_in, cut_ranges};

use pool_range::{RangesMut, Record};

// Is what stands at place `i` across `k` on node `j`? Most places are on another node: then nothing else is read.
fn is_across(node: &[usize], start: &[usize], end: &[usize], i: usize, j: usize, k: usize) -> bool
    requires { (i < length node.now) × (i < length start.now) × (i < length end.now) }
    ensures { result ≡ is_across j k (at node.now i) (at start.now i) (at end.now i) }
{
    node[i] == j && start[i] < k && k < end[i]
}

// How many of the first `n` are across `k` on node `j`.
pub fn count_across(
    node: &[usize],
    start: &[usize],
    end: &[usize],
    n: usize,
    j: usize,
    k: usize,
) -> usize
    requires { (n ≤ length node.now) × (n ≤ length start.now) × (n ≤ length end.now) }
    ensures { result ≡ across_before j k node.now start.now end.now n }
{
    let mut across = 0;
    for i in 0..n {
        across += usize::from(is_across(node, start, end, i, j, k));
    }
    across
}

// The range at place `p` of `n`, across `k`: its head stays, and its tail stands behind all, on node `m` with a new id.
fn split_range(ranges: &mut RangesMut, n: usize, p: usize, k: usize, m: usize, new: u64)
    requires { (p < n) × (n < 128) × (k ≤ at (lent ranges.old).end p) × Sized 128 (lent ranges.old) }
    ensures same { SameColumns ranges.old ranges.new }
    ensures columns { lent ranges.new ≡ split_range n p k m new (lent ranges.old) }
{
    let last = ranges.end[p];
    ranges.node[n] = m;
    ranges.start[n] = 0;
    ranges.end[p] = k;
    ranges.end[n] = last - k;
    ranges.id[n] = new;
    ranges.stamp[n] = ranges.stamp[p];
    ranges.touched[n] = ranges.touched[p];
    ranges.write[n] = ranges.write[p];
}

// The range at place `p` of `n`, all from `k` on, moved behind the others, on node `m`. It takes one pass over each column: few ranges move.
fn move_range(ranges: &mut RangesMut, n: usize, p: usize, k: usize, m: usize)
    requires { (p < n)
        × (n ≤ 128)
        × (k ≤ at (lent ranges.old).start p)
        × (k ≤ at (lent ranges.old).end p)
        × Sized 128 (lent ranges.old) }
    ensures same { SameColumns ranges.old ranges.new }
    ensures columns { lent ranges.new ≡ move_range n p k m (lent ranges.old) }
{
    let r = ranges.view().at(p);
    ranges.cut(n, p);
    ranges.put(
        n - 1,
        n - 1,
        Record {
            node: m,
            start: r.start - k,
            end: r.end - k,
            ..r
        },
    );
}

// How far a cut is: the place of the range at hand, the end of those still to come, how many ranges there are, and the next id.
#[derive(Clone, Copy)]
pub struct Progress {
    pub at: usize,
    pub top: usize,
    pub n: usize,
    pub next: u64,
}

// The range at hand, cut: it stays, it is in two, or it moves behind the others.
pub fn cut_next(ranges: &mut RangesMut, s: Progress, j: usize, k: usize, m: usize) -> Progress
    requires { (s.at < s.top)
        × (s.top ≤ s.n)
        × (s.n ≤ 128)
        × (is_across j k (at (lent ranges.old).node s.at) (at (lent ranges.old).start s.at) (at (lent ranges.old).end s.at) ≡ true → s.n < 128)
        × (s.next < 2 ^ 63)
        × Sized 128 (lent ranges.old) }
    ensures same { SameColumns ranges.old ranges.new }
    ensures columns { lent ranges.new
        ≡ step_ranges (is_beyond j k (at (lent ranges.old).node s.at) (at (lent ranges.old).end s.at))
        (ltb (at (lent ranges.old).start s.at) k) s k m (lent ranges.old) }
    ensures progress { result
        ≡ step_progress (is_beyond j k (at (lent ranges.old).node s.at) (at (lent ranges.old).end s.at))
        (ltb (at (lent ranges.old).start s.at) k) s }
{
    let p = s.at;
    // Most ranges are on another node: then nothing else is read.
    let beyond = ranges.node[p] == j && k < ranges.end[p];
    if !beyond {
        return Progress { at: p + 1, ..s };
    }
    if ranges.start[p] < k {
        split_range(ranges, s.n, p, k, m, s.next);
        return Progress {
            at: p + 1,
            n: s.n + 1,
            next: s.next + 1,
            ..s
        };
    }
    move_range(ranges, s.n, p, k, m);
    Progress {
        top: s.top - 1,
        ..s
    }
}

// How many of the first `n` ranges are across `k` on node `j`: the records that a cut needs besides.
pub fn ranges_across(
    node: &[usize],
    start: &[usize],
    end: &[usize],
    n: usize,
    j: usize,
    k: usize,
) -> usize
    requires { (n ≤ 128) × (n ≤ length node.now) × (n ≤ length start.now) × (n ≤ length end.now) }
    ensures { (c : Ranges) → c.node ≡ node.now → c.start ≡ start.now → c.end ≡ end.now → result ≡ across_in j k n c }
{
    count_across(node, start, end, n, j, k)
}

// How many ranges there are after a cut, and the next id.
#[derive(Clone, Copy)]
pub struct After {
    pub n: usize,
    pub next: u64,
}

// The first `n` ranges of a store's part, cut: the heads, and behind them the tails on the new node `m`.
pub fn cut_ranges(
    ranges: &mut RangesMut,
    n: usize,
    j: usize,
    k: usize,
    m: usize,
    next: u64,
) -> After
    requires { (n + across_in j k n (lent ranges.old) ≤ 128) × (next ≤ max_stamp) × Sized 128 (lent ranges.old) }
    ensures same { SameColumns ranges.old ranges.new }
    ensures columns { lent ranges.new ≡ cut_ranges j k m next n (lent ranges.old) }
    ensures count { result.n ≡ n + across_in j k n (lent ranges.old) }
    ensures ids { result.next ≡ next + across_in j k n (lent ranges.old) }
{
    let mut s = Progress {
        at: 0,
        top: n,
        n,
        next,
    };
    while s.at < s.top {
        s = cut_next(ranges, s, j, k, m);
    }
    After {
        n: s.n,
        next: s.next,
    }
}
