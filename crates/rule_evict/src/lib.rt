#![tactic(auto)]
// One eviction: the last blocks of a record go, and what is told of them.
ghost use Rattle.std.specs.Prelude.{◌≡◌, ◌-◌, ◌<◌, ◌≤◌};
ghost use Rattle.model.specs.State.{at, range_at};
ghost use Rattle.rule_resolve.specs.Span.{Priced, only_depth};
ghost use Rattle.pool_range.specs.Lent.{lent, SameColumns};
ghost use Rattle.pool_range.specs.Part.{Sized};
ghost use Rattle.pool_out.specs.Evicted.{out_of};
ghost use Rattle.rule_evict.specs.Evict.{left, evict_cols, tail_of, told_of, Reach, Tabled, EntryGone};

use model::Span;
use pool_out::{Evicted, WriteId};
use pool_range::{RangesMut, Record};

// The last k blocks of the record at i go; how many records are left.
pub fn evict_at(ranges: &mut RangesMut, n: usize, i: usize, k: usize) -> usize
    requires { (i < n) × (n ≤ 128) × (at (lent ranges.old).start i ≤ at (lent ranges.old).end i) × Sized 128 (lent ranges.old) }
    ensures same { SameColumns ranges.old ranges.new }
    ensures columns { left (lent ranges.new) result ≡ evict_cols n i k (lent ranges.old) }
{
    if ranges.end[i] - ranges.start[i] <= k {
        ranges.cut(n, i);
        return n - 1;
    }
    ranges.end[i] -= k;
    n
}

// What is told of a span that goes.
pub fn told(depth: &[usize], bytes: &[u64], mark: usize, write: u32, span: Span) -> Evicted
    requires { Priced depth.now bytes.now span }
    ensures { out_of result ≡ told_of (only_depth depth.now) bytes.now mark write span }
{
    Evicted {
        span,
        write: WriteId::from(write),
        bytes: rule_resolve::span_bytes(depth, bytes, span),
        dead: rule_resolve::dead_bytes(depth, bytes, mark, span),
    }
}

// The last k blocks of a record, never its head.
fn tail(r: Record, k: usize) -> Span
    requires { (r.start ≤ r.end) × (k ≤ r.end - r.start) }
    ensures { result ≡ tail_of r.node r.end k }
{
    Span {
        node: r.node,
        start: r.end - k,
        end: r.end,
    }
}

// How many records are left, how many blocks went, the version after, and what is told of them.
#[derive(Clone, Copy)]
pub struct Gone {
    pub n: usize,
    pub taken: usize,
    pub version: u64,
    pub out: Evicted,
}

// Of the record at i the last min(length, excess) blocks go; the version goes up by 1, from 2^64 - 1 to 0.
pub fn store_evict_entry(
    depth: &[usize],
    ranges: &mut RangesMut,
    marks: &mut [usize],
    bytes: &[u64],
    n: usize,
    i: usize,
    excess: u64,
    version: u64,
) -> Gone
    requires i_lt_n { (i < n) × (n ≤ 128) × Sized 128 (lent ranges.old) }
    requires reach { Reach depth.now (range_at (lent ranges.old) i) × Tabled depth.now bytes.now marks.old }
    ensures same { SameColumns ranges.old ranges.new }
    ensures gone { EntryGone depth.now bytes.now n i excess version (lent ranges.old) marks.old (lent ranges.new) marks.new result }
{
    let r = ranges.view().at(i);
    let taken = (r.end - r.start).min(excess as usize);
    let mark = marks[r.node];
    let out = told(depth, bytes, mark, r.write, tail(r, taken));
    let left = evict_at(ranges, n, i, taken);
    pool_mark::unmark(ranges.view().node, marks, left, r.node);
    Gone {
        n: left,
        taken,
        version: version.wrapping_add(1),
        out,
    }
}
