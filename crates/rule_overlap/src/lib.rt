#![tactic(auto)]

ghost use Rattle.std.specs.Prelude.{◌≡◌, ℕ, ◌+◌, ◌-◌, ◌≤◌, ◌<◌, min, max, length};
ghost use Rattle.model.specs.Words.{Each};
ghost use Rattle.model.specs.State.{Ranges, at};
ghost use Rattle.model.specs.Store.{ranges as records, lay_ranges};
ghost use Rattle.model.specs.Touch.{held_bytes};
ghost use Rattle.pool_range.specs.Part.{Sized};
ghost use Rattle.pool_range.specs.Lent.{lent, SameColumns};
ghost use Rattle.rule_resolve.specs.Span.{Priced, only_depth};
ghost use Rattle.rule_overlap.specs.Overlap.{Ordered, meets_at, First, Overlap, at_place, halves, TouchNeeds, RemoveNeeds};

use model::Span;
use pool_range::{RangesMut, RangesRef, Record};

// Has the record at place i blocks of the span?
fn meets_at(ranges: RangesRef, sp: Span, i: usize) -> bool
    requires { (i < length ranges.node.now) × (i < length ranges.start.now) × (i < length ranges.end.now) }
    ensures { result ≡ meets_at ranges.entry.node.now ranges.entry.start.now ranges.entry.end.now sp i }
{
    ranges.node[i] == sp.node && ranges.start[i] < sp.end && sp.start < ranges.end[i]
}

// The first record that the span overlaps, or n.
pub fn first_overlap(ranges: RangesRef, n: usize, sp: Span) -> usize
    requires { Ordered ranges.node.now ranges.start.now ranges.end.now n }
    ensures { First ranges.entry.node.now ranges.entry.start.now ranges.entry.end.now n sp result }
{
    (0..n).find(|&i| meets_at(ranges, sp, i)).unwrap_or(n)
}

// Where the records that the span overlaps end.
pub fn end_overlap(ranges: RangesRef, n: usize, sp: Span, lo: usize) -> usize
    requires { Ordered ranges.node.now ranges.start.now ranges.end.now n
        × First ranges.node.now ranges.start.now ranges.end.now n sp lo }
    ensures { Overlap ranges.entry.node.now ranges.entry.start.now ranges.entry.end.now n sp lo result }
{
    (lo..n).find(|&i| !meets_at(ranges, sp, i)).unwrap_or(n)
}

// The bytes of a span's part that the records from lo up to hi hold.
pub fn held_bytes(
    depth: &[usize],
    ranges: RangesRef,
    bytes: &[u64],
    sp: Span,
    lo: usize,
    hi: usize,
) -> u64
    requires lo_le_hi { (lo ≤ hi) × (hi ≤ 128) × (hi ≤ length ranges.start.now) × (hi ≤ length ranges.end.now)
        × Priced depth.now bytes.now sp }
    requires each { Each lo hi (λ (i : ℕ). max sp.start (at ranges.start.now i) ≤ min sp.end (at ranges.end.now i)) }
    ensures { (c : Ranges)
        → c.start ≡ ranges.entry.start.now
        → c.end ≡ ranges.entry.end.now
        → result ≡ held_bytes (only_depth depth.now) bytes.now sp.node sp.start sp.end (records c lo (hi - lo)) }
{
    let mut sum = 0;
    for i in lo..hi {
        let part = Span {
            node: sp.node,
            start: sp.start.max(ranges.start[i]),
            end: sp.end.min(ranges.end[i]),
        };
        sum += rule_resolve::span_bytes(depth, bytes, part);
    }
    sum
}

// How many records and stamps a touch of one span needs.
#[derive(Clone, Copy)]
pub struct Needs {
    pub records: usize,
    pub stamps: u64,
}

// Of the records that the span overlaps only the first can have a head, and only the last a tail.
pub fn touch_need(ranges: RangesRef, n: usize, sp: Span, refreshes: bool) -> Needs
    requires { Ordered ranges.node.now ranges.start.now ranges.end.now n }
    ensures { TouchNeeds ranges.entry.node.now ranges.entry.start.now ranges.entry.end.now n sp refreshes result }
{
    let lo = first_overlap(ranges, n, sp);
    let hi = end_overlap(ranges, n, sp, lo);
    if lo == hi || !refreshes {
        return Needs {
            records: 0,
            stamps: 0,
        };
    }
    let head = ranges.start[lo] < sp.start;
    let tail = sp.end < ranges.end[hi - 1];
    Needs {
        records: usize::from(head) + usize::from(tail),
        stamps: 1,
    }
}

// Only one range can reach past both ends of the span.
pub fn remove_need(ranges: RangesRef, n: usize, sp: Span) -> usize
    requires { Ordered ranges.node.now ranges.start.now ranges.end.now n }
    ensures { RemoveNeeds ranges.entry.node.now ranges.entry.start.now ranges.entry.end.now n sp result }
{
    let lo = first_overlap(ranges, n, sp);
    usize::from(lo < n && ranges.start[lo] < sp.start && sp.end < ranges.end[lo])
}

// The record at place i in two at m; the right part gets the id.
pub fn split_rec(ranges: &mut RangesMut, n: usize, i: usize, m: usize, new: u64)
    requires { (i < n) × (n < 128) × Sized 128 (lent ranges.old) }
    ensures same { SameColumns ranges.old ranges.new }
    ensures columns { lent ranges.new ≡ lay_ranges 0 (n + 1) (at_place i (halves m new) (records (lent ranges.old) 0 n)) (lent ranges.old) }
{
    let right = Record {
        start: m,
        id: new,
        ..ranges.view().at(i)
    };
    ranges.end[i] = m;
    ranges.put(n, i + 1, right);
}
