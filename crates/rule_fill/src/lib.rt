#![tactic(auto)]
// The gaps of a span in a store, and a record for each.
ghost use Rattle.std.specs.Prelude.{◌≡◌, List, [], ℕ, ◌+◌, ◌≤◌, ◌<◌, ◌++◌, length, ltb, leb, eqb, ◌&&◌, ◌||◌};
ghost use Rattle.model.specs.Store.{ranges as rangesOf, insert, lay_ranges};
ghost use Rattle.model.specs.State.{Ranges, at};
ghost use Rattle.model.specs.Bring.{gaps as gapsBetween, piece, gap_blocks, fresh, fill as fillOf};
ghost use Rattle.rule_fill.specs.Gaps.{gap_of, gaps_of, PlaceFor};
ghost use Rattle.theory_sound.specs.Facts.{All};
ghost use Rattle.pool_range.specs.Lent.{lent, SameColumns};
ghost use Rattle.pool_range.specs.Part.{range_of, Sized};
ghost use Rattle.rule_fill.specs.Fill.{Filled, Room};

use model::Span;
use pool_range::{RangesMut, RangesRef, Record};

// A part of a node's blocks that no record holds.
#[derive(Clone, Copy)]
pub struct Gap {
    pub from: usize,
    pub upto: usize,
}

// The gaps of a span, lowest first; one more than the records of a store at most.
#[derive(Clone, Copy)]
pub struct Gaps {
    pub list: [Gap; 129],
    pub n: usize,
}

impl Gaps {
    fn none() -> Gaps
        ensures { (gaps_of result ≡ []) × (result.n ≡ 0) }
    {
        Gaps {
            list: [Gap { from: 0, upto: 0 }; 129],
            n: 0,
        }
    }

    // Puts a gap behind the others, where it has a block.
    fn add(&mut self, from: usize, upto: usize)
        requires { self.old.n < 129 }
        ensures gaps { gaps_of self.new ≡ gaps_of self.old ++ piece (ltb from upto) from upto [] }
        ensures count { self.new.n ≡ self.old.n + length (piece (ltb from upto) from upto []) }
    {
        if from < upto {
            self.list[self.n] = Gap { from, upto };
            self.n += 1;
        }
    }

    pub fn count(&self) -> usize
        ensures { result ≡ self.now.n }
    {
        self.n
    }

    // The blocks of the gaps together: what a store holds more, once they are filled.
    pub fn blocks(&self) -> u64
        requires { (self.now.n ≤ 129) × All Filled (gaps_of self.now) }
        ensures { result ≡ gap_blocks (gaps_of self.now) }
    {
        let mut sum = 0;
        for i in 0..self.n {
            let gap = self.list[i];
            sum += (gap.upto - gap.from) as u64;
        }
        sum
    }
}

// The parts of a span that the records don't hold.
pub fn store_missing(ranges: RangesRef, n: usize, span: Span) -> Gaps
    requires { (n ≤ 128) × (n ≤ length ranges.node.now) × (n ≤ length ranges.start.now) × (n ≤ length ranges.end.now) }
    ensures few { result.n ≤ n + 1 }
    ensures gaps { (c : Ranges)
        → c.node ≡ ranges.entry.node.now
        → c.start ≡ ranges.entry.start.now
        → c.end ≡ ranges.entry.end.now
        → gaps_of result ≡ gapsBetween span.node (rangesOf c 0 n) span.start span.end }
{
    let mut gaps = Gaps::none();
    let mut from = span.start;
    for i in 0..n {
        if ranges.node[i] == span.node {
            gaps.add(from, ranges.start[i].min(span.end));
            from = from.max(ranges.end[i]);
        }
    }
    gaps.add(from, span.end);
    gaps
}

// Does a range of a node that starts at `start` stand before record i?
fn goes_before(node: usize, start: usize, ranges: RangesRef, i: usize) -> bool
    requires { (i < length ranges.node.now) × (i < length ranges.start.now) }
    ensures { result ≡ (ltb node (at ranges.entry.node.now i)
        || (eqb node (at ranges.entry.node.now i) && leb start (at ranges.entry.start.now i))) }
{
    node < ranges.node[i] || (node == ranges.node[i] && start <= ranges.start[i])
}

// The place of a range of a node that starts at `start`, among the records.
pub fn place_for(ranges: RangesRef, n: usize, node: usize, start: usize) -> usize
    requires { (n ≤ length ranges.node.now) × (n ≤ length ranges.start.now) }
    ensures { (result ≤ n)
        × ((c : Ranges) → c.node ≡ ranges.entry.node.now → c.start ≡ ranges.entry.start.now → PlaceFor node start (rangesOf c 0 n) result) }
{
    for i in 0..n {
        if goes_before(node, start, ranges, i) {
            return i;
        }
    }
    n
}

// What the records of the gaps have in common: node, time and write, the last stamp that was given and the next id.
#[derive(Clone, Copy)]
pub struct Fresh {
    pub node: usize,
    pub stamp: u64,
    pub id: u64,
    pub time: f64,
    pub write: u32,
}

impl Fresh {
    // The record that gap i gets.
    fn record(self, gap: Gap, i: usize) -> Record
        requires { (self.stamp + i < 281474976710656) × (self.id + i < 281474976710656) }
        ensures { range_of result ≡ fresh self.node (gap_of gap) (self.stamp + i + 1) (self.id + i) self.time self.write }
    {
        Record {
            node: self.node,
            start: gap.from,
            end: gap.upto,
            id: self.id + i as u64,
            stamp: self.stamp + i as u64 + 1,
            touched: self.time,
            write: self.write,
        }
    }
}

// A record put at its place among the n records of a store's part.
pub fn put_new(ranges: &mut RangesMut, n: usize, r: Record)
    requires { (n < 128) × Sized 128 (lent ranges.old) }
    ensures same { SameColumns ranges.old ranges.new }
    ensures columns { lent ranges.new ≡ lay_ranges 0 (n + 1) (insert (range_of r) (rangesOf (lent ranges.old) 0 n)) (lent ranges.old) }
{
    let at = place_for(ranges.view(), n, r.node, r.start);
    ranges.put(n, at, r);
}

// Each gap gets a record, lowest first, among the n records of a store's part; then there are so many.
pub fn fill(ranges: &mut RangesMut, n: usize, gaps: &Gaps, fresh: Fresh) -> usize
    requires { Room n gaps.now.n fresh.stamp fresh.id × Sized 128 (lent ranges.old) }
    ensures same { SameColumns ranges.old ranges.new }
    ensures count { result ≡ n + length (gaps_of gaps.now) }
    ensures columns { lent ranges.new
        ≡ lay_ranges 0 (n + length (gaps_of gaps.now))
        (fillOf fresh.node (gaps_of gaps.now) fresh.stamp fresh.id fresh.time fresh.write (rangesOf (lent ranges.old) 0 n)) (lent ranges.old) }
{
    for i in 0..gaps.n {
        put_new(ranges, n + i, fresh.record(gaps.list[i], i));
    }
    n + gaps.n
}
