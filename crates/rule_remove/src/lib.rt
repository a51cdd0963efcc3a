#![tactic(auto)]

ghost use Rattle.std.specs.Prelude.{◌≡◌, false, ◌&&◌, ℕ, ◌+◌, ◌-◌, ◌≤◌, ◌<◌, min, max, length, ltb};
ghost use Rattle.model.specs.Words.{Each};
ghost use Rattle.model.specs.State.{at};
ghost use Rattle.model.specs.Store.{Store, ranges as records, lay_ranges, plus};
ghost use Rattle.model.specs.Remove.{middle_cuts, writes, gone_blocks, remove};
ghost use Rattle.model.specs.Calls.{front};
ghost use Rattle.pool_range.specs.Part.{Sized};
ghost use Rattle.pool_range.specs.Lent.{lent, seen, SameColumns};
ghost use Rattle.rule_overlap.specs.Overlap.{Ordered, Cuttable, at_place, RemoveFits};
ghost use Rattle.rule_remove.specs.Remove.{left_of, both_ends, CutTo, Freed};

use model::Span;
use pool_range::{RangesMut, RangesRef};

// How many records there are then and how many were needed, the blocks that went, and how many writes are listed.
#[derive(Clone, Copy)]
pub struct Removing {
    pub n: usize,
    pub need: usize,
    pub removed: u64,
    pub writes: usize,
}

// The blocks of the span that the records from lo up to hi have.
fn removed_blocks(ranges: RangesRef, sp: Span, lo: usize, hi: usize) -> u64
    requires lo_le_hi { (lo ≤ hi) × (hi ≤ 128) × (hi ≤ length ranges.start.now) × (hi ≤ length ranges.end.now) × (sp.end ≤ 1024) }
    requires each { Each lo hi (λ (i : ℕ). max sp.start (at ranges.start.now i) < min sp.end (at ranges.end.now i)) }
    ensures { result ≡ gone_blocks sp.start sp.end (records (seen ranges.entry) lo (hi - lo)) }
{
    let mut sum = 0;
    for i in lo..hi {
        let from = sp.start.max(ranges.start[i]);
        let upto = sp.end.min(ranges.end[i]);
        sum += (upto - from) as u64;
    }
    sum
}

// The writes of the records from lo up to hi, listed; a record without one adds nothing.
fn list_writes(ranges: RangesRef, list: &mut [u32], lo: usize, hi: usize) -> usize
    requires { (lo ≤ hi) × (hi ≤ length ranges.write.now) × (hi ≤ length list.old) }
    ensures list { list.new ≡ front (writes (records (seen ranges.entry) lo (hi - lo))) list.old }
    ensures count { result ≡ length (writes (records (seen ranges.entry) lo (hi - lo))) }
{
    let mut k = 0;
    for &w in &ranges.write[lo..hi] {
        if w != 0 {
            list[k] = w;
            k += 1;
        }
    }
    k
}

// The record at place i without the span, past one end of which it reaches at most: how many pieces stay.
fn trim_one(ranges: &mut RangesMut, n: usize, i: usize, sp: Span) -> usize
    requires i_lt_n { (i < n) × (n ≤ 128) × Sized 128 (lent ranges.old) }
    requires i_value { (ltb (at ranges.old.start.now i) sp.start && ltb sp.end (at ranges.old.end.now i)) ≡ false }
    ensures same { SameColumns ranges.old ranges.new }
    ensures columns { lent ranges.new
        ≡ lay_ranges 0 n (at_place i (left_of sp.start sp.end) (records (lent ranges.old) 0 n)) (lent ranges.old) }
    ensures count { result ≡ plus (ltb (at ranges.old.start.now i) sp.start) (plus (ltb sp.end (at ranges.old.end.now i)) 0) }
{
    if ranges.start[i] < sp.start {
        ranges.end[i] = sp.start;
        1
    } else if sp.end < ranges.end[i] {
        ranges.start[i] = sp.end;
        1
    } else {
        ranges.cut(n, i);
        0
    }
}

// The record at place i cut in two around the span; the tail gets a new id.
fn cut_middle(ranges: &mut RangesMut, n: usize, i: usize, sp: Span, next: u64)
    requires { (i < n) × (n < 128) × Sized 128 (lent ranges.old) }
    ensures same { SameColumns ranges.old ranges.new }
    ensures columns { lent ranges.new
        ≡ lay_ranges 0 (n + 1) (at_place i (both_ends sp.start sp.end next) (records (lent ranges.old) 0 n)) (lent ranges.old) }
{
    rule_overlap::split_rec(ranges, n, i, sp.end, next);
    ranges.end[i] = sp.start;
}

// The span cut out of the records from lo up to hi, none of which reaches past both its ends: how many records there are then.
fn cut_ends(ranges: &mut RangesMut, n: usize, lo: usize, hi: usize, sp: Span) -> usize
    requires cuttable { Cuttable (lent ranges.old) n lo hi sp }
    requires each { Each lo hi (λ k. (ltb (at ranges.old.start.now k) sp.start && ltb sp.end (at ranges.old.end.now k)) ≡ false) }
    ensures same { SameColumns ranges.old ranges.new }
    ensures cut { (next : ℕ) → CutTo next 0 sp (lent ranges.old) (lent ranges.new) n result }
{
    let mut i = lo;
    for j in lo..hi {
        i += trim_one(ranges, i + (n - j), i, sp);
    }
    i + (n - hi)
}

// How many records there are after a cut, and how many it needed.
#[derive(Clone, Copy)]
struct Left {
    n: usize,
    need: usize,
}

// The span cut out of the records from lo up to hi, which it overlaps. One that reaches past both its ends is the only one.
fn cut_out(ranges: &mut RangesMut, n: usize, lo: usize, hi: usize, sp: Span, next: u64) -> Left
    requires lo_lt_hi { (lo < hi)
        × Cuttable (lent ranges.old) n lo hi sp
        × Ordered ranges.old.node.now ranges.old.start.now ranges.old.end.now n }
    requires n_bound { n + middle_cuts sp.node sp.start sp.end (records (lent ranges.old) 0 n) ≤ 128 }
    ensures same { SameColumns ranges.old ranges.new }
    ensures cut { CutTo next result.need sp (lent ranges.old) (lent ranges.new) n result.n }
{
    if ranges.start[lo] < sp.start && sp.end < ranges.end[lo] {
        cut_middle(ranges, n, lo, sp, next);
        return Left { n: n + 1, need: 1 };
    }
    let m = cut_ends(ranges, n, lo, hi, sp);
    Left { n: m, need: 0 }
}

// The span taken out of a store: its records, marks and the list of the writes that its ranges carried.
pub fn store_remove(
    ranges: &mut RangesMut,
    marks: &mut [usize],
    list: &mut [u32],
    n: usize,
    sp: Span,
    next: u64,
) -> Removing
    requires n_bound { (n ≤ 128)
        × Sized 128 (lent ranges.old)
        × Ordered ranges.old.node.now ranges.old.start.now ranges.old.end.now n }
    requires start_lt_end { (sp.start < sp.end) × (sp.end ≤ 1024) × (sp.node < length marks.old) × (128 ≤ length list.old) }
    requires remove_fits { RemoveFits ranges.old.node.now ranges.old.start.now ranges.old.end.now n sp }
    ensures same { SameColumns ranges.old ranges.new }
    ensures freed { (x : Store)
        → x.ranges ≡ records (lent ranges.old) 0 n
        → x.marks ≡ marks.old
        → Freed (remove x next sp) (lent ranges.old) (lent ranges.new) marks.new list.old list.new n result }
{
    let lo = rule_overlap::first_overlap(ranges.view(), n, sp);
    let hi = rule_overlap::end_overlap(ranges.view(), n, sp, lo);
    if lo == hi {
        return Removing {
            n,
            need: 0,
            removed: 0,
            writes: 0,
        };
    }
    let removed = removed_blocks(ranges.view(), sp, lo, hi);
    let writes = list_writes(ranges.view(), list, lo, hi);
    let left = cut_out(ranges, n, lo, hi, sp, next);
    pool_mark::unmark(ranges.view().node, marks, left.n, sp.node);
    Removing {
        n: left.n,
        need: left.need,
        removed,
        writes,
    }
}
