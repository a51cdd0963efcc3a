#![tactic(auto)]

ghost use Rattle.std.specs.Prelude.{◌≡◌, true, ℕ, suc, ◌+◌, ◌-◌, ◌≤◌, ◌<◌, min, max, length, ltb, eqb};
ghost use Rattle.model.specs.Words.{Each};
ghost use Rattle.model.specs.State.{Tree, at, range_at};
ghost use Rattle.model.specs.Store.{Store, ranges as records, lay_ranges, plus, meets};
ghost use Rattle.model.specs.Touch.{one_inside, pieces, recut, new_pieces, joins, join, mark_read, bytes_read, touch};
ghost use Rattle.pool_range.specs.Part.{Sized};
ghost use Rattle.pool_range.specs.Lent.{lent, seen, SameColumns};
ghost use Rattle.rule_resolve.specs.Span.{Priced, only_depth};
ghost use Rattle.rule_overlap.specs.Overlap.{Ordered, Cuttable, at_place, TouchFits};
ghost use Rattle.rule_touch.specs.Touch.{halves_if, merged, Refreshed, Touching};

use model::Span;
use pool_range::{RangesMut, RangesRef};

// How many records there are then and how many were needed, the stamps needed, and the bytes read.
#[derive(Clone, Copy)]
pub struct Used {
    pub n: usize,
    pub need: usize,
    pub stamps: u64,
    pub bytes: u64,
}

// The mark of a node that was read up to the span's end.
fn mark_read(marks: &mut [usize], sp: Span, counted: bool)
    requires { sp.node < length marks.old }
    ensures { marks.new ≡ mark_read counted sp marks.old }
{
    if counted {
        marks[sp.node] = marks[sp.node].max(sp.end);
    }
}

// Do the records from lo up to hi come to one, wholly inside the span?
fn one_inside(ranges: RangesRef, sp: Span, lo: usize, hi: usize) -> bool
    requires { (lo < hi) × (hi ≤ length ranges.start.now) × (hi ≤ length ranges.end.now) }
    ensures { result ≡ one_inside sp.start sp.end (records (seen ranges.entry) lo (hi - lo)) }
{
    hi - lo == 1 && sp.start <= ranges.start[lo] && ranges.end[lo] <= sp.end
}

// The record at place i in two at m, if it is asked for; the right part gets the id. How many pieces are new.
fn split_if(ranges: &mut RangesMut, n: usize, i: usize, on: bool, m: usize, new: u64) -> usize
    requires { (i < n) × (n + plus on 0 ≤ 128) × Sized 128 (lent ranges.old) }
    ensures same { SameColumns ranges.old ranges.new }
    ensures columns { lent ranges.new
        ≡ lay_ranges 0 (n + result) (at_place i (halves_if on m new) (records (lent ranges.old) 0 n)) (lent ranges.old) }
    ensures count { result ≡ plus on 0 }
{
    if !on {
        return 0;
    }
    rule_overlap::split_rec(ranges, n, i, m, new);
    1
}

// The overlapped record at place i cut into head, middle and tail; the middle gets stamp and time. How many pieces are new.
fn recut_one(
    ranges: &mut RangesMut,
    n: usize,
    i: usize,
    sp: Span,
    top: u64,
    time: f64,
    next: u64,
) -> usize
    requires i_lt_n { (i < n)
        × (n + plus (ltb sp.end (at ranges.old.end.now i)) (plus (ltb (at ranges.old.start.now i) sp.start) 0) ≤ 128)
        × (next ≤ 281474976710655)
        × Sized 128 (lent ranges.old) }
    requires start_lt_end { (sp.start < sp.end) × (meets sp.node sp.start sp.end (range_at (lent ranges.old) i) ≡ true) }
    ensures same { SameColumns ranges.old ranges.new }
    ensures columns { lent ranges.new
        ≡ lay_ranges 0 (n + result)
        (at_place i (pieces sp.node sp.start sp.end top time next) (records (lent ranges.old) 0 n))
        (lent ranges.old) }
    ensures count { result ≡ plus (ltb sp.end (at ranges.old.end.now i)) (plus (ltb (at ranges.old.start.now i) sp.start) 0) }
{
    let head = ranges.start[i] < sp.start;
    let tail = sp.end < ranges.end[i];
    let h = split_if(ranges, n, i, head, sp.start, next);
    let m = i + h;
    let t = split_if(ranges, n + h, m, tail, sp.end, next + h as u64);
    ranges.stamp[m] = top;
    ranges.touched[m] = time;
    h + t
}

// The records from lo up to hi cut so, one after another. How many pieces are new.
fn recut(
    ranges: &mut RangesMut,
    n: usize,
    lo: usize,
    hi: usize,
    sp: Span,
    top: u64,
    time: f64,
    next: u64,
) -> usize
    requires { (sp.start < sp.end)
        × (next + new_pieces sp.node sp.start sp.end (records (lent ranges.old) 0 n) ≤ 281474976710655)
        × (n + new_pieces sp.node sp.start sp.end (records (lent ranges.old) 0 n) ≤ 128)
        × Cuttable (lent ranges.old) n lo hi sp }
    ensures same { SameColumns ranges.old ranges.new }
    ensures columns { lent ranges.new
        ≡ lay_ranges 0 (n + result) (recut sp.node sp.start sp.end top time next (records (lent ranges.old) 0 n)) (lent ranges.old) }
    ensures count { result ≡ new_pieces sp.node sp.start sp.end (records (lent ranges.old) 0 n) }
{
    let mut p = 0;
    for j in lo..hi {
        p += recut_one(ranges, n + p, j + p, sp, top, time, next + p as u64);
    }
    p
}

// Do the records at places i and i + 1 touch on node v, with one stamp and one write?
fn joins_at(ranges: RangesRef, i: usize, v: usize) -> bool
    requires { (i + 1 < 128) × Sized 128 (seen ranges) }
    ensures { result ≡ joins v (range_at (seen ranges.entry) i) (range_at (seen ranges.entry) (i + 1)) }
{
    let a = ranges.at(i);
    let b = ranges.at(i + 1);
    a.node == v && b.node == v && a.end == b.start && a.stamp == b.stamp && a.write == b.write
}

// The record at place i joined with the next.
fn merge(ranges: &mut RangesMut, n: usize, i: usize)
    requires { (i + 1 < n) × (n ≤ 128) × Sized 128 (lent ranges.old) }
    ensures same { SameColumns ranges.old ranges.new }
    ensures columns { lent ranges.new ≡ lay_ranges 0 n (at_place i merged (records (lent ranges.old) 0 n)) (lent ranges.old) }
{
    ranges.end[i] = ranges.end[i + 1];
    ranges.cut(n, i + 1);
}

// Touching neighbours on node v with one stamp and one write joined: how many records there are then. A `while`, since a join lowers the end and leaves i.
fn join_ranges(ranges: &mut RangesMut, n: usize, v: usize) -> usize
    requires { (1 ≤ n) × (n ≤ 128) × Sized 128 (lent ranges.old) }
    ensures same { SameColumns ranges.old ranges.new }
    ensures columns { lent ranges.new ≡ lay_ranges 0 n (join v (records (lent ranges.old) 0 n)) (lent ranges.old) }
    ensures count { (result ≡ length (join v (records (lent ranges.old) 0 n))) × (result ≤ n) }
{
    let mut m = n;
    let mut i = 0;
    while i + 1 < m {
        if joins_at(ranges.view(), i, v) {
            merge(ranges, m, i);
            m -= 1;
        } else {
            i += 1;
        }
    }
    m
}

// How many records there are after a refreshing, and how many it needed.
#[derive(Clone, Copy)]
struct Renewed {
    n: usize,
    need: usize,
}

// The overlapped records from lo up to hi refreshed with the next stamp.
fn refresh(
    ranges: &mut RangesMut,
    n: usize,
    lo: usize,
    hi: usize,
    sp: Span,
    time: f64,
    top: u64,
    next: u64,
) -> Renewed
    requires lo_lt_hi { (lo < hi) × (top < 281474976710655) × Cuttable (lent ranges.old) n lo hi sp }
    requires start_lt_end { (sp.start < sp.end)
        × (next + new_pieces sp.node sp.start sp.end (records (lent ranges.old) 0 n) ≤ 281474976710655)
        × (n + new_pieces sp.node sp.start sp.end (records (lent ranges.old) 0 n) ≤ 128) }
    ensures same { SameColumns ranges.old ranges.new }
    ensures refreshed { Refreshed sp (suc top) time next (lent ranges.old) (lent ranges.new) n lo (hi - lo) result.n result.need }
{
    if one_inside(ranges.view(), sp, lo, hi) {
        ranges.stamp[lo] = top + 1;
        ranges.touched[lo] = time;
        return Renewed { n, need: 0 };
    }
    let need = recut(ranges, n, lo, hi, sp, top + 1, time, next);
    let m = join_ranges(ranges, n + need, sp.node);
    Renewed { n: m, need }
}

// The bytes read, if reads are counted.
fn read_bytes(
    depth: &[usize],
    ranges: RangesRef,
    bytes: &[u64],
    sp: Span,
    lo: usize,
    hi: usize,
    counted: bool,
) -> u64
    requires lo_le_hi { (lo ≤ hi) × (hi ≤ 128) × (hi ≤ length ranges.start.now) × (hi ≤ length ranges.end.now)
        × Priced depth.now bytes.now sp }
    requires each { Each lo hi (λ (i : ℕ). max sp.start (at ranges.start.now i) ≤ min sp.end (at ranges.end.now i)) }
    ensures { result ≡ bytes_read counted (only_depth depth.now) bytes.now sp (records (seen ranges.entry) lo (hi - lo)) }
{
    if counted {
        rule_overlap::held_bytes(depth, ranges, bytes, sp, lo, hi)
    } else {
        0
    }
}

// One span of a store used at a time: the read is marked and counted, and what the span overlaps is refreshed.
pub fn store_used(
    depth: &[usize],
    ranges: &mut RangesMut,
    marks: &mut [usize],
    bytes: &[u64],
    n: usize,
    sp: Span,
    time: f64,
    counted: bool,
    refreshes: bool,
    top: u64,
    next: u64,
) -> Used
    requires n_bound { (n ≤ 128)
        × Sized 128 (lent ranges.old)
        × Ordered ranges.old.node.now ranges.old.start.now ranges.old.end.now n }
    requires start_lt_end { (sp.start < sp.end) × (sp.node < length marks.old) × Priced depth.now bytes.now sp }
    requires touch_fits { TouchFits ranges.old.node.now ranges.old.start.now ranges.old.end.now n sp refreshes top next }
    ensures same { SameColumns ranges.old ranges.new }
    ensures touching { (t : Tree) (x : Store)
        → t.depth ≡ depth.now
        → x.ranges ≡ records (lent ranges.old) 0 n
        → x.book.stamp ≡ top
        → eqb x.book.policy 1 ≡ refreshes
        → x.marks ≡ marks.old
        → Touching (touch t bytes.now x next sp time counted) (lent ranges.old) (lent ranges.new) marks.new n result }
{
    let lo = rule_overlap::first_overlap(ranges.view(), n, sp);
    let hi = rule_overlap::end_overlap(ranges.view(), n, sp, lo);
    if lo == hi {
        return Used {
            n,
            need: 0,
            stamps: 0,
            bytes: 0,
        };
    }
    let read = read_bytes(depth, ranges.view(), bytes, sp, lo, hi, counted);
    mark_read(marks, sp, counted);
    if !refreshes {
        return Used {
            n,
            need: 0,
            stamps: 0,
            bytes: read,
        };
    }
    let renewed = refresh(ranges, n, lo, hi, sp, time, top, next);
    Used {
        n: renewed.n,
        need: renewed.need,
        stamps: 1,
        bytes: read,
    }
}
