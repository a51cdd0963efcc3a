#![tactic(auto)]
// Which range goes next: the first by stamp, then id, of all or of those that no pin overlaps.
ghost use Rattle.std.specs.Prelude.{◌≡◌, ◌≤◌, ◌<◌, length, IfSome};
ghost use Rattle.model.specs.State.{Ranges, range_at};
ghost use Rattle.model.specs.Trim.{sooner};
ghost use Rattle.pool_range.specs.Lent.{seen};
ghost use Rattle.rule_choose.specs.Choose.{overlapping, leads, HoldsPins, PinnedIs, FreeIs, OldestIs};

use model::Span;
use pool_range::RangesRef;
use shape_state::PinsRef;

// Do a range and a pin have a block in common?
fn overlaps(range: Span, pin: Span) -> bool
    ensures { result ≡ overlapping range pin }
{
    range.node == pin.node && range.start < pin.end && pin.start < range.end
}

// Does one of the first m pins overlap a range?
pub fn is_pinned(range: Span, pins: PinsRef, m: usize) -> bool
    requires { HoldsPins m pins }
    ensures { PinnedIs range pins.entry m result }
{
    for k in 0..m {
        let pin = Span {
            node: pins.node[k],
            start: pins.start[k],
            end: pins.end[k],
        };
        if overlaps(range, pin) {
            return true;
        }
    }
    false
}

// Is record i sooner than record j? By stamp, then id.
fn sooner(ranges: RangesRef, i: usize, j: usize) -> bool
    requires { (i < length ranges.id.now) × (i < length ranges.stamp.now) × (j < length ranges.id.now) × (j < length ranges.stamp.now) }
    ensures { result ≡ sooner (range_at (seen ranges.entry) i) (range_at (seen ranges.entry) j) }
{
    ranges.stamp[i] < ranges.stamp[j]
        || (ranges.stamp[i] == ranges.stamp[j] && ranges.id[i] < ranges.id[j])
}

// Is no record that was the best so far sooner than record i?
fn leads(ranges: RangesRef, n: usize, i: usize, best: Option<usize>) -> bool
    requires { (n ≤ length ranges.id.now) × (n ≤ length ranges.stamp.now) × (i < n) × IfSome best (λ b. b < n) }
    ensures { result ≡ leads (seen ranges.entry) i best }
{
    match best {
        Some(b) => !sooner(ranges, b, i),
        None => true,
    }
}

// The first range by stamp, then id, that no pin overlaps. Only a record that would be the best so far is asked for its pins.
pub fn first_free(ranges: RangesRef, n: usize, pins: PinsRef, m: usize) -> Option<usize>
    requires n_in_bounds { (n ≤ length ranges.node.now) × (n ≤ length ranges.start.now) × (n ≤ length ranges.end.now)
        × (n ≤ length ranges.id.now) × (n ≤ length ranges.stamp.now) }
    requires m_in_bounds { HoldsPins m pins }
    ensures { (c : Ranges)
        → c.node ≡ ranges.entry.node.now
        → c.start ≡ ranges.entry.start.now
        → c.end ≡ ranges.entry.end.now
        → c.id ≡ ranges.entry.id.now
        → c.stamp ≡ ranges.entry.stamp.now
        → FreeIs c n pins.entry m result }
{
    let mut best = None;
    for i in (0..n).rev() {
        let range = Span {
            node: ranges.node[i],
            start: ranges.start[i],
            end: ranges.end[i],
        };
        if leads(ranges, n, i, best) && !is_pinned(range, pins, m) {
            best = Some(i);
        }
    }
    best
}

// The first range by stamp, then id, pinned or not.
pub fn oldest(ranges: RangesRef, n: usize) -> Option<usize>
    requires { (n ≤ length ranges.id.now) × (n ≤ length ranges.stamp.now) }
    ensures { (c : Ranges) → c.id ≡ ranges.entry.id.now → c.stamp ≡ ranges.entry.stamp.now → OldestIs c n result }
{
    let mut best = None;
    for i in (0..n).rev() {
        if leads(ranges, n, i, best) {
            best = Some(i);
        }
    }
    best
}
