#![tactic(auto)]
// A store's ranges are given out until no more than its capacity is held.
ghost use Rattle.std.specs.Prelude.{List, ℕ};
ghost use Rattle.model.specs.Store.{ranges as rangesOf, pins as pinsOf};
ghost use Rattle.model.specs.Trim.{trim};
ghost use Rattle.rule_resolve.specs.Span.{only_depth};
ghost use Rattle.pool_range.specs.Lent.{lent, SameColumns};
ghost use Rattle.pool_out.specs.Outs.{listed, SameOuts};
ghost use Rattle.rule_choose.specs.Choose.{HoldsPins, counted};
ghost use Rattle.rule_evict.specs.Given.{Ready, GivenOut};

use pool_out::OutsMut;
use pool_range::RangesMut;
use shape_state::PinsRef;

// How many records are left, how many blocks they hold, how many spans were given out, the version, and whether it ended in a stall.
#[derive(Clone, Copy)]
pub struct Trimming {
    pub n: usize,
    pub held: u64,
    pub outs: usize,
    pub version: u64,
    pub stalled: bool,
}

// While more than the capacity is held: of the first range that no pin overlaps the last blocks are given out.
pub fn store_trim_capacity(
    depth: &[usize],
    ranges: &mut RangesMut,
    pins: PinsRef,
    marks: &mut [usize],
    bytes: &[u64],
    outs: &mut OutsMut,
    n: usize,
    m: usize,
    held: u64,
    capacity: u64,
    version: u64,
) -> Trimming
    requires ready { Ready depth.now bytes.now n held (lent ranges.old) marks.old (listed outs.old) }
    requires m_in_bounds { HoldsPins m pins }
    ensures same { SameColumns ranges.old ranges.new }
    ensures same_outs { SameOuts outs.old outs.new }
    ensures trimmed { (count : List ℕ) → GivenOut
        (trim (only_depth depth.now) bytes.now (pinsOf (counted pins.entry count) 0 m) capacity (rangesOf (lent ranges.old) 0 n) marks.old)
        n version (lent ranges.old) (listed outs.old) (lent ranges.new) marks.new (listed outs.new)
        result.n result.held result.outs result.version result.stalled }
{
    let mut t = Trimming {
        n,
        held,
        outs: 0,
        version,
        stalled: false,
    };
    while capacity < t.held {
        let Some(i) = rule_choose::first_free(ranges.view(), t.n, pins, m) else {
            return Trimming { stalled: true, ..t };
        };
        let excess = t.held - capacity;
        let gone = rule_evict::store_evict_entry(
            depth, ranges, marks, bytes, t.n, i, excess, t.version,
        );
        outs.put(t.outs, gone.out);
        t.n = gone.n;
        t.held -= gone.taken as u64;
        t.outs += 1;
        t.version = gone.version;
    }
    t
}
