#![tactic(auto)]
// A bring-in: the gaps of a span are filled, then the store is trimmed.
ghost use Rattle.std.specs.Prelude.{List, ℕ, ◌+◌, ◌*◌, length};
ghost use Rattle.model.specs.Store.{ranges as rangesOf, pins as pinsOf};
ghost use Rattle.model.specs.Bring.{fill as fillOf};
ghost use Rattle.model.specs.Trim.{trim as trimOf};
ghost use Rattle.shape_state.specs.Lent.{ranges_of};
ghost use Rattle.rule_resolve.specs.Span.{only_depth};
ghost use Rattle.pool_out.specs.Outs.{listed, SameOuts};
ghost use Rattle.pool_part.specs.Parts.{mid};
ghost use Rattle.rule_choose.specs.Choose.{HoldsPins, counted};
ghost use Rattle.rule_fill.specs.Gaps.{gaps_of};
ghost use Rattle.rule_evict.specs.Given.{GivenOut};
ghost use Rattle.rule_bring.specs.Part.{PartReady};
ghost use Rattle.rule_bring.specs.Pool.{PoolReady, GivenOutAt};

use pool_out::OutsMut;
use pool_range::RangesMut;
use rule_fill::{Fresh, Gaps};
use rule_trim::Trimming;
use shape_state::PinsRef;

// In a store's part each gap gets a record; then the part is trimmed. `held` counts the gaps' blocks already. The columns of ranges stand one by one here
// and below: a slice of a slice that is put in a struct is lost to the check.
pub fn bring_part(
    depth: &[usize],
    node: &mut [usize],
    start: &mut [usize],
    end: &mut [usize],
    id: &mut [u64],
    stamp: &mut [u64],
    touched: &mut [f64],
    write: &mut [u32],
    pins: PinsRef,
    marks: &mut [usize],
    bytes: &[u64],
    outs: &mut OutsMut,
    n: usize,
    m: usize,
    held: u64,
    capacity: u64,
    version: u64,
    gaps: &Gaps,
    fresh: Fresh,
) -> Trimming
    requires part_ready { PartReady depth.now bytes.now n held (ranges_of node.old start.old end.old id.old stamp.old touched.old write.old) marks.old
        (listed outs.old) fresh.node gaps.now fresh.stamp fresh.id fresh.time fresh.write }
    requires m_in_bounds { HoldsPins m pins }
    ensures same_outs { SameOuts outs.old outs.new }
    ensures brought { (count : List ℕ) → GivenOut
        (trimOf (only_depth depth.now) bytes.now (pinsOf (counted pins.entry count) 0 m) capacity
        (fillOf fresh.node (gaps_of gaps.now) fresh.stamp fresh.id fresh.time fresh.write
        (rangesOf (ranges_of node.old start.old end.old id.old stamp.old touched.old write.old) 0 n))
        marks.old)
        (n + length (gaps_of gaps.now)) version
        (ranges_of node.old start.old end.old id.old stamp.old touched.old write.old) (listed outs.old)
        (ranges_of node.new start.new end.new id.new stamp.new touched.new write.new) marks.new (listed outs.new)
        result.n result.held result.outs result.version result.stalled }
{
    let mut ranges = RangesMut {
        node,
        start,
        end,
        id,
        stamp,
        touched,
        write,
    };
    let records = rule_fill::fill(&mut ranges, n, gaps, fresh);
    rule_trim::store_trim_capacity(
        depth,
        &mut ranges,
        pins,
        marks,
        bytes,
        outs,
        records,
        m,
        held,
        capacity,
        version,
    )
}

// The same in the parts of store s, of the whole pools.
pub fn bring_pools(
    depth: &[usize],
    node: &mut [usize],
    start: &mut [usize],
    end: &mut [usize],
    id: &mut [u64],
    stamp: &mut [u64],
    touched: &mut [f64],
    write: &mut [u32],
    pins: PinsRef,
    marks: &mut [usize],
    bytes: &[u64],
    outs: &mut OutsMut,
    s: usize,
    n: usize,
    m: usize,
    held: u64,
    capacity: u64,
    version: u64,
    gaps: &Gaps,
    fresh: Fresh,
) -> Trimming
    requires { PoolReady depth.now bytes.now s n m held (ranges_of node.old start.old end.old id.old stamp.old touched.old write.old) marks.old
        (listed outs.old) pins.node.now pins.start.now pins.end.now fresh.node gaps.now fresh.stamp fresh.id fresh.time fresh.write }
    ensures same_outs { SameOuts outs.old outs.new }
    ensures brought { (count : List ℕ) → GivenOutAt s
        (trimOf (only_depth depth.now) bytes.now (pinsOf (counted pins.entry count) (32 * s) m) capacity
        (fillOf fresh.node (gaps_of gaps.now) fresh.stamp fresh.id fresh.time fresh.write
        (rangesOf (ranges_of node.old start.old end.old id.old stamp.old touched.old write.old) (128 * s) n))
        (mid (256 * s) 256 marks.old))
        (n + length (gaps_of gaps.now)) version
        (ranges_of node.old start.old end.old id.old stamp.old touched.old write.old) marks.old (listed outs.old)
        (ranges_of node.new start.new end.new id.new stamp.new touched.new write.new) marks.new (listed outs.new)
        result.n result.held result.outs result.version result.stalled }
{
    let a = 128 * s;
    let e = a + 128;
    let b = 256 * s;
    let f = b + 256;
    let p = 32 * s;
    let q = p + 32;
    // A trim looks at no counts.
    let part = PinsRef {
        node: &pins.node[p..q],
        start: &pins.start[p..q],
        end: &pins.end[p..q],
        count: &[],
    };
    bring_part(
        depth,
        &mut node[a..e],
        &mut start[a..e],
        &mut end[a..e],
        &mut id[a..e],
        &mut stamp[a..e],
        &mut touched[a..e],
        &mut write[a..e],
        part,
        &mut marks[b..f],
        bytes,
        outs,
        n,
        m,
        held,
        capacity,
        version,
        gaps,
        fresh,
    )
}
