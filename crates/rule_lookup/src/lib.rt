#![tactic(auto)]

ghost use Rattle.std.specs.Prelude.{◌≡◌, List, ℕ, ◌*◌, ◌≤◌, ◌<◌, length};
ghost use Rattle.model.specs.State.{State};
ghost use Rattle.model.specs.Store;
ghost use Rattle.model.specs.Refusals.{TierFits};
ghost use Rattle.shape_answer.specs.Lists.{path_list_of, tier_list_of};
ghost use Rattle.pool_range.specs.Lent.{seen};
ghost use Rattle.rule_lookup.specs.Tiers.{range_end, Seen, Told};

use model::Span;
use pool_range::RangesRef;
use rule_resolve::span_bytes;

// Where the range that holds block o of node v ends, of the n records of store s.
fn range_end(ranges: RangesRef, s: usize, n: usize, v: usize, o: usize) -> Option<usize>
    requires { (s < 8)
        × (n ≤ 128)
        × (1024 ≤ length ranges.node.now)
        × (1024 ≤ length ranges.start.now)
        × (1024 ≤ length ranges.end.now) }
    ensures { result ≡ range_end v o (Store.ranges (seen ranges.entry) (128 * s) n) }
{
    let a = 128 * s;
    let i = (a..a + n).find(|&i| ranges.node[i] == v && ranges.start[i] <= o && o < ranges.end[i])?;
    Some(ranges.end[i])
}

// How many tier spans were found, and for each tier the sum of their blocks and of their bytes.
#[derive(Clone, Copy)]
pub struct LookupParts {
    pub spans: usize,
    pub blocks: [u64; 8],
    pub bytes: [u64; 8],
}

// Along a path from block 0: at each offset the first tier whose store holds it answers, up to its range's end or the segment's. The walk stops at the
// first offset that no tier holds.
pub fn lookup_resolved(
    depth: &[usize],
    ranges: RangesRef,
    bytes: &[u64],
    path_node: &[usize],
    path_len: &[usize],
    span_tier: &mut [usize],
    span_node: &mut [usize],
    span_start: &mut [usize],
    span_end: &mut [usize],
    records: [usize; 8],
    segs: usize,
    tiers: &[usize],
) -> LookupParts
    requires by_index { (st : State)
        × (hs : List ℕ)
        × Seen depth.now (seen ranges) bytes.now records (path_list_of path_node.now path_len.now) segs tiers.now st hs }
    requires tier_fits { TierFits (tier_list_of span_tier.old span_node.old span_start.old span_end.old) }
    ensures { (st : State) (hs : List ℕ)
        → Seen depth.now (seen ranges.entry) bytes.now records (path_list_of path_node.now path_len.now) segs tiers.now st hs
        → Told st tiers.now hs
        (tier_list_of span_tier.old span_node.old span_start.old span_end.old)
        (tier_list_of span_tier.new span_node.new span_start.new span_end.new) result }
{
    let mut spans = 0;
    let mut blocks = [0u64; 8];
    let mut sums = [0u64; 8];
    'segments: for i in 0..segs {
        let v = path_node[i];
        let z = path_len[i];
        let mut off = 0;
        while off < z {
            let (t, upto) = 'tier: {
                for (t, &s) in tiers.iter().enumerate() {
                    if let Some(e) = range_end(ranges, s, records[s], v, off) {
                        break 'tier (t, e.min(z));
                    }
                }
                (tiers.len(), off)
            };
            if upto == off {
                // No tier holds this block.
                break 'segments;
            }
            let span = Span {
                node: v,
                start: off,
                end: upto,
            };
            blocks[t] += (upto - off) as u64;
            sums[t] += span_bytes(depth, bytes, span);
            span_tier[spans] = t;
            span_node[spans] = v;
            span_start[spans] = off;
            span_end[spans] = upto;
            spans += 1;
            off = upto;
        }
    }
    LookupParts {
        spans,
        blocks,
        bytes: sums,
    }
}
