#![tactic(auto)]

ghost use Rattle.std.specs.Prelude.{◌≡◌, ℕ, ◌≤◌, length};
ghost use Rattle.model.specs.Words.{Says, Some};
ghost use Rattle.model.specs.State.{at};
ghost use Rattle.model.specs.Sound.{Sound};
ghost use Rattle.model.specs.Refusals.{PathFits, TierFits};
ghost use Rattle.model.specs.Lookup.{each_tier};
ghost use Rattle.model.specs.Calls.{lookup};
ghost use Rattle.shape_answer.specs.Lists.{path_list_of};
ghost use Rattle.shape_answer.specs.Lists.{tier_list_of, lists_of};
ghost use Rattle.shape_answer.specs.Answers.{state_from, outcome, looked_of};

use model::{EachTier, LookupAnswer, Path};
use pool_range::RangesRef;
use shape_answer::Looked;

// Is some tier no store?
fn no_tier(tiers: &[usize], stores: usize) -> bool
    ensures { Says result (Some (length tiers.now) (λ (i : ℕ). stores ≤ at tiers.now i)) }
{
    tiers.iter().any(|&t| stores <= t)
}

fn each_tier(x: [u64; 8]) -> EachTier
    ensures { result ≡ each_tier x }
{
    let [first, second, third, fourth, fifth, sixth, seventh, eighth] = x;
    EachTier {
        first,
        second,
        third,
        fourth,
        fifth,
        sixth,
        seventh,
        eighth,
    }
}

// Lookup, with its tests for 2 and 3: the path and the tier spans stand in front of their lists.
pub fn lookup(
    parent: &[usize],
    depth: &[usize],
    len: &[usize],
    run: &[usize],
    words: &[u64],
    node: &[usize],
    start: &[usize],
    end: &[usize],
    id: &[u64],
    stamp: &[u64],
    touched: &[f64],
    write: &[u32],
    pin_node: &[usize],
    pin_start: &[usize],
    pin_end: &[usize],
    pin_count: &[u64],
    marks: &[usize],
    bytes: &[u64],
    books: &[u64],
    path_node: &mut [usize],
    path_len: &mut [usize],
    span_tier: &mut [usize],
    span_node: &mut [usize],
    span_start: &mut [usize],
    span_end: &mut [usize],
    tiers: &[usize],
    hashes: &[u64],
) -> Looked
    requires { Sound
        (state_from parent.now depth.now len.now run.now words.now node.now start.now end.now id.now stamp.now touched.now write.now
        pin_node.now pin_start.now pin_end.now pin_count.now marks.now bytes.now books.now)
        × PathFits (path_list_of path_node.old path_len.old)
        × TierFits (tier_list_of span_tier.old span_node.old span_start.old span_end.old) }
    ensures { outcome
        (state_from parent.now depth.now len.now run.now words.now node.now
        start.now end.now id.now stamp.now touched.now write.now
        pin_node.now pin_start.now pin_end.now pin_count.now marks.now
        bytes.now books.now)
        (lists_of (path_list_of path_node.new path_len.new)
        (tier_list_of span_tier.new span_node.new span_start.new span_end.new))
        (looked_of result)
        ≡ lookup
        (state_from parent.now depth.now len.now run.now words.now node.now
        start.now end.now id.now stamp.now touched.now write.now
        pin_node.now pin_start.now pin_end.now pin_count.now marks.now
        bytes.now books.now)
        (lists_of (path_list_of path_node.old path_len.old)
        (tier_list_of span_tier.old span_node.old span_start.old span_end.old))
        tiers.now hashes.now }
{
    if no_tier(tiers, books[2] as usize) {
        return Looked::Refused(2);
    }
    if 1024 < hashes.len() || test_arguments::many_tiers(tiers.len()) {
        return Looked::Refused(3);
    }
    let m = rule_resolve::resolve(
        parent,
        len,
        run,
        words,
        books[0] as usize,
        hashes,
        path_node,
        path_len,
    );
    let records = pool_book::records_of(books);
    let ranges = RangesRef {
        node,
        start,
        end,
        id,
        stamp,
        touched,
        write,
    };
    let w = rule_lookup::lookup_resolved(
        depth, ranges, bytes, path_node, path_len, span_tier, span_node, span_start, span_end,
        records, m.segs, tiers,
    );
    Looked::Done(LookupAnswer {
        path: Path {
            segs: m.segs,
            blocks: m.blocks,
        },
        spans: w.spans,
        blocks: each_tier(w.blocks),
        bytes: each_tier(w.bytes),
    })
}
