#![tactic(auto)]
// The tests of arguments: those for 4 and 5, for 3 and 9 that read no pool, whether a touch has room for all its spans, and for 14, whether the answer
// lists of a call are as long as 01 says. And the tests of what a call needs, for 8 and 11.
ghost use Rattle.std.specs.Prelude.{◌≡◌, not, ◌||◌, ◌+◌, ◌≤◌, ◌<◌, ltb, length};
ghost use Rattle.model.specs.Words.{Says};
ghost use Rattle.model.specs.State.{Tree};
ghost use Rattle.model.specs.Sound.{Finite};
ghost use Rattle.model.specs.Refusals.{span_in, PathFits, OutFits, TierFits};
ghost use Rattle.model.specs.Sizes.{store_records, out_places, max_tiers, max_pinned, max_stamp};
ghost use Rattle.model.specs.Store.{plus};
ghost use Rattle.shape_answer.specs.Lists.{path_list_of, out_list};
ghost use Rattle.test_arguments.specs.Need.{need_number};
ghost use Rattle.test_arguments.specs.Room.{Roomy};

use model::Span;

const MAX_STAMP: u64 = 281474976710655;

// Neither infinite nor no number.
pub fn finite(x: f64) -> bool
    ensures { Says result (Finite x) }
{
    x.is_finite()
}

// Is the span of a node in use, nonempty and inside it?
pub fn span_in(len: &[usize], nodes: usize, sp: Span) -> bool
    requires { nodes ≤ length len.now }
    ensures { (t : Tree) → t.len ≡ len.now → t.nodes ≡ nodes → result ≡ span_in t sp }
{
    sp.node < nodes && sp.start < sp.end && sp.end <= len[sp.node]
}

pub fn path_fits(node: &[usize], len: &[usize]) -> bool
    ensures { Says result (PathFits (path_list_of node.now len.now)) }
{
    node.len() >= 255 && len.len() >= 255
}

pub fn outs_fit(
    node: &[usize],
    start: &[usize],
    end: &[usize],
    write: &[u32],
    bytes: &[u64],
    dead: &[u64],
) -> bool
    ensures { Says result (OutFits (out_list node.now start.now end.now write.now bytes.now dead.now)) }
{
    node.len() >= 128
        && start.len() >= 128
        && end.len() >= 128
        && write.len() >= 128
        && bytes.len() >= 128
        && dead.len() >= 128
}

pub fn writes_fit(list: &[u32]) -> bool
    ensures { Says result (out_places ≤ length list.now) }
{
    list.len() >= 128
}

pub fn tiers_fit(tier: &[usize], node: &[usize], start: &[usize], end: &[usize]) -> bool
    ensures { Says result (TierFits (record { tier = tier.now; node = node.now; start = start.now; end = end.now })) }
{
    tier.len() >= 1024 && node.len() >= 1024 && start.len() >= 1024 && end.len() >= 1024
}

// Are n tiers too many?
pub fn many_tiers(n: usize) -> bool
    ensures { Says result (max_tiers < n) }
{
    8 < n
}

// Would a pin of so many blocks exceed the store's entries or its pinned blocks?
pub fn too_many(there: bool, n: usize, pinned: u64, blocks: usize) -> bool
    requires { (n ≤ 32) × (pinned ≤ max_pinned) }
    ensures { result ≡ (ltb 32 (n + plus (not there) 0) || ltb max_pinned (pinned + blocks)) }
{
    1000000 - pinned < blocks as u64 || (!there && 32 <= n)
}

// No turn of `count` spans can be refused: each needs two records and ids and one stamp at most.
pub fn roomy(n: usize, top: u64, next: u64, count: usize) -> bool
    requires { (count ≤ 64) × (n ≤ 128) × (top ≤ max_stamp) × (next ≤ max_stamp) }
    ensures { Says result (Roomy n top next count) }
{
    n + 2 * count <= 128
        && count as u64 <= MAX_STAMP - top
        && 2 * (count as u64) <= MAX_STAMP - next
}

// What new records, ids and stamps are refused for in a store with n records, the last stamp `top` and the next id: 8, 11 or nothing, 0. Tested by
// differences, so that no sum can wrap.
pub fn need_number(n: usize, need: usize, top: u64, stamps: u64, next: u64) -> u8
    requires { (n ≤ store_records) × (top ≤ max_stamp) × (next ≤ max_stamp) }
    ensures { result ≡ need_number n need top stamps next }
{
    if 128 - n < need {
        8
    } else if MAX_STAMP - top < stamps || MAX_STAMP - next < need as u64 {
        11
    } else {
        0
    }
}
