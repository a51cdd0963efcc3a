#![tactic(auto)]
// The running sums of request P1, on plain numbers: what a call's answer adds, whether that passes 2^63 - 1, and the adding.
ghost use Rattle.std.specs.Prelude.{◌≡◌, false, [], ◌∷◌, ◌+◌, ◌≤◌, ◌<◌, length, ltb, sum};
ghost use Rattle.model.specs.Sizes.{max_stores};
ghost use Rattle.model.specs.Words.{Says};
ghost use Rattle.model.specs.State.{at};
ghost use Rattle.model_sums.specs.Sums.{more, add, passes, max_sum, sum_places, removed_at, gave_at, all_tiers, listed_blocks};
ghost use Rattle.theory_sums.specs.Bounds.{Far, FarOver};
ghost use Rattle.pool_sums.specs.Amounts.{Listed, only_sums, out_sums, out_more, bring_more, expire_more, look_more};

use model::EachTier;

// The blocks, bytes and dead bytes of the spans that a call gave out.
#[derive(Clone, Copy)]
pub struct OutSums {
    pub blocks: u64,
    pub bytes: u64,
    pub dead: u64,
}

// ---- what a call's answer adds

// The sum of a column.
fn column_sum(col: &[u64]) -> u64
    requires { sum col.now ≤ max_sum }
    ensures { result ≡ sum col.now }
{
    col.iter().sum()
}

// The blocks of the first n given-out spans.
fn block_sum(start: &[usize], end: &[usize], n: usize) -> u64
    requires { (n ≤ length start.now) × (n ≤ length end.now) × (listed_blocks n (only_sums start.now end.now [] []) ≤ max_sum) }
    ensures { result ≡ listed_blocks n (only_sums start.now end.now [] []) }
{
    let mut sum: u64 = 0;
    for i in 0..n {
        sum += end[i].saturating_sub(start[i]) as u64;
    }
    sum
}

// Of the first n given-out spans.
pub fn out_sums(
    out_start: &[usize],
    out_end: &[usize],
    out_bytes: &[u64],
    out_dead: &[u64],
    n: usize,
) -> OutSums
    requires { Listed n (only_sums out_start.now out_end.now out_bytes.now out_dead.now) }
    ensures { result ≡ out_sums n (only_sums out_start.now out_end.now out_bytes.now out_dead.now) }
{
    OutSums {
        blocks: block_sum(out_start, out_end, n),
        bytes: column_sum(&out_bytes[..n]),
        dead: column_sum(&out_dead[..n]),
    }
}

// Of all tiers.
pub fn all_tiers(t: EachTier) -> u64
    requires { all_tiers t ≤ max_sum }
    ensures { result ≡ all_tiers t }
{
    t.first + t.second + t.third + t.fourth + t.fifth + t.sixth + t.seventh + t.eighth
}

// Where a bring-in's given-out blocks count, by the store's capacity.
fn gave_at(capacity: u64, s: usize) -> usize
    requires { s < max_stores }
    ensures { result ≡ gave_at capacity s }
{
    if capacity == 0 { 24 + s } else { 8 + s }
}

// ---- does it pass the limit?

// Would so much more at a place pass 2^63 - 1? A sum that would wrap is the largest number here, which passes too.
fn past(sums: &[u64], place: usize, amount: u64) -> bool
    requires { place < length sums.now }
    ensures { result ≡ ltb max_sum (at sums.now place + amount) }
{
    9223372036854775807 < sums[place].saturating_add(amount)
}

// Of given-out spans of store s, whose blocks count at the place.
fn outs_pass(sums: &[u64], place: usize, s: usize, o: OutSums) -> bool
    requires { (s < max_stores) × (place < sum_places) × (sum_places ≤ length sums.now) }
    ensures { result ≡ passes (out_more place s o) sums.now }
{
    past(sums, place, o.blocks) || past(sums, 40 + s, o.bytes) || past(sums, 48 + s, o.dead)
}

// Of a bring-in.
pub fn bring_passes(sums: &[u64], capacity: u64, s: usize, blocks: u64, o: OutSums) -> bool
    requires { (s < max_stores) × (sum_places ≤ length sums.now) }
    ensures { result ≡ passes (bring_more capacity s blocks o) sums.now }
{
    past(sums, s, blocks) || outs_pass(sums, gave_at(capacity, s), s, o)
}

// Of an expiry.
pub fn expire_passes(sums: &[u64], s: usize, o: OutSums) -> bool
    requires { (s < max_stores) × (sum_places ≤ length sums.now) }
    ensures { result ≡ passes (expire_more s o) sums.now }
{
    outs_pass(sums, 16 + s, s, o)
}

// Of a removal.
pub fn remove_passes(sums: &[u64], s: usize, blocks: u64) -> bool
    requires { (s < max_stores) × (sum_places ≤ length sums.now) }
    ensures { result ≡ passes (more (removed_at s) blocks ∷ []) sums.now }
{
    past(sums, 32 + s, blocks)
}

// Of a lookup.
pub fn look_passes(sums: &[u64], blocks: u64, bytes: u64) -> bool
    requires { sum_places ≤ length sums.now }
    ensures { result ≡ passes (look_more blocks bytes) sums.now }
{
    past(sums, 56, 1) || past(sums, 57, blocks) || past(sums, 58, bytes)
}

// ---- far from the limit

// Are the seven sums of store s at most 2^62? Then no call can pass the limit.
pub fn far(sums: &[u64], s: usize) -> bool
    requires { (s < max_stores) × (sum_places ≤ length sums.now) }
    ensures { Says result (Far s sums.now) }
{
    sums[s] <= 4611686018427387904
        && sums[8 + s] <= 4611686018427387904
        && sums[16 + s] <= 4611686018427387904
        && sums[24 + s] <= 4611686018427387904
        && sums[32 + s] <= 4611686018427387904
        && sums[40 + s] <= 4611686018427387904
        && sums[48 + s] <= 4611686018427387904
}

// The same of the three over all.
pub fn far_over(sums: &[u64]) -> bool
    requires { sum_places ≤ length sums.now }
    ensures { Says result (FarOver sums.now) }
{
    sums[56] <= 4611686018427387904
        && sums[57] <= 4611686018427387904
        && sums[58] <= 4611686018427387904
}

// ---- adding

fn add_at(sums: &mut [u64], place: usize, amount: u64)
    requires { (place < length sums.old) × (at sums.old place + amount ≤ max_sum) }
    ensures { sums.new ≡ add (more place amount ∷ []) sums.old }
{
    sums[place] += amount;
}

// Given-out spans of store s, whose blocks count at the place.
fn add_outs(sums: &mut [u64], place: usize, s: usize, o: OutSums)
    requires { (s < max_stores) × (place < 40) × (sum_places ≤ length sums.old) × (passes (out_more place s o) sums.old ≡ false) }
    ensures { sums.new ≡ add (out_more place s o) sums.old }
{
    add_at(sums, place, o.blocks);
    add_at(sums, 40 + s, o.bytes);
    add_at(sums, 48 + s, o.dead);
}

// A bring-in.
pub fn add_bring(sums: &mut [u64], capacity: u64, s: usize, blocks: u64, o: OutSums)
    requires { (s < max_stores) × (sum_places ≤ length sums.old) × (passes (bring_more capacity s blocks o) sums.old ≡ false) }
    ensures { sums.new ≡ add (bring_more capacity s blocks o) sums.old }
{
    add_at(sums, s, blocks);
    add_outs(sums, gave_at(capacity, s), s, o);
}

// An expiry.
pub fn add_expire(sums: &mut [u64], s: usize, o: OutSums)
    requires { (s < max_stores) × (sum_places ≤ length sums.old) × (passes (expire_more s o) sums.old ≡ false) }
    ensures { sums.new ≡ add (expire_more s o) sums.old }
{
    add_outs(sums, 16 + s, s, o);
}

// A removal.
pub fn add_remove(sums: &mut [u64], s: usize, blocks: u64)
    requires { (s < max_stores) × (sum_places ≤ length sums.old) × (passes (more (removed_at s) blocks ∷ []) sums.old ≡ false) }
    ensures { sums.new ≡ add (more (removed_at s) blocks ∷ []) sums.old }
{
    add_at(sums, 32 + s, blocks);
}

// A lookup.
pub fn add_look(sums: &mut [u64], blocks: u64, bytes: u64)
    requires { (sum_places ≤ length sums.old) × (passes (look_more blocks bytes) sums.old ≡ false) }
    ensures { sums.new ≡ add (look_more blocks bytes) sums.old }
{
    add_at(sums, 56, 1);
    add_at(sums, 57, blocks);
    add_at(sums, 58, bytes);
}
