#![tactic(auto)]

ghost use Rattle.std.specs.Prelude.{◌≡◌, ◌≤◌, length};
ghost use Rattle.model.specs.Words.{Says};
ghost use Rattle.model.specs.Sound.{Sound};
ghost use Rattle.model.specs.Refusals.{PathFits, TierFits};
ghost use Rattle.model.specs.Calls.{LookupLists, lookup};
ghost use Rattle.model_sums.specs.Sums.{sum_places, Passes, by_lookup};
ghost use Rattle.model_sums.specs.Tally.{summed, tally_lookup};
ghost use Rattle.shape_answer.specs.Lists.{path_list_of, tier_list_of, lists_of};
ghost use Rattle.shape_answer.specs.Answers.{state_from, outcome, looked_of};

use shape_answer::Looked;

// Would a lookup pass the limit of a sum? Only near the limit is it made for that, with lists of its own.
fn late(
    parent: &[usize],
    depth: &[usize],
    len: &[usize],
    run: &[usize],
    words: &[u64],
    node: &[usize],
    start: &[usize],
    end: &[usize],
    id: &[u64],
    stamp: &[u64],
    touched: &[f64],
    write: &[u32],
    pin_node: &[usize],
    pin_start: &[usize],
    pin_end: &[usize],
    pin_count: &[u64],
    marks: &[usize],
    bytes: &[u64],
    books: &[u64],
    sums: &[u64],
    tiers: &[usize],
    hashes: &[u64],
) -> bool
    requires { Sound
        (state_from parent.now depth.now len.now run.now words.now node.now start.now end.now id.now stamp.now touched.now write.now
        pin_node.now pin_start.now pin_end.now pin_count.now marks.now bytes.now books.now)
        × (sum_places ≤ length sums.now) }
    ensures { (l : LookupLists)
        → PathFits l.path
        → TierFits l.spans
        → Says result
        (Passes
        (by_lookup
        (lookup
        (state_from parent.now depth.now len.now run.now words.now node.now
        start.now end.now id.now stamp.now touched.now write.now pin_node.now
        pin_start.now pin_end.now pin_count.now marks.now bytes.now books.now)
        l tiers.now hashes.now))
        sums.now) }
{
    if pool_sums::far_over(sums) {
        return false;
    }
    let mut path_node = [0usize; 255];
    let mut path_len = [0usize; 255];
    let mut span_tier = [0usize; 1024];
    let mut span_node = [0usize; 1024];
    let mut span_start = [0usize; 1024];
    let mut span_end = [0usize; 1024];
    let r = call_lookup::lookup(
        parent,
        depth,
        len,
        run,
        words,
        node,
        start,
        end,
        id,
        stamp,
        touched,
        write,
        pin_node,
        pin_start,
        pin_end,
        pin_count,
        marks,
        bytes,
        books,
        &mut path_node,
        &mut path_len,
        &mut span_tier,
        &mut span_node,
        &mut span_start,
        &mut span_end,
        tiers,
        hashes,
    );
    match r {
        Looked::Refused(_) => false,
        Looked::Done(a) => {
            let blocks = pool_sums::all_tiers(a.blocks);
            let bytes = pool_sums::all_tiers(a.bytes);
            pool_sums::look_passes(sums, blocks, bytes)
        }
    }
}

// A lookup in a sound state that keeps the sums: the plain call, and 21 where a sum would pass 2^63 - 1.
pub fn tally_lookup(
    parent: &[usize],
    depth: &[usize],
    len: &[usize],
    run: &[usize],
    words: &[u64],
    node: &[usize],
    start: &[usize],
    end: &[usize],
    id: &[u64],
    stamp: &[u64],
    touched: &[f64],
    write: &[u32],
    pin_node: &[usize],
    pin_start: &[usize],
    pin_end: &[usize],
    pin_count: &[u64],
    marks: &[usize],
    bytes: &[u64],
    books: &[u64],
    path_node: &mut [usize],
    path_len: &mut [usize],
    span_tier: &mut [usize],
    span_node: &mut [usize],
    span_start: &mut [usize],
    span_end: &mut [usize],
    sums: &mut [u64],
    tiers: &[usize],
    hashes: &[u64],
) -> Looked
    requires { Sound
        (state_from parent.now depth.now len.now run.now words.now node.now start.now end.now id.now stamp.now touched.now write.now
        pin_node.now pin_start.now pin_end.now pin_count.now marks.now bytes.now books.now)
        × PathFits (path_list_of path_node.old path_len.old)
        × TierFits (tier_list_of span_tier.old span_node.old span_start.old span_end.old)
        × (sum_places ≤ length sums.old) }
    ensures { outcome
        (state_from parent.now depth.now len.now run.now words.now node.now
        start.now end.now id.now stamp.now touched.now write.now pin_node.now
        pin_start.now pin_end.now pin_count.now marks.now bytes.now books.now)
        (summed (lists_of (path_list_of path_node.new path_len.new)
        (tier_list_of span_tier.new span_node.new span_start.new span_end.new)) sums.new)
        (looked_of result)
        ≡ tally_lookup
        (state_from parent.now depth.now len.now run.now words.now node.now
        start.now end.now id.now stamp.now touched.now write.now pin_node.now
        pin_start.now pin_end.now pin_count.now marks.now bytes.now books.now)
        (summed (lists_of (path_list_of path_node.old path_len.old)
        (tier_list_of span_tier.old span_node.old span_start.old span_end.old)) sums.old)
        tiers.now hashes.now }
{
    if late(
        parent, depth, len, run, words, node, start, end, id, stamp, touched, write, pin_node,
        pin_start, pin_end, pin_count, marks, bytes, books, sums, tiers, hashes,
    ) {
        return Looked::Refused(21);
    }
    let r = call_lookup::lookup(
        parent, depth, len, run, words, node, start, end, id, stamp, touched, write, pin_node,
        pin_start, pin_end, pin_count, marks, bytes, books, path_node, path_len, span_tier,
        span_node, span_start, span_end, tiers, hashes,
    );
    match r {
        Looked::Refused(n) => Looked::Refused(n),
        Looked::Done(a) => {
            let blocks = pool_sums::all_tiers(a.blocks);
            let bytes = pool_sums::all_tiers(a.bytes);
            pool_sums::add_look(sums, blocks, bytes);
            Looked::Done(a)
        }
    }
}
