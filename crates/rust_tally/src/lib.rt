#![tactic(auto)]
// The counted calls that Rust makes, in the shape of those of `rust_store`, for a state that is known to be sound: who keeps a report keeps its state too.
ghost use Rattle.std.specs.Prelude.{◌≡◌, ◌≤◌, length};
ghost use Rattle.model.specs.Sizes.{out_places};
ghost use Rattle.model.specs.Sound.{Sound};
ghost use Rattle.model.specs.Refusals.{OutFits, PathFits, TierFits};
ghost use Rattle.model_sums.specs.Sums.{sum_places};
ghost use Rattle.model_sums.specs.Tally.{summed, tally_insert, tally_expire, tally_remove, tally_lookup};
ghost use Rattle.shape_answer.specs.Lists.{out_list, path_list_of, tier_list_of, lists_of};
ghost use Rattle.shape_answer.specs.Answers.{state_from};
ghost use Rattle.rust_values.specs.Told.{Tells, bring_at, bring_values, remove_at, remove_values, expire_at, expire_values, lookup_at, lookup_values};

use model::Span;

// Brings a span into store s, with the sums kept.
#[unsafe(no_mangle)]
pub extern "C" fn scorebeetle_tally_insert(
    parent: &[usize],
    depth: &[usize],
    len: &[usize],
    run: &[usize],
    words: &[u64],
    node: &mut [usize],
    start: &mut [usize],
    end: &mut [usize],
    id: &mut [u64],
    stamp: &mut [u64],
    touched: &mut [f64],
    write: &mut [u32],
    pin_node: &[usize],
    pin_start: &[usize],
    pin_end: &[usize],
    pin_count: &[u64],
    marks: &mut [usize],
    bytes: &[u64],
    books: &mut [u64],
    out_node: &mut [usize],
    out_start: &mut [usize],
    out_end: &mut [usize],
    out_write: &mut [u32],
    out_bytes: &mut [u64],
    out_dead: &mut [u64],
    sums: &mut [u64],
    answer: &mut [u64; 19],
    s: usize,
    on: usize,
    from: usize,
    upto: usize,
    time: f64,
    w: u32,
) -> u8
    requires { (length answer.old ≡ 19)
        × Sound
        (state_from parent.now depth.now len.now run.now words.now node.old start.old end.old id.old stamp.old touched.old
        write.old pin_node.now pin_start.now pin_end.now pin_count.now marks.old bytes.now books.old)
        × OutFits (out_list out_node.old out_start.old out_end.old out_write.old out_bytes.old out_dead.old)
        × (sum_places ≤ length sums.old) }
    ensures { let old = state_from parent.now depth.now len.now run.now words.now node.old
        start.old end.old id.old stamp.old touched.old write.old
        pin_node.now pin_start.now pin_end.now pin_count.now marks.old
        bytes.now books.old in
        let new = state_from parent.now depth.now len.now run.now words.now node.new
        start.new end.new id.new stamp.new touched.new write.new
        pin_node.now pin_start.now pin_end.now pin_count.now marks.new
        bytes.now books.new in
        let lent = summed (out_list out_node.old out_start.old out_end.old out_write.old
        out_bytes.old out_dead.old) sums.old in
        let left = summed (out_list out_node.new out_start.new out_end.new out_write.new
        out_bytes.new out_dead.new) sums.new in
        Tells bring_at bring_values (tally_insert old lent s (record { node = on; start = from; end = upto }) time w) new left result
        answer.old answer.new }
{
    let sp = Span {
        node: on,
        start: from,
        end: upto,
    };
    let r = call_tally_bring::tally_insert(
        parent, depth, len, run, words, node, start, end, id, stamp, touched, write, pin_node,
        pin_start, pin_end, pin_count, marks, bytes, books, out_node, out_start, out_end,
        out_write, out_bytes, out_dead, sums, s, sp, time, w,
    );
    rust_values::told::store_inserted(answer, r)
}

// Gives out what store s has not touched for more than the seconds, with the sums kept.
#[unsafe(no_mangle)]
pub extern "C" fn scorebeetle_tally_expire(
    parent: &[usize],
    depth: &[usize],
    len: &[usize],
    run: &[usize],
    words: &[u64],
    node: &mut [usize],
    start: &mut [usize],
    end: &mut [usize],
    id: &mut [u64],
    stamp: &mut [u64],
    touched: &mut [f64],
    write: &mut [u32],
    pin_node: &[usize],
    pin_start: &[usize],
    pin_end: &[usize],
    pin_count: &[u64],
    marks: &mut [usize],
    bytes: &[u64],
    books: &mut [u64],
    out_node: &mut [usize],
    out_start: &mut [usize],
    out_end: &mut [usize],
    out_write: &mut [u32],
    out_bytes: &mut [u64],
    out_dead: &mut [u64],
    sums: &mut [u64],
    answer: &mut [u64; 19],
    s: usize,
    time: f64,
    seconds: f64,
) -> u8
    requires { (length answer.old ≡ 19)
        × Sound
        (state_from parent.now depth.now len.now run.now words.now node.old start.old end.old id.old stamp.old touched.old
        write.old pin_node.now pin_start.now pin_end.now pin_count.now marks.old bytes.now books.old)
        × OutFits (out_list out_node.old out_start.old out_end.old out_write.old out_bytes.old out_dead.old)
        × (sum_places ≤ length sums.old) }
    ensures { let old = state_from parent.now depth.now len.now run.now words.now node.old
        start.old end.old id.old stamp.old touched.old write.old
        pin_node.now pin_start.now pin_end.now pin_count.now marks.old
        bytes.now books.old in
        let new = state_from parent.now depth.now len.now run.now words.now node.new
        start.new end.new id.new stamp.new touched.new write.new
        pin_node.now pin_start.now pin_end.now pin_count.now marks.new
        bytes.now books.new in
        let lent = summed (out_list out_node.old out_start.old out_end.old out_write.old
        out_bytes.old out_dead.old) sums.old in
        let left = summed (out_list out_node.new out_start.new out_end.new out_write.new
        out_bytes.new out_dead.new) sums.new in
        Tells expire_at expire_values (tally_expire old lent s time seconds) new left result
        answer.old answer.new }
{
    let r = call_tally_expire::tally_expire(
        parent, depth, len, run, words, node, start, end, id, stamp, touched, write, pin_node,
        pin_start, pin_end, pin_count, marks, bytes, books, out_node, out_start, out_end,
        out_write, out_bytes, out_dead, sums, s, time, seconds,
    );
    rust_values::told::store_expired(answer, r)
}

// Takes a span out of store s, with the sums kept.
#[unsafe(no_mangle)]
pub extern "C" fn scorebeetle_tally_remove(
    parent: &[usize],
    depth: &[usize],
    len: &[usize],
    run: &[usize],
    words: &[u64],
    node: &mut [usize],
    start: &mut [usize],
    end: &mut [usize],
    id: &mut [u64],
    stamp: &mut [u64],
    touched: &mut [f64],
    write: &mut [u32],
    pin_node: &[usize],
    pin_start: &[usize],
    pin_end: &[usize],
    pin_count: &[u64],
    marks: &mut [usize],
    bytes: &[u64],
    books: &mut [u64],
    list: &mut [u32],
    sums: &mut [u64],
    answer: &mut [u64; 19],
    s: usize,
    on: usize,
    from: usize,
    upto: usize,
) -> u8
    requires { (length answer.old ≡ 19)
        × Sound
        (state_from parent.now depth.now len.now run.now words.now node.old start.old end.old id.old stamp.old touched.old
        write.old pin_node.now pin_start.now pin_end.now pin_count.now marks.old bytes.now books.old)
        × (out_places ≤ length list.old)
        × (sum_places ≤ length sums.old) }
    ensures { let old = state_from parent.now depth.now len.now run.now words.now node.old
        start.old end.old id.old stamp.old touched.old write.old
        pin_node.now pin_start.now pin_end.now pin_count.now marks.old
        bytes.now books.old in
        let new = state_from parent.now depth.now len.now run.now words.now node.new
        start.new end.new id.new stamp.new touched.new write.new
        pin_node.now pin_start.now pin_end.now pin_count.now marks.new
        bytes.now books.new in
        let lent = summed list.old sums.old in
        let left = summed list.new sums.new in
        Tells remove_at remove_values (tally_remove old lent s (record { node = on; start = from; end = upto })) new left result
        answer.old answer.new }
{
    let sp = Span {
        node: on,
        start: from,
        end: upto,
    };
    let r = call_tally_remove::tally_remove(
        parent, depth, len, run, words, node, start, end, id, stamp, touched, write, pin_node,
        pin_start, pin_end, pin_count, marks, bytes, books, list, sums, s, sp,
    );
    rust_values::told::store_removed(answer, r)
}

// Looks a list up through tiers, with the sums kept.
#[unsafe(no_mangle)]
pub extern "C" fn scorebeetle_tally_lookup(
    parent: &[usize],
    depth: &[usize],
    len: &[usize],
    run: &[usize],
    words: &[u64],
    node: &[usize],
    start: &[usize],
    end: &[usize],
    id: &[u64],
    stamp: &[u64],
    touched: &[f64],
    write: &[u32],
    pin_node: &[usize],
    pin_start: &[usize],
    pin_end: &[usize],
    pin_count: &[u64],
    marks: &[usize],
    bytes: &[u64],
    books: &[u64],
    path_node: &mut [usize],
    path_len: &mut [usize],
    span_tier: &mut [usize],
    span_node: &mut [usize],
    span_start: &mut [usize],
    span_end: &mut [usize],
    sums: &mut [u64],
    answer: &mut [u64; 19],
    tiers: &[usize],
    hashes: &[u64],
) -> u8
    requires { (length answer.old ≡ 19)
        × Sound
        (state_from parent.now depth.now len.now run.now words.now node.now start.now end.now id.now stamp.now touched.now
        write.now pin_node.now pin_start.now pin_end.now pin_count.now marks.now bytes.now books.now)
        × PathFits (path_list_of path_node.old path_len.old)
        × TierFits (tier_list_of span_tier.old span_node.old span_start.old span_end.old)
        × (sum_places ≤ length sums.old) }
    ensures { let old = state_from parent.now depth.now len.now run.now words.now node.now
        start.now end.now id.now stamp.now touched.now write.now
        pin_node.now pin_start.now pin_end.now pin_count.now marks.now
        bytes.now books.now in
        let new = state_from parent.now depth.now len.now run.now words.now node.now
        start.now end.now id.now stamp.now touched.now write.now
        pin_node.now pin_start.now pin_end.now pin_count.now marks.now
        bytes.now books.now in
        let lent = summed (lists_of (path_list_of path_node.old path_len.old)
        (tier_list_of span_tier.old span_node.old span_start.old span_end.old)) sums.old in
        let left = summed (lists_of (path_list_of path_node.new path_len.new)
        (tier_list_of span_tier.new span_node.new span_start.new span_end.new)) sums.new in
        Tells lookup_at lookup_values (tally_lookup old lent tiers.now hashes.now) new left result
        answer.old answer.new }
{
    let r = call_tally_lookup::tally_lookup(
        parent, depth, len, run, words, node, start, end, id, stamp, touched, write, pin_node,
        pin_start, pin_end, pin_count, marks, bytes, books, path_node, path_len, span_tier,
        span_node, span_start, span_end, sums, tiers, hashes,
    );
    rust_values::told::looked(answer, r)
}
