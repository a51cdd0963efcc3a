#![tactic(auto)]
// The public calls that only read: resolve, lookup and the counters. The tests for 1 and 14, then the call that a caller with a sound state uses.
ghost use Rattle.std.specs.Prelude.{◌≡◌};
ghost use Rattle.model.specs.Calls.{resolve_call, lookup, held_call, capacity_call, pinned_call, available_call, version_call, stalls_call};
ghost use Rattle.shape_answer.specs.Lists.{path_list_of, tier_list_of, lists_of};
ghost use Rattle.shape_answer.specs.Answers.{state_from, outcome, resolved_of, looked_of, count_of};

use shape_answer::{Count, Looked, Resolved};

// The path of the hashes that the tree has.
pub fn resolve(
    parent: &[usize],
    depth: &[usize],
    len: &[usize],
    run: &[usize],
    words: &[u64],
    node: &[usize],
    start: &[usize],
    end: &[usize],
    id: &[u64],
    stamp: &[u64],
    touched: &[f64],
    write: &[u32],
    pin_node: &[usize],
    pin_start: &[usize],
    pin_end: &[usize],
    pin_count: &[u64],
    marks: &[usize],
    bytes: &[u64],
    books: &[u64],
    path_node: &mut [usize],
    path_len: &mut [usize],
    hashes: &[u64],
) -> Resolved
    ensures { outcome
        (state_from parent.now depth.now len.now run.now words.now node.now
        start.now end.now id.now stamp.now touched.now write.now
        pin_node.now pin_start.now pin_end.now pin_count.now marks.now
        bytes.now books.now)
        (path_list_of path_node.new path_len.new) (resolved_of result)
        ≡ resolve_call
        (state_from parent.now depth.now len.now run.now words.now node.now
        start.now end.now id.now stamp.now touched.now write.now
        pin_node.now pin_start.now pin_end.now pin_count.now marks.now
        bytes.now books.now)
        (path_list_of path_node.old path_len.old) hashes.now }
{
    if !test_state::sound_state(
        parent, depth, len, run, words, node, start, end, id, stamp, touched, write, pin_node,
        pin_start, pin_end, pin_count, marks, bytes, books,
    ) {
        return Resolved::Refused(1);
    }
    if !test_arguments::path_fits(path_node, path_len) {
        return Resolved::Refused(14);
    }
    call_resolve::resolve(
        parent, depth, len, run, words, node, start, end, id, stamp, touched, write, pin_node,
        pin_start, pin_end, pin_count, marks, bytes, books, path_node, path_len, hashes,
    )
}

// What the tiers hold of the list, along its path from block 0.
pub fn lookup(
    parent: &[usize],
    depth: &[usize],
    len: &[usize],
    run: &[usize],
    words: &[u64],
    node: &[usize],
    start: &[usize],
    end: &[usize],
    id: &[u64],
    stamp: &[u64],
    touched: &[f64],
    write: &[u32],
    pin_node: &[usize],
    pin_start: &[usize],
    pin_end: &[usize],
    pin_count: &[u64],
    marks: &[usize],
    bytes: &[u64],
    books: &[u64],
    path_node: &mut [usize],
    path_len: &mut [usize],
    span_tier: &mut [usize],
    span_node: &mut [usize],
    span_start: &mut [usize],
    span_end: &mut [usize],
    tiers: &[usize],
    hashes: &[u64],
) -> Looked
    ensures { outcome
        (state_from parent.now depth.now len.now run.now words.now node.now
        start.now end.now id.now stamp.now touched.now write.now
        pin_node.now pin_start.now pin_end.now pin_count.now marks.now
        bytes.now books.now)
        (lists_of (path_list_of path_node.new path_len.new)
        (tier_list_of span_tier.new span_node.new span_start.new span_end.new))
        (looked_of result)
        ≡ lookup
        (state_from parent.now depth.now len.now run.now words.now node.now
        start.now end.now id.now stamp.now touched.now write.now
        pin_node.now pin_start.now pin_end.now pin_count.now marks.now
        bytes.now books.now)
        (lists_of (path_list_of path_node.old path_len.old)
        (tier_list_of span_tier.old span_node.old span_start.old span_end.old))
        tiers.now hashes.now }
{
    if !test_state::sound_state(
        parent, depth, len, run, words, node, start, end, id, stamp, touched, write, pin_node,
        pin_start, pin_end, pin_count, marks, bytes, books,
    ) {
        return Looked::Refused(1);
    }
    if !test_arguments::path_fits(path_node, path_len) {
        return Looked::Refused(14);
    }
    if !test_arguments::tiers_fit(span_tier, span_node, span_start, span_end) {
        return Looked::Refused(14);
    }
    call_lookup::lookup(
        parent, depth, len, run, words, node, start, end, id, stamp, touched, write, pin_node,
        pin_start, pin_end, pin_count, marks, bytes, books, path_node, path_len, span_tier,
        span_node, span_start, span_end, tiers, hashes,
    )
}

// How many blocks store s holds.
pub fn store_held_blocks(
    parent: &[usize],
    depth: &[usize],
    len: &[usize],
    run: &[usize],
    words: &[u64],
    node: &[usize],
    start: &[usize],
    end: &[usize],
    id: &[u64],
    stamp: &[u64],
    touched: &[f64],
    write: &[u32],
    pin_node: &[usize],
    pin_start: &[usize],
    pin_end: &[usize],
    pin_count: &[u64],
    marks: &[usize],
    bytes: &[u64],
    books: &[u64],
    s: usize,
) -> Count
    ensures { outcome
        (state_from parent.now depth.now len.now run.now words.now node.now
        start.now end.now id.now stamp.now touched.now write.now
        pin_node.now pin_start.now pin_end.now pin_count.now marks.now
        bytes.now books.now)
        tt (count_of result)
        ≡ held_call
        (state_from parent.now depth.now len.now run.now words.now node.now
        start.now end.now id.now stamp.now touched.now write.now
        pin_node.now pin_start.now pin_end.now pin_count.now marks.now
        bytes.now books.now)
        s }
{
    if !test_state::sound_state(
        parent, depth, len, run, words, node, start, end, id, stamp, touched, write, pin_node,
        pin_start, pin_end, pin_count, marks, bytes, books,
    ) {
        return Count::Refused(1);
    }
    call_count::store_held_blocks(books, s)
}

// For how many blocks store s has room.
pub fn store_capacity_blocks(
    parent: &[usize],
    depth: &[usize],
    len: &[usize],
    run: &[usize],
    words: &[u64],
    node: &[usize],
    start: &[usize],
    end: &[usize],
    id: &[u64],
    stamp: &[u64],
    touched: &[f64],
    write: &[u32],
    pin_node: &[usize],
    pin_start: &[usize],
    pin_end: &[usize],
    pin_count: &[u64],
    marks: &[usize],
    bytes: &[u64],
    books: &[u64],
    s: usize,
) -> Count
    ensures { outcome
        (state_from parent.now depth.now len.now run.now words.now node.now
        start.now end.now id.now stamp.now touched.now write.now
        pin_node.now pin_start.now pin_end.now pin_count.now marks.now
        bytes.now books.now)
        tt (count_of result)
        ≡ capacity_call
        (state_from parent.now depth.now len.now run.now words.now node.now
        start.now end.now id.now stamp.now touched.now write.now
        pin_node.now pin_start.now pin_end.now pin_count.now marks.now
        bytes.now books.now)
        s }
{
    if !test_state::sound_state(
        parent, depth, len, run, words, node, start, end, id, stamp, touched, write, pin_node,
        pin_start, pin_end, pin_count, marks, bytes, books,
    ) {
        return Count::Refused(1);
    }
    call_count::store_capacity_blocks(books, s)
}

// How many blocks are pinned in store s, each as often as it is pinned.
pub fn store_pinned_blocks(
    parent: &[usize],
    depth: &[usize],
    len: &[usize],
    run: &[usize],
    words: &[u64],
    node: &[usize],
    start: &[usize],
    end: &[usize],
    id: &[u64],
    stamp: &[u64],
    touched: &[f64],
    write: &[u32],
    pin_node: &[usize],
    pin_start: &[usize],
    pin_end: &[usize],
    pin_count: &[u64],
    marks: &[usize],
    bytes: &[u64],
    books: &[u64],
    s: usize,
) -> Count
    ensures { outcome
        (state_from parent.now depth.now len.now run.now words.now node.now
        start.now end.now id.now stamp.now touched.now write.now
        pin_node.now pin_start.now pin_end.now pin_count.now marks.now
        bytes.now books.now)
        tt (count_of result)
        ≡ pinned_call
        (state_from parent.now depth.now len.now run.now words.now node.now
        start.now end.now id.now stamp.now touched.now write.now
        pin_node.now pin_start.now pin_end.now pin_count.now marks.now
        bytes.now books.now)
        s }
{
    if !test_state::sound_state(
        parent, depth, len, run, words, node, start, end, id, stamp, touched, write, pin_node,
        pin_start, pin_end, pin_count, marks, bytes, books,
    ) {
        return Count::Refused(1);
    }
    call_count::store_pinned_blocks(books, s)
}

// Capacity less pinned, or 0.
pub fn store_available_for_stage(
    parent: &[usize],
    depth: &[usize],
    len: &[usize],
    run: &[usize],
    words: &[u64],
    node: &[usize],
    start: &[usize],
    end: &[usize],
    id: &[u64],
    stamp: &[u64],
    touched: &[f64],
    write: &[u32],
    pin_node: &[usize],
    pin_start: &[usize],
    pin_end: &[usize],
    pin_count: &[u64],
    marks: &[usize],
    bytes: &[u64],
    books: &[u64],
    s: usize,
) -> Count
    ensures { outcome
        (state_from parent.now depth.now len.now run.now words.now node.now
        start.now end.now id.now stamp.now touched.now write.now
        pin_node.now pin_start.now pin_end.now pin_count.now marks.now
        bytes.now books.now)
        tt (count_of result)
        ≡ available_call
        (state_from parent.now depth.now len.now run.now words.now node.now
        start.now end.now id.now stamp.now touched.now write.now
        pin_node.now pin_start.now pin_end.now pin_count.now marks.now
        bytes.now books.now)
        s }
{
    if !test_state::sound_state(
        parent, depth, len, run, words, node, start, end, id, stamp, touched, write, pin_node,
        pin_start, pin_end, pin_count, marks, bytes, books,
    ) {
        return Count::Refused(1);
    }
    call_count::store_available_for_stage(books, s)
}

// How often store s gave out or removed, from 2^64 - 1 to 0.
pub fn source_version(
    parent: &[usize],
    depth: &[usize],
    len: &[usize],
    run: &[usize],
    words: &[u64],
    node: &[usize],
    start: &[usize],
    end: &[usize],
    id: &[u64],
    stamp: &[u64],
    touched: &[f64],
    write: &[u32],
    pin_node: &[usize],
    pin_start: &[usize],
    pin_end: &[usize],
    pin_count: &[u64],
    marks: &[usize],
    bytes: &[u64],
    books: &[u64],
    s: usize,
) -> Count
    ensures { outcome
        (state_from parent.now depth.now len.now run.now words.now node.now
        start.now end.now id.now stamp.now touched.now write.now
        pin_node.now pin_start.now pin_end.now pin_count.now marks.now
        bytes.now books.now)
        tt (count_of result)
        ≡ version_call
        (state_from parent.now depth.now len.now run.now words.now node.now
        start.now end.now id.now stamp.now touched.now write.now
        pin_node.now pin_start.now pin_end.now pin_count.now marks.now
        bytes.now books.now)
        s }
{
    if !test_state::sound_state(
        parent, depth, len, run, words, node, start, end, id, stamp, touched, write, pin_node,
        pin_start, pin_end, pin_count, marks, bytes, books,
    ) {
        return Count::Refused(1);
    }
    call_count::source_version(books, s)
}

// How often trimming stalled.
pub fn pin_stalls(
    parent: &[usize],
    depth: &[usize],
    len: &[usize],
    run: &[usize],
    words: &[u64],
    node: &[usize],
    start: &[usize],
    end: &[usize],
    id: &[u64],
    stamp: &[u64],
    touched: &[f64],
    write: &[u32],
    pin_node: &[usize],
    pin_start: &[usize],
    pin_end: &[usize],
    pin_count: &[u64],
    marks: &[usize],
    bytes: &[u64],
    books: &[u64],
) -> Count
    ensures { outcome
        (state_from parent.now depth.now len.now run.now words.now node.now
        start.now end.now id.now stamp.now touched.now write.now
        pin_node.now pin_start.now pin_end.now pin_count.now marks.now
        bytes.now books.now)
        tt (count_of result)
        ≡ stalls_call
        (state_from parent.now depth.now len.now run.now words.now node.now
        start.now end.now id.now stamp.now touched.now write.now
        pin_node.now pin_start.now pin_end.now pin_count.now marks.now
        bytes.now books.now) }
{
    if !test_state::sound_state(
        parent, depth, len, run, words, node, start, end, id, stamp, touched, write, pin_node,
        pin_start, pin_end, pin_count, marks, bytes, books,
    ) {
        return Count::Refused(1);
    }
    call_count::pin_stalls(books)
}
