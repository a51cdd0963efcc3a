#![tactic(auto)]
// The calls that Rust makes on the tree: the columns in their order, the answer lists, a list for the answer's values, whether the state is known to be
// sound, then the arguments. The result is 0, or the refusal's number. What is asked where it is known, one owner guarantees who sets up once and changes
// the state by these calls only; else every test is made, and nothing is asked of the state.
ghost use Rattle.std.specs.Prelude.{◌≡◌, true, length};
ghost use Rattle.model.specs.Words.{Says};
ghost use Rattle.model.specs.Sound.{Sound};
ghost use Rattle.model.specs.Refusals.{PathFits, TierFits};
ghost use Rattle.model.specs.Calls.{set_up, resolve_call, insert as insert_call, lookup};
ghost use Rattle.shape_answer.specs.Lists.{path_list_of, tier_list_of, lists_of};
ghost use Rattle.shape_answer.specs.Answers.{state_from, outcome};
ghost use Rattle.rust_values.specs.Told.{Tells, told_plain, resolve_at, resolve_values, insert_at, insert_values, lookup_at, lookup_values};

// Sets up the tree and the stores, one for each capacity.
#[unsafe(no_mangle)]
pub extern "C" fn scorebeetle_set_up(
    parent: &mut [usize],
    depth: &mut [usize],
    len: &mut [usize],
    run: &mut [usize],
    words: &[u64],
    node: &[usize],
    start: &[usize],
    end: &[usize],
    id: &[u64],
    stamp: &[u64],
    touched: &[f64],
    write: &[u32],
    pin_node: &[usize],
    pin_start: &[usize],
    pin_end: &[usize],
    pin_count: &[u64],
    marks: &mut [usize],
    bytes: &mut [u64],
    books: &mut [u64],
    table: &[u64],
    capacity: &[u64],
    refreshes: &[bool],
) -> u8
    ensures { let old = state_from parent.old depth.old len.old run.old words.now node.now
        start.now end.now id.now stamp.now touched.now write.now pin_node.now
        pin_start.now pin_end.now pin_count.now marks.old bytes.old books.old in
        let new = state_from parent.new depth.new len.new run.new words.now node.now
        start.now end.now id.now stamp.now touched.now write.now pin_node.now
        pin_start.now pin_end.now pin_count.now marks.new bytes.new books.new in
        outcome new tt (told_plain result) ≡ set_up old table.now capacity.now refreshes.now }
{
    let r = known::set_up(
        parent, depth, len, run, words, node, start, end, id, stamp, touched, write, pin_node,
        pin_start, pin_end, pin_count, marks, bytes, books, table, capacity, refreshes,
    );
    rust_values::told::plain(r)
}

// How far the tree has a list.
#[unsafe(no_mangle)]
pub extern "C" fn scorebeetle_resolve(
    parent: &[usize],
    depth: &[usize],
    len: &[usize],
    run: &[usize],
    words: &[u64],
    node: &[usize],
    start: &[usize],
    end: &[usize],
    id: &[u64],
    stamp: &[u64],
    touched: &[f64],
    write: &[u32],
    pin_node: &[usize],
    pin_start: &[usize],
    pin_end: &[usize],
    pin_count: &[u64],
    marks: &[usize],
    bytes: &[u64],
    books: &[u64],
    path_node: &mut [usize],
    path_len: &mut [usize],
    answer: &mut [u64; 19],
    known: bool,
    hashes: &[u64],
) -> u8
    requires { (length answer.old ≡ 19)
        × (known ≡ true
        → Sound (state_from parent.now depth.now len.now run.now words.now node.now start.now end.now id.now stamp.now touched.now
        write.now pin_node.now pin_start.now pin_end.now pin_count.now marks.now bytes.now books.now)
        × PathFits (path_list_of path_node.old path_len.old)) }
    ensures { let st = state_from parent.now depth.now len.now run.now words.now node.now
        start.now end.now id.now stamp.now touched.now write.now pin_node.now
        pin_start.now pin_end.now pin_count.now marks.now bytes.now books.now in
        let lent = path_list_of path_node.old path_len.old in
        let left = path_list_of path_node.new path_len.new in
        Tells resolve_at resolve_values (resolve_call st lent hashes.now) st left result answer.old answer.new }
{
    if known {
        let r = known::resolve(
            parent, depth, len, run, words, node, start, end, id, stamp, touched, write, pin_node,
            pin_start, pin_end, pin_count, marks, bytes, books, path_node, path_len, hashes,
        );
        return rust_values::told::path(answer, r);
    }
    let r = radix::resolve(
        parent, depth, len, run, words, node, start, end, id, stamp, touched, write, pin_node,
        pin_start, pin_end, pin_count, marks, bytes, books, path_node, path_len, hashes,
    );
    rust_values::told::path(answer, r)
}

// A list into the tree.
#[unsafe(no_mangle)]
pub extern "C" fn scorebeetle_insert(
    parent: &mut [usize],
    depth: &mut [usize],
    len: &mut [usize],
    run: &mut [usize],
    words: &mut [u64],
    node: &mut [usize],
    start: &mut [usize],
    end: &mut [usize],
    id: &mut [u64],
    stamp: &mut [u64],
    touched: &mut [f64],
    write: &mut [u32],
    pin_node: &mut [usize],
    pin_start: &mut [usize],
    pin_end: &mut [usize],
    pin_count: &mut [u64],
    marks: &mut [usize],
    bytes: &[u64],
    books: &mut [u64],
    path_node: &mut [usize],
    path_len: &mut [usize],
    answer: &mut [u64; 19],
    known: bool,
    hashes: &[u64],
) -> u8
    requires { (length answer.old ≡ 19)
        × (known ≡ true
        → Sound (state_from parent.old depth.old len.old run.old words.old node.old start.old end.old id.old stamp.old touched.old
        write.old pin_node.old pin_start.old pin_end.old pin_count.old marks.old bytes.now books.old)
        × PathFits (path_list_of path_node.old path_len.old)) }
    ensures { let old = state_from parent.old depth.old len.old run.old words.old node.old
        start.old end.old id.old stamp.old touched.old write.old pin_node.old
        pin_start.old pin_end.old pin_count.old marks.old bytes.now books.old in
        let new = state_from parent.new depth.new len.new run.new words.new node.new
        start.new end.new id.new stamp.new touched.new write.new pin_node.new
        pin_start.new pin_end.new pin_count.new marks.new bytes.now books.new in
        let lent = path_list_of path_node.old path_len.old in
        let left = path_list_of path_node.new path_len.new in
        Tells insert_at insert_values (insert_call old lent hashes.now) new left result answer.old answer.new }
{
    if known {
        let r = known::insert(
            parent, depth, len, run, words, node, start, end, id, stamp, touched, write, pin_node,
            pin_start, pin_end, pin_count, marks, bytes, books, path_node, path_len, hashes,
        );
        return rust_values::told::inserted(answer, r);
    }
    let r = radix::insert(
        parent, depth, len, run, words, node, start, end, id, stamp, touched, write, pin_node,
        pin_start, pin_end, pin_count, marks, bytes, books, path_node, path_len, hashes,
    );
    rust_values::told::inserted(answer, r)
}

// What the tiers hold of a list, along its path from block 0.
#[unsafe(no_mangle)]
pub extern "C" fn scorebeetle_lookup(
    parent: &[usize],
    depth: &[usize],
    len: &[usize],
    run: &[usize],
    words: &[u64],
    node: &[usize],
    start: &[usize],
    end: &[usize],
    id: &[u64],
    stamp: &[u64],
    touched: &[f64],
    write: &[u32],
    pin_node: &[usize],
    pin_start: &[usize],
    pin_end: &[usize],
    pin_count: &[u64],
    marks: &[usize],
    bytes: &[u64],
    books: &[u64],
    path_node: &mut [usize],
    path_len: &mut [usize],
    span_tier: &mut [usize],
    span_node: &mut [usize],
    span_start: &mut [usize],
    span_end: &mut [usize],
    answer: &mut [u64; 19],
    known: bool,
    tiers: &[usize],
    hashes: &[u64],
) -> u8
    requires { (length answer.old ≡ 19)
        × (known ≡ true
        → Sound (state_from parent.now depth.now len.now run.now words.now node.now start.now end.now id.now stamp.now touched.now
        write.now pin_node.now pin_start.now pin_end.now pin_count.now marks.now bytes.now books.now)
        × PathFits (path_list_of path_node.old path_len.old)
        × TierFits (tier_list_of span_tier.old span_node.old span_start.old span_end.old)) }
    ensures { let st = state_from parent.now depth.now len.now run.now words.now node.now
        start.now end.now id.now stamp.now touched.now write.now pin_node.now
        pin_start.now pin_end.now pin_count.now marks.now bytes.now books.now in
        let lent = lists_of (path_list_of path_node.old path_len.old) (tier_list_of span_tier.old
        span_node.old span_start.old span_end.old) in
        let left = lists_of (path_list_of path_node.new path_len.new)
        (tier_list_of span_tier.new span_node.new
        span_start.new span_end.new) in
        Tells lookup_at lookup_values (lookup st lent tiers.now hashes.now) st left result answer.old answer.new }
{
    if known {
        let r = known::lookup(
            parent, depth, len, run, words, node, start, end, id, stamp, touched, write, pin_node,
            pin_start, pin_end, pin_count, marks, bytes, books, path_node, path_len, span_tier,
            span_node, span_start, span_end, tiers, hashes,
        );
        return rust_values::told::looked(answer, r);
    }
    let r = radix::lookup(
        parent, depth, len, run, words, node, start, end, id, stamp, touched, write, pin_node,
        pin_start, pin_end, pin_count, marks, bytes, books, path_node, path_len, span_tier,
        span_node, span_start, span_end, tiers, hashes,
    );
    rust_values::told::looked(answer, r)
}

// Whether the state is sound, the whole test.
#[unsafe(no_mangle)]
pub extern "C" fn scorebeetle_sound_state(
    parent: &[usize],
    depth: &[usize],
    len: &[usize],
    run: &[usize],
    words: &[u64],
    node: &[usize],
    start: &[usize],
    end: &[usize],
    id: &[u64],
    stamp: &[u64],
    touched: &[f64],
    write: &[u32],
    pin_node: &[usize],
    pin_start: &[usize],
    pin_end: &[usize],
    pin_count: &[u64],
    marks: &[usize],
    bytes: &[u64],
    books: &[u64],
) -> bool
    ensures { let st = state_from parent.now depth.now len.now run.now words.now node.now
        start.now end.now id.now stamp.now touched.now write.now pin_node.now
        pin_start.now pin_end.now pin_count.now marks.now bytes.now books.now in
        Says result (Sound st) }
{
    known::sound_state(
        parent, depth, len, run, words, node, start, end, id, stamp, touched, write, pin_node,
        pin_start, pin_end, pin_count, marks, bytes, books,
    )
}
