#![tactic(auto)]
// The calls that Rust makes on the stores, in the shape of those of `rust_tree`.
ghost use Rattle.std.specs.Prelude.{◌≡◌, true, ◌≤◌, length};
ghost use Rattle.model.specs.Words.{Says};
ghost use Rattle.model.specs.Sizes.{max_stores, max_numbers, out_places};
ghost use Rattle.model.specs.State.{State, stores_in};
ghost use Rattle.model.specs.Sound.{Sound};
ghost use Rattle.model.specs.Refusals.{OutFits};
ghost use Rattle.model.specs.Calls.{store_insert, store_used, store_remove, store_expire, pin_source, unpin_source};
ghost use Rattle.shape_answer.specs.Lists.{out_list};
ghost use Rattle.shape_answer.specs.Answers.{state_from, outcome, count_of};
ghost use Rattle.rust_values.specs.Told.{Tells, told_plain, count_at, count_values, bring_at, bring_values, touch_at, touch_values};
ghost use Rattle.rust_values.specs.Told.{remove_at, remove_values, expire_at, expire_values};
ghost use Rattle.rust_values.specs.Counter.{counter_call};
ghost use Rattle.rust_values.specs.Spans.{spans_of};

use model::Span;
use shape_answer::Count;

// Whether the state is sound: it is known, or tested here.
fn state_is_sound(
    parent: &[usize],
    depth: &[usize],
    len: &[usize],
    run: &[usize],
    words: &[u64],
    node: &[usize],
    start: &[usize],
    end: &[usize],
    id: &[u64],
    stamp: &[u64],
    touched: &[f64],
    write: &[u32],
    pin_node: &[usize],
    pin_start: &[usize],
    pin_end: &[usize],
    pin_count: &[u64],
    marks: &[usize],
    bytes: &[u64],
    books: &[u64],
    known: bool,
) -> bool
    requires { known ≡ true
        → Sound (state_from parent.now depth.now len.now run.now words.now node.now start.now end.now id.now stamp.now touched.now
        write.now pin_node.now pin_start.now pin_end.now pin_count.now marks.now bytes.now books.now) }
    ensures { let st = state_from parent.now depth.now len.now run.now words.now node.now
        start.now end.now id.now stamp.now touched.now write.now pin_node.now
        pin_start.now pin_end.now pin_count.now marks.now bytes.now books.now in
        Says result (Sound st) }
{
    if known {
        return true;
    }
    known::sound_state(
        parent, depth, len, run, words, node, start, end, id, stamp, touched, write, pin_node,
        pin_start, pin_end, pin_count, marks, bytes, books,
    )
}

// A span into store s.
#[unsafe(no_mangle)]
pub extern "C" fn scorebeetle_store_insert(
    parent: &[usize],
    depth: &[usize],
    len: &[usize],
    run: &[usize],
    words: &[u64],
    node: &mut [usize],
    start: &mut [usize],
    end: &mut [usize],
    id: &mut [u64],
    stamp: &mut [u64],
    touched: &mut [f64],
    write: &mut [u32],
    pin_node: &[usize],
    pin_start: &[usize],
    pin_end: &[usize],
    pin_count: &[u64],
    marks: &mut [usize],
    bytes: &[u64],
    books: &mut [u64],
    out_node: &mut [usize],
    out_start: &mut [usize],
    out_end: &mut [usize],
    out_write: &mut [u32],
    out_bytes: &mut [u64],
    out_dead: &mut [u64],
    answer: &mut [u64; 19],
    known: bool,
    s: usize,
    on: usize,
    from: usize,
    upto: usize,
    time: f64,
    w: u32,
) -> u8
    requires { (length answer.old ≡ 19)
        × (known ≡ true
        → Sound (state_from parent.now depth.now len.now run.now words.now node.old start.old end.old id.old stamp.old touched.old
        write.old pin_node.now pin_start.now pin_end.now pin_count.now marks.old bytes.now books.old)
        × OutFits (out_list out_node.old out_start.old out_end.old out_write.old out_bytes.old out_dead.old)) }
    ensures { let old = state_from parent.now depth.now len.now run.now words.now node.old
        start.old end.old id.old stamp.old touched.old write.old pin_node.now
        pin_start.now pin_end.now pin_count.now marks.old bytes.now books.old in
        let new = state_from parent.now depth.now len.now run.now words.now node.new
        start.new end.new id.new stamp.new touched.new write.new pin_node.now
        pin_start.now pin_end.now pin_count.now marks.new bytes.now books.new in
        let lent = out_list out_node.old out_start.old out_end.old out_write.old
        out_bytes.old out_dead.old in
        let left = out_list out_node.new out_start.new out_end.new out_write.new
        out_bytes.new
        out_dead.new in
        Tells bring_at bring_values (store_insert old lent s (record { node = on; start = from; end = upto }) time w) new left result answer.old
        answer.new }
{
    let sp = Span {
        node: on,
        start: from,
        end: upto,
    };
    if known {
        let r = known::store_insert(
            parent, depth, len, run, words, node, start, end, id, stamp, touched, write, pin_node,
            pin_start, pin_end, pin_count, marks, bytes, books, out_node, out_start, out_end,
            out_write, out_bytes, out_dead, s, sp, time, w,
        );
        return rust_values::told::store_inserted(answer, r);
    }
    let r = radix::store_insert(
        parent, depth, len, run, words, node, start, end, id, stamp, touched, write, pin_node,
        pin_start, pin_end, pin_count, marks, bytes, books, out_node, out_start, out_end,
        out_write, out_bytes, out_dead, s, sp, time, w,
    );
    rust_values::told::store_inserted(answer, r)
}

// The spans of three lists, as many as the shortest has, used in turn in store s.
#[unsafe(no_mangle)]
pub extern "C" fn scorebeetle_store_used(
    parent: &[usize],
    depth: &[usize],
    len: &[usize],
    run: &[usize],
    words: &[u64],
    node: &mut [usize],
    start: &mut [usize],
    end: &mut [usize],
    id: &mut [u64],
    stamp: &mut [u64],
    touched: &mut [f64],
    write: &mut [u32],
    pin_node: &[usize],
    pin_start: &[usize],
    pin_end: &[usize],
    pin_count: &[u64],
    marks: &mut [usize],
    bytes: &[u64],
    books: &mut [u64],
    answer: &mut [u64; 19],
    known: bool,
    s: usize,
    on: &[usize],
    from: &[usize],
    upto: &[usize],
    time: f64,
    counted: bool,
) -> u8
    requires { (length answer.old ≡ 19)
        × (known ≡ true
        → Sound (state_from parent.now depth.now len.now run.now words.now node.old start.old end.old id.old stamp.old touched.old
        write.old pin_node.now pin_start.now pin_end.now pin_count.now marks.old bytes.now books.old)) }
    ensures { let old = state_from parent.now depth.now len.now run.now words.now node.old
        start.old end.old id.old stamp.old touched.old write.old pin_node.now
        pin_start.now pin_end.now pin_count.now marks.old bytes.now books.old in
        let new = state_from parent.now depth.now len.now run.now words.now node.new
        start.new end.new id.new stamp.new touched.new write.new pin_node.now
        pin_start.now pin_end.now pin_count.now marks.new bytes.now books.new in
        Tells touch_at touch_values (store_used old s (spans_of on.now from.now upto.now) time counted) new tt result
        answer.old answer.new }
{
    if !state_is_sound(
        parent, depth, len, run, words, node, start, end, id, stamp, touched, write, pin_node,
        pin_start, pin_end, pin_count, marks, bytes, books, known,
    ) {
        return 1;
    }
    let n = rust_values::spans::count(on, from, upto);
    if 64 < n {
        let stores = books[2] as usize;
        return rust_values::spans::too_many(stores, s);
    }
    let spans = rust_values::spans::first_64(on, from, upto);
    let r = known::store_used_array(
        parent, depth, len, run, words, node, start, end, id, stamp, touched, write, pin_node,
        pin_start, pin_end, pin_count, marks, bytes, books, s, spans, n, time, counted,
    );
    rust_values::told::store_used(answer, r)
}

// A span out of store s.
#[unsafe(no_mangle)]
pub extern "C" fn scorebeetle_store_remove(
    parent: &[usize],
    depth: &[usize],
    len: &[usize],
    run: &[usize],
    words: &[u64],
    node: &mut [usize],
    start: &mut [usize],
    end: &mut [usize],
    id: &mut [u64],
    stamp: &mut [u64],
    touched: &mut [f64],
    write: &mut [u32],
    pin_node: &[usize],
    pin_start: &[usize],
    pin_end: &[usize],
    pin_count: &[u64],
    marks: &mut [usize],
    bytes: &[u64],
    books: &mut [u64],
    list: &mut [u32],
    answer: &mut [u64; 19],
    known: bool,
    s: usize,
    on: usize,
    from: usize,
    upto: usize,
) -> u8
    requires { (length answer.old ≡ 19)
        × (known ≡ true
        → Sound (state_from parent.now depth.now len.now run.now words.now node.old start.old end.old id.old stamp.old touched.old
        write.old pin_node.now pin_start.now pin_end.now pin_count.now marks.old bytes.now books.old)
        × (out_places ≤ length list.old)) }
    ensures { let old = state_from parent.now depth.now len.now run.now words.now node.old
        start.old end.old id.old stamp.old touched.old write.old pin_node.now
        pin_start.now pin_end.now pin_count.now marks.old bytes.now books.old in
        let new = state_from parent.now depth.now len.now run.now words.now node.new
        start.new end.new id.new stamp.new touched.new write.new pin_node.now
        pin_start.now pin_end.now pin_count.now marks.new bytes.now books.new in
        Tells remove_at remove_values (store_remove old list.old s (record { node = on; start = from; end = upto })) new list.new result
        answer.old answer.new }
{
    let sp = Span {
        node: on,
        start: from,
        end: upto,
    };
    if known {
        let r = known::store_remove(
            parent, depth, len, run, words, node, start, end, id, stamp, touched, write, pin_node,
            pin_start, pin_end, pin_count, marks, bytes, books, list, s, sp,
        );
        return rust_values::told::store_removed(answer, r);
    }
    let r = radix::store_remove(
        parent, depth, len, run, words, node, start, end, id, stamp, touched, write, pin_node,
        pin_start, pin_end, pin_count, marks, bytes, books, list, s, sp,
    );
    rust_values::told::store_removed(answer, r)
}

// What is older than the seconds leaves store s.
#[unsafe(no_mangle)]
pub extern "C" fn scorebeetle_store_expire(
    parent: &[usize],
    depth: &[usize],
    len: &[usize],
    run: &[usize],
    words: &[u64],
    node: &mut [usize],
    start: &mut [usize],
    end: &mut [usize],
    id: &mut [u64],
    stamp: &mut [u64],
    touched: &mut [f64],
    write: &mut [u32],
    pin_node: &[usize],
    pin_start: &[usize],
    pin_end: &[usize],
    pin_count: &[u64],
    marks: &mut [usize],
    bytes: &[u64],
    books: &mut [u64],
    out_node: &mut [usize],
    out_start: &mut [usize],
    out_end: &mut [usize],
    out_write: &mut [u32],
    out_bytes: &mut [u64],
    out_dead: &mut [u64],
    answer: &mut [u64; 19],
    known: bool,
    s: usize,
    time: f64,
    seconds: f64,
) -> u8
    requires { (length answer.old ≡ 19)
        × (known ≡ true
        → Sound (state_from parent.now depth.now len.now run.now words.now node.old start.old end.old id.old stamp.old touched.old
        write.old pin_node.now pin_start.now pin_end.now pin_count.now marks.old bytes.now books.old)
        × OutFits (out_list out_node.old out_start.old out_end.old out_write.old out_bytes.old out_dead.old)) }
    ensures { let old = state_from parent.now depth.now len.now run.now words.now node.old
        start.old end.old id.old stamp.old touched.old write.old pin_node.now
        pin_start.now pin_end.now pin_count.now marks.old bytes.now books.old in
        let new = state_from parent.now depth.now len.now run.now words.now node.new
        start.new end.new id.new stamp.new touched.new write.new pin_node.now
        pin_start.now pin_end.now pin_count.now marks.new bytes.now books.new in
        let lent = out_list out_node.old out_start.old out_end.old out_write.old
        out_bytes.old out_dead.old in
        let left = out_list out_node.new out_start.new out_end.new out_write.new
        out_bytes.new
        out_dead.new in
        Tells expire_at expire_values (store_expire old lent s time seconds) new left result answer.old answer.new }
{
    if known {
        let r = known::store_expire(
            parent, depth, len, run, words, node, start, end, id, stamp, touched, write, pin_node,
            pin_start, pin_end, pin_count, marks, bytes, books, out_node, out_start, out_end,
            out_write, out_bytes, out_dead, s, time, seconds,
        );
        return rust_values::told::store_expired(answer, r);
    }
    let r = radix::store_expire(
        parent, depth, len, run, words, node, start, end, id, stamp, touched, write, pin_node,
        pin_start, pin_end, pin_count, marks, bytes, books, out_node, out_start, out_end,
        out_write, out_bytes, out_dead, s, time, seconds,
    );
    rust_values::told::store_expired(answer, r)
}

// A pin on a span of store s.
#[unsafe(no_mangle)]
pub extern "C" fn scorebeetle_pin_source(
    parent: &[usize],
    depth: &[usize],
    len: &[usize],
    run: &[usize],
    words: &[u64],
    node: &[usize],
    start: &[usize],
    end: &[usize],
    id: &[u64],
    stamp: &[u64],
    touched: &[f64],
    write: &[u32],
    pin_node: &mut [usize],
    pin_start: &mut [usize],
    pin_end: &mut [usize],
    pin_count: &mut [u64],
    marks: &[usize],
    bytes: &[u64],
    books: &mut [u64],
    known: bool,
    s: usize,
    on: usize,
    from: usize,
    upto: usize,
) -> u8
    requires { known ≡ true
        → Sound (state_from parent.now depth.now len.now run.now words.now node.now start.now end.now id.now stamp.now touched.now
        write.now pin_node.old pin_start.old pin_end.old pin_count.old marks.now bytes.now books.old) }
    ensures { let old = state_from parent.now depth.now len.now run.now words.now node.now
        start.now end.now id.now stamp.now touched.now write.now pin_node.old
        pin_start.old pin_end.old pin_count.old marks.now bytes.now books.old in
        let new = state_from parent.now depth.now len.now run.now words.now node.now
        start.now end.now id.now stamp.now touched.now write.now pin_node.new
        pin_start.new pin_end.new pin_count.new marks.now bytes.now books.new in
        outcome new tt (told_plain result) ≡ pin_source old s (record { node = on; start = from; end = upto }) }
{
    let sp = Span {
        node: on,
        start: from,
        end: upto,
    };
    if known {
        let r = known::pin_source(
            parent, depth, len, run, words, node, start, end, id, stamp, touched, write, pin_node,
            pin_start, pin_end, pin_count, marks, bytes, books, s, sp,
        );
        return rust_values::told::plain(r);
    }
    let r = radix::pin_source(
        parent, depth, len, run, words, node, start, end, id, stamp, touched, write, pin_node,
        pin_start, pin_end, pin_count, marks, bytes, books, s, sp,
    );
    rust_values::told::plain(r)
}

// A pin off a span of store s.
#[unsafe(no_mangle)]
pub extern "C" fn scorebeetle_unpin_source(
    parent: &[usize],
    depth: &[usize],
    len: &[usize],
    run: &[usize],
    words: &[u64],
    node: &[usize],
    start: &[usize],
    end: &[usize],
    id: &[u64],
    stamp: &[u64],
    touched: &[f64],
    write: &[u32],
    pin_node: &mut [usize],
    pin_start: &mut [usize],
    pin_end: &mut [usize],
    pin_count: &mut [u64],
    marks: &[usize],
    bytes: &[u64],
    books: &mut [u64],
    known: bool,
    s: usize,
    on: usize,
    from: usize,
    upto: usize,
) -> u8
    requires { known ≡ true
        → Sound (state_from parent.now depth.now len.now run.now words.now node.now start.now end.now id.now stamp.now touched.now
        write.now pin_node.old pin_start.old pin_end.old pin_count.old marks.now bytes.now books.old) }
    ensures { let old = state_from parent.now depth.now len.now run.now words.now node.now
        start.now end.now id.now stamp.now touched.now write.now pin_node.old
        pin_start.old pin_end.old pin_count.old marks.now bytes.now books.old in
        let new = state_from parent.now depth.now len.now run.now words.now node.now
        start.now end.now id.now stamp.now touched.now write.now pin_node.new
        pin_start.new pin_end.new pin_count.new marks.now bytes.now books.new in
        outcome new tt (told_plain result) ≡ unpin_source old s (record { node = on; start = from; end = upto }) }
{
    let sp = Span {
        node: on,
        start: from,
        end: upto,
    };
    if known {
        let r = known::unpin_source(
            parent, depth, len, run, words, node, start, end, id, stamp, touched, write, pin_node,
            pin_start, pin_end, pin_count, marks, bytes, books, s, sp,
        );
        return rust_values::told::plain(r);
    }
    let r = radix::unpin_source(
        parent, depth, len, run, words, node, start, end, id, stamp, touched, write, pin_node,
        pin_start, pin_end, pin_count, marks, bytes, books, s, sp,
    );
    rust_values::told::plain(r)
}

// The counter of a number.
fn counter_of(books: &[u64], which: u8, s: usize) -> Count
    requires { (stores_in books.now ≤ max_stores) × (max_numbers ≤ length books.now) }
    ensures { (st : State) → st.books ≡ books.now → Sound st → count_of result ≡ (counter_call which st s).answer }
{
    match which {
        0 => known::store_held_blocks(books, s),
        1 => known::store_capacity_blocks(books, s),
        2 => known::store_pinned_blocks(books, s),
        3 => known::store_available_for_stage(books, s),
        4 => known::source_version(books, s),
        _ => known::pin_stalls(books),
    }
}

// A counter by its number: of store s, 0 blocks held, 1 capacity, 2 blocks pinned, 3 blocks available, 4 version; 5 and above the stalls of all stores.
#[unsafe(no_mangle)]
pub extern "C" fn scorebeetle_counter(
    parent: &[usize],
    depth: &[usize],
    len: &[usize],
    run: &[usize],
    words: &[u64],
    node: &[usize],
    start: &[usize],
    end: &[usize],
    id: &[u64],
    stamp: &[u64],
    touched: &[f64],
    write: &[u32],
    pin_node: &[usize],
    pin_start: &[usize],
    pin_end: &[usize],
    pin_count: &[u64],
    marks: &[usize],
    bytes: &[u64],
    books: &[u64],
    answer: &mut [u64; 19],
    known: bool,
    which: u8,
    s: usize,
) -> u8
    requires { (length answer.old ≡ 19)
        × (known ≡ true
        → Sound (state_from parent.now depth.now len.now run.now words.now node.now start.now end.now id.now stamp.now touched.now
        write.now pin_node.now pin_start.now pin_end.now pin_count.now marks.now bytes.now books.now)) }
    ensures { let st = state_from parent.now depth.now len.now run.now words.now node.now
        start.now end.now id.now stamp.now touched.now write.now pin_node.now
        pin_start.now pin_end.now pin_count.now marks.now bytes.now books.now in
        Tells count_at count_values (counter_call which st s) st tt result answer.old answer.new }
{
    if !state_is_sound(
        parent, depth, len, run, words, node, start, end, id, stamp, touched, write, pin_node,
        pin_start, pin_end, pin_count, marks, bytes, books, known,
    ) {
        return 1;
    }
    let a = counter_of(books, which, s);
    rust_values::told::count(answer, a)
}
