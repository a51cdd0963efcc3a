#![tactic(auto)]
// The Monday report, a line at a time: each operation's call is made on the pools with the sums kept, and what was refused or unreadable is counted.
//
// The state is 19 arrays; the sums stand beside them. counts[n] is how many lines were refused with n, counts[0] how many were unreadable.
ghost use Rattle.std.specs.Prelude.{◌≤◌, ◌≡◌};
ghost use Rattle.text_lines.specs.Lines.{Filled};
ghost use Rattle.shape_answer.specs.Answers.{state_from, inserted_of, store_inserted_of, store_used_of, store_removed_of, store_expired_of, looked_of};
ghost use Rattle.prog_report.specs.Kept.{InOrder, Begun, one_more, count_one, count_if};

use known::{
    Inserted, Looked, NUMBERS, Plain, StoreExpired, StoreInserted, StoreRemoved, StoreUsed,
};
use prog_store::OutLists;
use prog_tree::{PathLists, TierLists};
use text_lines::Op;

// A count stays at 2^63 - 1.
fn one_more(times: u64) -> u64
    ensures { result ≡ one_more times }
{
    if times < 9223372036854775807 {
        times + 1
    } else {
        times
    }
}

// One more of number n.
fn count(counts: &mut [u64; 256], n: u8)
    ensures { counts.new ≡ count_one n counts.old }
{
    let n = n as usize;
    counts[n] = one_more(counts[n]);
}

fn count_inserted(counts: &mut [u64; 256], a: Inserted)
    ensures { counts.new ≡ count_if (inserted_of a) counts.old }
{
    if let Inserted::Refused(n) = a {
        count(counts, n);
    }
}

fn count_brought(counts: &mut [u64; 256], a: StoreInserted)
    ensures { counts.new ≡ count_if (store_inserted_of a) counts.old }
{
    if let StoreInserted::Refused(n) = a {
        count(counts, n);
    }
}

fn count_touched(counts: &mut [u64; 256], a: StoreUsed)
    ensures { counts.new ≡ count_if (store_used_of a) counts.old }
{
    if let StoreUsed::Refused(n) = a {
        count(counts, n);
    }
}

fn count_removed(counts: &mut [u64; 256], a: StoreRemoved)
    ensures { counts.new ≡ count_if (store_removed_of a) counts.old }
{
    if let StoreRemoved::Refused(n) = a {
        count(counts, n);
    }
}

fn count_expired(counts: &mut [u64; 256], a: StoreExpired)
    ensures { counts.new ≡ count_if (store_expired_of a) counts.old }
{
    if let StoreExpired::Refused(n) = a {
        count(counts, n);
    }
}

fn count_looked_up(counts: &mut [u64; 256], a: Looked)
    ensures { counts.new ≡ count_if (looked_of a) counts.old }
{
    if let Looked::Refused(n) = a {
        count(counts, n);
    }
}

// The set-up. Where it is accepted the sums begin at 0.
pub fn begin(
    parent: &mut [usize; 256],
    depth: &mut [usize; 256],
    len: &mut [usize; 256],
    run: &mut [usize; 256],
    words: &[u64; 4096],
    node: &[usize; 1024],
    start: &[usize; 1024],
    end: &[usize; 1024],
    id: &[u64; 1024],
    stamp: &[u64; 1024],
    touched: &[f64; 1024],
    write: &[u32; 1024],
    pin_node: &[usize; 256],
    pin_start: &[usize; 256],
    pin_end: &[usize; 256],
    pin_count: &[u64; 256],
    marks: &mut [usize; 2048],
    bytes: &mut [u64; 1025],
    books: &mut [u64; NUMBERS],
    table: &[u64],
    capacity: &[u64],
    refreshes: &[bool],
) -> Plain
    ensures { Begun result
        (state_from parent.new depth.new len.new run.new words.now node.now start.now
        end.now id.now stamp.now touched.now write.now pin_node.now
        pin_start.now pin_end.now pin_count.now marks.new bytes.new books.new) }
{
    known::set_up(
        parent, depth, len, run, words, node, start, end, id, stamp, touched, write, pin_node,
        pin_start, pin_end, pin_count, marks, bytes, books, table, capacity, refreshes,
    )
}

// What gives spans out; any line that is left is no operation of a report.
fn give_out(
    parent: &[usize; 256],
    depth: &[usize; 256],
    len: &[usize; 256],
    run: &[usize; 256],
    words: &[u64; 4096],
    node: &mut [usize; 1024],
    start: &mut [usize; 1024],
    end: &mut [usize; 1024],
    id: &mut [u64; 1024],
    stamp: &mut [u64; 1024],
    touched: &mut [f64; 1024],
    write: &mut [u32; 1024],
    pin_node: &[usize; 256],
    pin_start: &[usize; 256],
    pin_end: &[usize; 256],
    pin_count: &[u64; 256],
    marks: &mut [usize; 2048],
    bytes: &[u64; 1025],
    books: &mut [u64; NUMBERS],
    sums: &mut [u64; 59],
    counts: &mut [u64; 256],
    op: Op,
)
    requires { InOrder
        (state_from parent.now depth.now len.now run.now words.now node.old start.old end.old id.old stamp.old touched.old write.old
        pin_node.now pin_start.now pin_end.now pin_count.now marks.old bytes.now books.old)
        sums.old }
    ensures { InOrder
        (state_from parent.now depth.now len.now run.now words.now node.new start.new
        end.new id.new stamp.new touched.new write.new pin_node.now
        pin_start.now pin_end.now pin_count.now marks.new bytes.now books.new)
        sums.new }
{
    match op {
        Op::Bring(s, sp, time, w) => {
            let mut outs = OutLists::new();
            let r = call_tally_bring::tally_insert(
                parent,
                depth,
                len,
                run,
                words,
                node,
                start,
                end,
                id,
                stamp,
                touched,
                write,
                pin_node,
                pin_start,
                pin_end,
                pin_count,
                marks,
                bytes,
                books,
                &mut outs.node,
                &mut outs.start,
                &mut outs.end,
                &mut outs.write,
                &mut outs.bytes,
                &mut outs.dead,
                sums,
                s,
                sp,
                time,
                w,
            );
            count_brought(counts, r)
        }
        Op::Expire(s, time, seconds) => {
            let mut outs = OutLists::new();
            let r = call_tally_expire::tally_expire(
                parent,
                depth,
                len,
                run,
                words,
                node,
                start,
                end,
                id,
                stamp,
                touched,
                write,
                pin_node,
                pin_start,
                pin_end,
                pin_count,
                marks,
                bytes,
                books,
                &mut outs.node,
                &mut outs.start,
                &mut outs.end,
                &mut outs.write,
                &mut outs.bytes,
                &mut outs.dead,
                sums,
                s,
                time,
                seconds,
            );
            count_expired(counts, r)
        }
        Op::Blank => {}
        _ => count(counts, 0),
    }
}

// A touch or a removal; any other line goes on.
fn touch_or_remove(
    parent: &[usize; 256],
    depth: &[usize; 256],
    len: &[usize; 256],
    run: &[usize; 256],
    words: &[u64; 4096],
    node: &mut [usize; 1024],
    start: &mut [usize; 1024],
    end: &mut [usize; 1024],
    id: &mut [u64; 1024],
    stamp: &mut [u64; 1024],
    touched: &mut [f64; 1024],
    write: &mut [u32; 1024],
    pin_node: &[usize; 256],
    pin_start: &[usize; 256],
    pin_end: &[usize; 256],
    pin_count: &[u64; 256],
    marks: &mut [usize; 2048],
    bytes: &[u64; 1025],
    books: &mut [u64; NUMBERS],
    sums: &mut [u64; 59],
    counts: &mut [u64; 256],
    spans: &[usize; 192],
    op: Op,
)
    requires { Filled op ×
        InOrder
        (state_from parent.now depth.now len.now run.now words.now node.old start.old end.old id.old stamp.old touched.old write.old
        pin_node.now pin_start.now pin_end.now pin_count.now marks.old bytes.now books.old)
        sums.old }
    ensures { InOrder
        (state_from parent.now depth.now len.now run.now words.now node.new start.new
        end.new id.new stamp.new touched.new write.new pin_node.now
        pin_start.now pin_end.now pin_count.now marks.new bytes.now books.new)
        sums.new }
{
    match op {
        Op::Touch(s, time, counted, n) => {
            if 64 < n {
                return count(counts, prog_store::too_many(books[2] as usize, s));
            }
            let sps = prog_store::spans_of(spans);
            let r = known::store_used_array(
                parent, depth, len, run, words, node, start, end, id, stamp, touched, write,
                pin_node, pin_start, pin_end, pin_count, marks, bytes, books, s, sps, n, time,
                counted,
            );
            count_touched(counts, r)
        }
        Op::Remove(s, sp) => {
            let mut writes = [0u32; 128];
            let r = call_tally_remove::tally_remove(
                parent,
                depth,
                len,
                run,
                words,
                node,
                start,
                end,
                id,
                stamp,
                touched,
                write,
                pin_node,
                pin_start,
                pin_end,
                pin_count,
                marks,
                bytes,
                books,
                &mut writes,
                sums,
                s,
                sp,
            );
            count_removed(counts, r)
        }
        _ => give_out(
            parent, depth, len, run, words, node, start, end, id, stamp, touched, write, pin_node,
            pin_start, pin_end, pin_count, marks, bytes, books, sums, counts, op,
        ),
    }
}

// A line after the set-up. What is refused is counted by its number; what is no operation of a report counts as unreadable.
pub fn call(
    parent: &mut [usize; 256],
    depth: &mut [usize; 256],
    len: &mut [usize; 256],
    run: &mut [usize; 256],
    words: &mut [u64; 4096],
    node: &mut [usize; 1024],
    start: &mut [usize; 1024],
    end: &mut [usize; 1024],
    id: &mut [u64; 1024],
    stamp: &mut [u64; 1024],
    touched: &mut [f64; 1024],
    write: &mut [u32; 1024],
    pin_node: &mut [usize; 256],
    pin_start: &mut [usize; 256],
    pin_end: &mut [usize; 256],
    pin_count: &mut [u64; 256],
    marks: &mut [usize; 2048],
    bytes: &[u64; 1025],
    books: &mut [u64; NUMBERS],
    sums: &mut [u64; 59],
    counts: &mut [u64; 256],
    list: &[u64; 1026],
    spans: &[usize; 192],
    tiers: &[usize; 9],
    op: Op,
)
    requires { Filled op ×
        InOrder
        (state_from parent.old depth.old len.old run.old words.old node.old start.old end.old id.old stamp.old touched.old write.old
        pin_node.old pin_start.old pin_end.old pin_count.old marks.old bytes.now books.old)
        sums.old }
    ensures { InOrder
        (state_from parent.new depth.new len.new run.new words.new node.new start.new
        end.new id.new stamp.new touched.new write.new pin_node.new
        pin_start.new pin_end.new pin_count.new marks.new bytes.now books.new)
        sums.new }
{
    match op {
        Op::Insert(n) => {
            let mut path = PathLists::new();
            let r = known::insert(
                parent,
                depth,
                len,
                run,
                words,
                node,
                start,
                end,
                id,
                stamp,
                touched,
                write,
                pin_node,
                pin_start,
                pin_end,
                pin_count,
                marks,
                bytes,
                books,
                &mut path.node,
                &mut path.len,
                &list[..n],
            );
            count_inserted(counts, r)
        }
        Op::Lookup(k, n) => {
            let mut path = PathLists::new();
            let mut spans = TierLists::new();
            let r = call_tally_lookup::tally_lookup(
                &*parent,
                &*depth,
                &*len,
                &*run,
                &*words,
                &*node,
                &*start,
                &*end,
                &*id,
                &*stamp,
                &*touched,
                &*write,
                &*pin_node,
                &*pin_start,
                &*pin_end,
                &*pin_count,
                &*marks,
                bytes,
                &*books,
                &mut path.node,
                &mut path.len,
                &mut spans.tier,
                &mut spans.node,
                &mut spans.start,
                &mut spans.end,
                sums,
                &tiers[..k],
                &list[..n],
            );
            count_looked_up(counts, r)
        }
        _ => touch_or_remove(
            &*parent,
            &*depth,
            &*len,
            &*run,
            &*words,
            node,
            start,
            end,
            id,
            stamp,
            touched,
            write,
            &*pin_node,
            &*pin_start,
            &*pin_end,
            &*pin_count,
            marks,
            bytes,
            books,
            sums,
            counts,
            spans,
            op,
        ),
    }
}
