#![tactic(auto)]
// The aged ranges of a store given out, on a sound state.
ghost use Rattle.std.specs.Prelude.{◌≡◌, false, ◌*◌};
ghost use Rattle.model.specs.State.{State, stores_of};
ghost use Rattle.model.specs.Sound.{Sound};
ghost use Rattle.model.specs.Store.{ranges as rangesOf};
ghost use Rattle.model.specs.Refusals.{OutList, OutFits, first_of, store_expire_refusals};
ghost use Rattle.model.specs.Calls.{store_expire};
ghost use Rattle.shape_state.specs.Lent.{ranges_of};
ghost use Rattle.pool_part.specs.Parts.{mid};
ghost use Rattle.rule_resolve.specs.Span.{only_depth};
ghost use Rattle.shape_answer.specs.Lists.{out_list};
ghost use Rattle.rule_expire.specs.Expire.{expired};
ghost use Rattle.rule_evict.specs.Given.{Ready, GivenOut};
ghost use Rattle.pool_out.specs.Outs.{listed, SameOuts};
ghost use Rattle.rule_bring.specs.Pool.{GivenOutAt};
ghost use Rattle.shape_answer.specs.Answers.{state_from, outcome, store_expired_of};
ghost use Rattle.call_expire.specs.Pool.{PoolReady};

use model::ExpireAnswer;
use pool_out::OutsMut;
use pool_range::RangesMut;
use rule_expire::Expiring;
use shape_answer::StoreExpired;

// What an expiry in a sound state is refused for, the lists long enough: 2, 5 or nothing, 0.
fn refusal(stores: usize, s: usize, time: f64, seconds: f64) -> u8
    ensures { (st : State) (l : OutList) → Sound st → OutFits l → stores_of st ≡ stores
        → result ≡ first_of (store_expire_refusals st l s time seconds) }
{
    if stores <= s {
        return 2;
    }
    if !test_arguments::finite(time) {
        return 5;
    }
    if !test_arguments::finite(seconds) {
        return 5;
    }
    0
}

// The aged ranges of a store's part given out. The columns of ranges stand one by one here and below: a slice of a slice that is put in a struct is lost
// to the check.
fn expire_part(
    depth: &[usize],
    node: &mut [usize],
    start: &mut [usize],
    end: &mut [usize],
    id: &mut [u64],
    stamp: &mut [u64],
    touched: &mut [f64],
    write: &mut [u32],
    marks: &mut [usize],
    bytes: &[u64],
    outs: &mut OutsMut,
    n: usize,
    held: u64,
    version: u64,
    time: f64,
    seconds: f64,
) -> Expiring
    requires { Ready depth.now bytes.now n held (ranges_of node.old start.old end.old id.old stamp.old touched.old write.old) marks.old (listed outs.old) }
    ensures same_outs { SameOuts outs.old outs.new }
    ensures expired { GivenOut
        (expired (only_depth depth.now) bytes.now time seconds
        (rangesOf (ranges_of node.old start.old end.old id.old stamp.old touched.old write.old) 0 n) marks.old)
        n version
        (ranges_of node.old start.old end.old id.old stamp.old touched.old write.old) (listed outs.old)
        (ranges_of node.new start.new end.new id.new stamp.new touched.new write.new) marks.new (listed outs.new)
        result.n result.held result.outs result.version false }
{
    let mut ranges = RangesMut {
        node,
        start,
        end,
        id,
        stamp,
        touched,
        write,
    };
    rule_expire::store_expire(
        depth,
        &mut ranges,
        marks,
        bytes,
        outs,
        n,
        held,
        version,
        time,
        seconds,
    )
}

// The same in the parts of store s, of the whole pools.
fn expire_pools(
    depth: &[usize],
    node: &mut [usize],
    start: &mut [usize],
    end: &mut [usize],
    id: &mut [u64],
    stamp: &mut [u64],
    touched: &mut [f64],
    write: &mut [u32],
    marks: &mut [usize],
    bytes: &[u64],
    outs: &mut OutsMut,
    s: usize,
    n: usize,
    held: u64,
    version: u64,
    time: f64,
    seconds: f64,
) -> Expiring
    requires { PoolReady depth.now bytes.now s n held (ranges_of node.old start.old end.old id.old stamp.old touched.old write.old) marks.old
        (listed outs.old) }
    ensures same_outs { SameOuts outs.old outs.new }
    ensures expired { GivenOutAt s
        (expired (only_depth depth.now) bytes.now time seconds
        (rangesOf (ranges_of node.old start.old end.old id.old stamp.old touched.old write.old) (128 * s) n)
        (mid (256 * s) 256 marks.old))
        n version
        (ranges_of node.old start.old end.old id.old stamp.old touched.old write.old) marks.old (listed outs.old)
        (ranges_of node.new start.new end.new id.new stamp.new touched.new write.new) marks.new (listed outs.new)
        result.n result.held result.outs result.version false }
{
    let a = 128 * s;
    let e = a + 128;
    let b = 256 * s;
    let f = b + 256;
    expire_part(
        depth,
        &mut node[a..e],
        &mut start[a..e],
        &mut end[a..e],
        &mut id[a..e],
        &mut stamp[a..e],
        &mut touched[a..e],
        &mut write[a..e],
        &mut marks[b..f],
        bytes,
        outs,
        n,
        held,
        version,
        time,
        seconds,
    )
}

// The ranges of store s of a sound state that were touched more than the seconds ago, oldest first, pinned or not, given out.
pub fn store_expire(
    parent: &[usize],
    depth: &[usize],
    len: &[usize],
    run: &[usize],
    words: &[u64],
    node: &mut [usize],
    start: &mut [usize],
    end: &mut [usize],
    id: &mut [u64],
    stamp: &mut [u64],
    touched: &mut [f64],
    write: &mut [u32],
    pin_node: &[usize],
    pin_start: &[usize],
    pin_end: &[usize],
    pin_count: &[u64],
    marks: &mut [usize],
    bytes: &[u64],
    books: &mut [u64],
    out_node: &mut [usize],
    out_start: &mut [usize],
    out_end: &mut [usize],
    out_write: &mut [u32],
    out_bytes: &mut [u64],
    out_dead: &mut [u64],
    s: usize,
    time: f64,
    seconds: f64,
) -> StoreExpired
    requires { Sound
        (state_from parent.now depth.now len.now run.now words.now node.old start.old end.old id.old stamp.old touched.old write.old
        pin_node.now pin_start.now pin_end.now pin_count.now marks.old bytes.now books.old)
        × OutFits (out_list out_node.old out_start.old out_end.old out_write.old out_bytes.old out_dead.old) }
    ensures { outcome
        (state_from parent.now depth.now len.now run.now words.now node.new
        start.new end.new id.new stamp.new touched.new write.new pin_node.now
        pin_start.now pin_end.now pin_count.now marks.new bytes.now
        books.new)
        (out_list out_node.new out_start.new out_end.new out_write.new out_bytes.new
        out_dead.new)
        (store_expired_of result)
        ≡ store_expire
        (state_from parent.now depth.now len.now run.now words.now node.old
        start.old end.old id.old stamp.old touched.old write.old
        pin_node.now pin_start.now pin_end.now pin_count.now marks.old
        bytes.now books.old)
        (out_list out_node.old out_start.old out_end.old out_write.old
        out_bytes.old out_dead.old)
        s time seconds }
{
    let stores = books[2] as usize;
    let number = refusal(stores, s, time, seconds);
    if number != 0 {
        return StoreExpired::Refused(number);
    }
    let b = pool_book::book_of(books, s);
    let mut outs = OutsMut {
        node: out_node,
        start: out_start,
        end: out_end,
        write: out_write,
        bytes: out_bytes,
        dead: out_dead,
    };
    let r = expire_pools(
        depth, node, start, end, id, stamp, touched, write, marks, bytes, &mut outs, s, b.records,
        b.held, b.version, time, seconds,
    );
    pool_book::put_ranged(books, s, b, r.n, r.held, b.stamp, r.version);
    StoreExpired::Done(ExpireAnswer {
        outs: r.outs as u64,
    })
}
