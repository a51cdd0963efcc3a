// The calls that are lent a store's ranges and marks as `&mut`.
use radix::Span;
use trial_world::short::{List, Pool, Short};
use trial_world::trial::Trial;
use trial_world::tried::{brought_number, expired_number, removed_number, used_number};
use trial_world::world::numbers_mut;

// A macro, as a closure takes no more than 12 arguments.
macro_rules! with_ranges {
    ($call:path, $t:ident, $short:ident, $books:expr, $($more:expr),*) => {
        $call(
            $short.lend(Pool::Parent, &$t.world.parent),
            $short.lend(Pool::Depth, &$t.world.depth),
            $short.lend(Pool::Len, &$t.world.len),
            $short.lend(Pool::Run, &$t.world.run),
            $short.lend(Pool::Words, &$t.world.words),
            $short.lend_mut(Pool::Node, &mut $t.world.node),
            $short.lend_mut(Pool::Start, &mut $t.world.start),
            $short.lend_mut(Pool::End, &mut $t.world.end),
            $short.lend_mut(Pool::Id, &mut $t.world.id),
            $short.lend_mut(Pool::Stamp, &mut $t.world.stamp),
            $short.lend_mut(Pool::Touched, &mut $t.world.touched),
            $short.lend_mut(Pool::Write, &mut $t.world.write),
            $short.lend(Pool::PinNode, &$t.world.pin_node),
            $short.lend(Pool::PinStart, &$t.world.pin_start),
            $short.lend(Pool::PinEnd, &$t.world.pin_end),
            $short.lend(Pool::PinCount, &$t.world.pin_count),
            $short.lend_mut(Pool::Marks, &mut $t.world.marks),
            $short.lend(Pool::Bytes, &$t.world.bytes),
            $short.lend_mut(Pool::Books, $books),
            $($more),*
        )
    };
}

pub fn store_insert(t: &mut Trial, s: usize, sp: Span, time: f64, w: u32) -> u64 {
    let short = t.short;
    let answer = with_ranges!(
        radix::store_insert,
        t,
        short,
        numbers_mut(&mut t.world.books),
        short.lend_list(List::OutNode, &mut t.lists.out_node),
        short.lend_list(List::OutStart, &mut t.lists.out_start),
        short.lend_list(List::OutEnd, &mut t.lists.out_end),
        short.lend_list(List::OutWrite, &mut t.lists.out_write),
        short.lend_list(List::OutBytes, &mut t.lists.out_bytes),
        short.lend_list(List::OutDead, &mut t.lists.out_dead),
        s,
        sp,
        time,
        w
    );
    brought_number(answer)
}

// Of the spans the first count.
pub fn store_used(
    t: &mut Trial,
    s: usize,
    spans: [Span; 65],
    count: usize,
    time: f64,
    counted: bool,
) -> u64 {
    let short = t.short;
    let answer = with_ranges!(
        radix::store_used_array,
        t,
        short,
        numbers_mut(&mut t.world.books),
        s,
        spans,
        count,
        time,
        counted
    );
    used_number(answer)
}

// Of the pools none is short, here and in a removal.
pub fn store_expire(t: &mut Trial, s: usize, time: f64, seconds: f64) -> u64 {
    let whole = Short::default();
    let short = t.short;
    let answer = with_ranges!(
        radix::store_expire,
        t,
        whole,
        &mut t.world.books,
        short.lend_list(List::OutNode, &mut t.lists.out_node),
        short.lend_list(List::OutStart, &mut t.lists.out_start),
        short.lend_list(List::OutEnd, &mut t.lists.out_end),
        short.lend_list(List::OutWrite, &mut t.lists.out_write),
        short.lend_list(List::OutBytes, &mut t.lists.out_bytes),
        short.lend_list(List::OutDead, &mut t.lists.out_dead),
        s,
        time,
        seconds
    );
    expired_number(answer)
}

pub fn store_remove(t: &mut Trial, s: usize, sp: Span) -> u64 {
    let whole = Short::default();
    let answer = with_ranges!(
        radix::store_remove,
        t,
        whole,
        &mut t.world.books,
        t.short.lend_list(List::Writes, &mut t.lists.writes),
        s,
        sp
    );
    removed_number(answer)
}
