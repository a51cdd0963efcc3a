#![tactic(auto)]
// The calls that are lent every pool as `&`: the path, the lookup and the counters, each with its refusal's number as the answer.
use trial_world::short::{List, Pool};
use trial_world::trial::Trial;
use trial_world::tried::{count_number, looked_number, resolved_number};
use trial_world::world::numbers;

#[derive(Clone, Copy)]
pub enum Counter {
    Held,
    Capacity,
    Pinned,
    Available,
    Version,
    Stalls,
}

// A macro, as a closure takes no more than 12 arguments.
macro_rules! lent {
    ($call:path, $t:ident $(, $more:expr)*) => {
        $call(
            $t.short.lend(Pool::Parent, &$t.world.parent),
            $t.short.lend(Pool::Depth, &$t.world.depth),
            $t.short.lend(Pool::Len, &$t.world.len),
            $t.short.lend(Pool::Run, &$t.world.run),
            $t.short.lend(Pool::Words, &$t.world.words),
            $t.short.lend(Pool::Node, &$t.world.node),
            $t.short.lend(Pool::Start, &$t.world.start),
            $t.short.lend(Pool::End, &$t.world.end),
            $t.short.lend(Pool::Id, &$t.world.id),
            $t.short.lend(Pool::Stamp, &$t.world.stamp),
            $t.short.lend(Pool::Touched, &$t.world.touched),
            $t.short.lend(Pool::Write, &$t.world.write),
            $t.short.lend(Pool::PinNode, &$t.world.pin_node),
            $t.short.lend(Pool::PinStart, &$t.world.pin_start),
            $t.short.lend(Pool::PinEnd, &$t.world.pin_end),
            $t.short.lend(Pool::PinCount, &$t.world.pin_count),
            $t.short.lend(Pool::Marks, &$t.world.marks),
            $t.short.lend(Pool::Bytes, &$t.world.bytes),
            $t.short.lend(Pool::Books, numbers(&$t.world.books))
            $(, $more)*
        )
    };
}

pub fn resolve(t: &mut Trial, hashes: &[u64]) -> u64 {
    let short = t.short;
    let answer = lent!(
        radix::resolve,
        t,
        short.lend_list(List::PathNode, &mut t.lists.path_node),
        short.lend_list(List::PathLen, &mut t.lists.path_len),
        hashes
    );
    resolved_number(answer)
}

pub fn lookup(t: &mut Trial, tiers: &[usize], hashes: &[u64]) -> u64 {
    let short = t.short;
    let answer = lent!(
        radix::lookup,
        t,
        short.lend_list(List::PathNode, &mut t.lists.path_node),
        short.lend_list(List::PathLen, &mut t.lists.path_len),
        short.lend_list(List::SpanTier, &mut t.lists.span_tier),
        short.lend_list(List::SpanNode, &mut t.lists.span_node),
        short.lend_list(List::SpanStart, &mut t.lists.span_start),
        short.lend_list(List::SpanEnd, &mut t.lists.span_end),
        tiers,
        hashes
    );
    looked_number(answer)
}

// The counter of store s; the stalls are of the whole.
pub fn count(t: &Trial, counter: Counter, s: usize) -> u64 {
    let answer = match counter {
        Counter::Held => lent!(radix::store_held_blocks, t, s),
        Counter::Capacity => lent!(radix::store_capacity_blocks, t, s),
        Counter::Pinned => lent!(radix::store_pinned_blocks, t, s),
        Counter::Available => lent!(radix::store_available_for_stage, t, s),
        Counter::Version => lent!(radix::source_version, t, s),
        Counter::Stalls => lent!(radix::pin_stalls, t),
    };
    count_number(answer)
}
