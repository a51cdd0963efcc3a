// Set-up, and the insertion of a list: the calls that are lent the tree as `&mut`.
use trial_world::short::{List, Pool};
use trial_world::trial::Trial;
use trial_world::tried::{inserted_number, plain_number};
use trial_world::world::numbers_mut;

pub fn set_up(t: &mut Trial, table: &[u64], capacity: &[u64], refreshes: &[bool]) -> u64 {
    let short = t.short;
    let answer = radix::set_up(
        short.lend_mut(Pool::Parent, &mut t.world.parent),
        short.lend_mut(Pool::Depth, &mut t.world.depth),
        short.lend_mut(Pool::Len, &mut t.world.len),
        short.lend_mut(Pool::Run, &mut t.world.run),
        short.lend(Pool::Words, &t.world.words),
        short.lend(Pool::Node, &t.world.node),
        short.lend(Pool::Start, &t.world.start),
        short.lend(Pool::End, &t.world.end),
        short.lend(Pool::Id, &t.world.id),
        short.lend(Pool::Stamp, &t.world.stamp),
        short.lend(Pool::Touched, &t.world.touched),
        short.lend(Pool::Write, &t.world.write),
        short.lend(Pool::PinNode, &t.world.pin_node),
        short.lend(Pool::PinStart, &t.world.pin_start),
        short.lend(Pool::PinEnd, &t.world.pin_end),
        short.lend(Pool::PinCount, &t.world.pin_count),
        short.lend_mut(Pool::Marks, &mut t.world.marks),
        short.lend_mut(Pool::Bytes, &mut t.world.bytes),
        short.lend_mut(Pool::Books, numbers_mut(&mut t.world.books)),
        table,
        capacity,
        refreshes,
    );
    plain_number(answer)
}

// Of the pools none is short.
pub fn insert(t: &mut Trial, hashes: &[u64]) -> u64 {
    let answer = radix::insert(
        &mut t.world.parent,
        &mut t.world.depth,
        &mut t.world.len,
        &mut t.world.run,
        &mut t.world.words,
        &mut t.world.node,
        &mut t.world.start,
        &mut t.world.end,
        &mut t.world.id,
        &mut t.world.stamp,
        &mut t.world.touched,
        &mut t.world.write,
        &mut t.world.pin_node,
        &mut t.world.pin_start,
        &mut t.world.pin_end,
        &mut t.world.pin_count,
        &mut t.world.marks,
        &t.world.bytes,
        &mut t.world.books,
        t.short.lend_list(List::PathNode, &mut t.lists.path_node),
        t.short.lend_list(List::PathLen, &mut t.lists.path_len),
        hashes,
    );
    inserted_number(answer)
}
