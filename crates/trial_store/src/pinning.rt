// The two calls that are lent the pins as `&mut`.
use radix::Span;
use trial_world::trial::Trial;
use trial_world::tried::plain_number;

// A macro, as a closure takes no more than 12 arguments.
macro_rules! with_pins {
    ($call:path, $t:ident, $($more:expr),*) => {
        $call(
            &$t.world.parent,
            &$t.world.depth,
            &$t.world.len,
            &$t.world.run,
            &$t.world.words,
            &$t.world.node,
            &$t.world.start,
            &$t.world.end,
            &$t.world.id,
            &$t.world.stamp,
            &$t.world.touched,
            &$t.world.write,
            &mut $t.world.pin_node,
            &mut $t.world.pin_start,
            &mut $t.world.pin_end,
            &mut $t.world.pin_count,
            &$t.world.marks,
            &$t.world.bytes,
            &mut $t.world.books,
            $($more),*
        )
    };
}

pub fn pin_source(t: &mut Trial, s: usize, sp: Span) -> u64 {
    plain_number(with_pins!(radix::pin_source, t, s, sp))
}

pub fn unpin_source(t: &mut Trial, s: usize, sp: Span) -> u64 {
    plain_number(with_pins!(radix::unpin_source, t, s, sp))
}
