// Which pool and which answer list a trial lends one short.
ghost use Rattle.std.specs.Prelude.{◌≤◌};

// The pools, in the order of the state.
#[derive(Clone, Copy, PartialEq, Eq)]
pub enum Pool {
    Parent,
    Depth,
    Len,
    Run,
    Words,
    Node,
    Start,
    End,
    Id,
    Stamp,
    Touched,
    Write,
    PinNode,
    PinStart,
    PinEnd,
    PinCount,
    Marks,
    Bytes,
    Books,
}

// The answer lists, in their order.
#[derive(Clone, Copy, PartialEq, Eq)]
pub enum List {
    PathNode,
    PathLen,
    OutNode,
    OutStart,
    OutEnd,
    OutWrite,
    OutBytes,
    OutDead,
    Writes,
    SpanTier,
    SpanNode,
    SpanStart,
    SpanEnd,
}

const POOLS: [Pool; 19] = [
    Pool::Parent,
    Pool::Depth,
    Pool::Len,
    Pool::Run,
    Pool::Words,
    Pool::Node,
    Pool::Start,
    Pool::End,
    Pool::Id,
    Pool::Stamp,
    Pool::Touched,
    Pool::Write,
    Pool::PinNode,
    Pool::PinStart,
    Pool::PinEnd,
    Pool::PinCount,
    Pool::Marks,
    Pool::Bytes,
    Pool::Books,
];

const LISTS: [List; 13] = [
    List::PathNode,
    List::PathLen,
    List::OutNode,
    List::OutStart,
    List::OutEnd,
    List::OutWrite,
    List::OutBytes,
    List::OutDead,
    List::Writes,
    List::SpanTier,
    List::SpanNode,
    List::SpanStart,
    List::SpanEnd,
];

#[derive(Clone, Copy, Default)]
pub struct Short {
    pub pool: Option<Pool>,
    pub list: Option<List>,
}

impl Short {
    // Each by its number, from 1 on in the order above; none for any other number.
    pub fn numbered(pool: u64, list: u64) -> Short {
        Short {
            pool: nth(&POOLS, pool),
            list: nth(&LISTS, list),
        }
    }

    // What is lent of a pool.
    pub fn lend<T>(self, pool: Pool, column: &[T]) -> &[T] {
        let n = one_less_if(self.pool == Some(pool), column.len());
        &column[..n]
    }

    pub fn lend_mut<T>(self, pool: Pool, column: &mut [T]) -> &mut [T] {
        let n = one_less_if(self.pool == Some(pool), column.len());
        &mut column[..n]
    }

    pub fn lend_list<T>(self, list: List, places: &mut [T]) -> &mut [T] {
        let n = one_less_if(self.list == Some(list), places.len());
        &mut places[..n]
    }
}

fn nth<T: Copy>(all: &[T], n: u64) -> Option<T> {
    let i = n.checked_sub(1)?;
    all.get(i as usize).copied()
}

fn one_less_if(short: bool, n: usize) -> usize
    ensures { result ≤ n }
{
    if short { n.saturating_sub(1) } else { n }
}
