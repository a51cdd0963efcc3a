#![tactic(auto)]
// A store's pin entries in lent columns, n of them from place a on: a span's place among them, an entry added, one pin taken off.
ghost use Rattle.std.specs.Prelude.{◌≡◌, ◌+◌, ◌^◌, ◌≤◌, ◌<◌, length, is_err, IfOk};
ghost use Rattle.model.specs.State.{at};
ghost use Rattle.model.specs.Store.{pins, lay_pins, plus};
ghost use Rattle.model.specs.Pins.{pin_of, add_pin, take_pin};
ghost use Rattle.pool_range.specs.Cols.{insert_at, remove_at};
ghost use Rattle.shape_state.specs.Pins.{pinned};
ghost use Rattle.pool_pin.specs.Columns.{lent, SamePins};
ghost use Rattle.pool_pin.specs.EntryPlace.{span_at, spans_from, PinsFrom, Placed, Stands};

use model::Span;
use shape_state::PinsRef;

// The span at place i.
pub fn span_at(pins: PinsRef, i: usize) -> Span
    requires { (i < length pins.node.now) × (i < length pins.start.now) × (i < length pins.end.now) }
    ensures { result ≡ span_at (pinned pins.entry) i }
{
    Span {
        node: pins.node[i],
        start: pins.start[i],
        end: pins.end[i],
    }
}

// A span's place among the entries, as a binary search answers it: where its entry stands, or where one would go in.
pub fn place_of(pins: PinsRef, a: usize, n: usize, sp: Span) -> Result<usize, usize>
    requires { (a + n ≤ length pins.node.now) × (a + n ≤ length pins.start.now) × (a + n ≤ length pins.end.now) }
    ensures { Placed (spans_from (pinned pins.entry) a) n sp result }
{
    for i in 0..n {
        let q = span_at(pins, a + i);
        if sp == q {
            return Ok(i);
        }
        if sp < q {
            return Err(i);
        }
    }
    Err(n)
}

// The columns, lent to be changed. Each method says that they stay the same slices, so that the lender knows what becomes of its own.
#[derive(Drop)]
pub struct PinsMut<'a> {
    pub node: &'a mut [usize],
    pub start: &'a mut [usize],
    pub end: &'a mut [usize],
    pub count: &'a mut [u64],
}

impl PinsMut<'_> {
    pub fn view(&self) -> PinsRef<'_>
        ensures { pinned result ≡ lent self.now }
    {
        PinsRef {
            node: self.node,
            start: self.start,
            end: self.end,
            count: self.count,
        }
    }

    // A new entry of k pins, put in at a place.
    fn put(&mut self, a: usize, n: usize, at: usize, sp: Span, k: u64)
        requires { (n < 32) × (at ≤ n) × PinsFrom a (lent self.old) }
        ensures same { SamePins self.old self.new }
        ensures columns { lent self.new ≡ lay_pins a (n + 1) (insert_at at (pin_of sp k) (pins (lent self.old) a n)) (lent self.old) }
    {
        let e = a + 32;
        pool_range::put(&mut self.node[a..e], n, at, sp.node);
        pool_range::put(&mut self.start[a..e], n, at, sp.start);
        pool_range::put(&mut self.end[a..e], n, at, sp.end);
        pool_range::put(&mut self.count[a..e], n, at, k);
    }

    // The entry at a place, taken out.
    fn cut(&mut self, a: usize, n: usize, at: usize)
        requires { (n ≤ 32) × (at < n) × PinsFrom a (lent self.old) }
        ensures same { SamePins self.old self.new }
        ensures columns { lent self.new ≡ lay_pins a n (remove_at at (pins (lent self.old) a n)) (lent self.old) }
    {
        let e = a + 32;
        pool_range::cut(&mut self.node[a..e], n, at, 0);
        pool_range::cut(&mut self.start[a..e], n, at, 0);
        pool_range::cut(&mut self.end[a..e], n, at, 0);
        pool_range::cut(&mut self.count[a..e], n, at, 0);
    }

    // k pins added to the span at a place: on its entry, or as a new one. How many entries there are then.
    pub fn add(
        &mut self,
        a: usize,
        n: usize,
        place: Result<usize, usize>,
        sp: Span,
        k: u64,
    ) -> usize
        requires { (n + plus (is_err place) 0 ≤ 32)
            × Placed (spans_from (lent self.old) a) n sp place
            × IfOk place (λ i. at (lent self.old).count (a + i) + k < 2 ^ 64)
            × PinsFrom a (lent self.old) }
        ensures same { SamePins self.old self.new }
        ensures columns { lent self.new
            ≡ lay_pins a (n + plus (is_err place) 0) (add_pin (pin_of sp k) (pins (lent self.old) a n)) (lent self.old) }
        ensures entries { result ≡ length (add_pin (pin_of sp k) (pins (lent self.old) a n)) }
    {
        match place {
            Ok(at) => {
                self.count[a + at] += k;
                n
            }
            Err(at) => {
                self.put(a, n, at, sp, k);
                n + 1
            }
        }
    }

    // One pin taken off the entry at a place, which goes with its last. How many entries there are then.
    pub fn take(&mut self, a: usize, n: usize, at: usize, sp: Span) -> usize
        requires { (n ≤ 32) × Stands (spans_from (lent self.old) a) n sp at × PinsFrom a (lent self.old) }
        ensures same { SamePins self.old self.new }
        ensures columns { lent self.new ≡ lay_pins a n (take_pin (pin_of sp 1) (pins (lent self.old) a n)) (lent self.old) }
        ensures entries { result ≡ length (take_pin (pin_of sp 1) (pins (lent self.old) a n)) }
    {
        let i = a + at;
        let pins = self.count[i];
        if pins <= 1 {
            self.cut(a, n, at);
            return n - 1;
        }
        self.count[i] = pins - 1;
        n
    }
}
