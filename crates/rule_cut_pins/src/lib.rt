#![tactic(auto)]
// The pin entries of a store where a node is cut.
ghost use Rattle.std.specs.Prelude.{◌≡◌, ◌+◌, ◌≤◌, ◌<◌, length, get_or, eqb};
ghost use Rattle.model.specs.State.{Pins};
ghost use Rattle.model.specs.Store.{pins, lay_pins};
ghost use Rattle.model.specs.Sizes.{max_pinned};
ghost use Rattle.model.specs.Pins.{add_pin};
ghost use Rattle.model.specs.Insert.{put_pin, pin_head, pin_tail, pin_pieces, cut_pins};
ghost use Rattle.shape_state.specs.Pins.{pinned};
ghost use Rattle.pool_pin.specs.Columns.{lent, SamePins};
ghost use Rattle.pool_pin.specs.EntryPlace.{Placed};
ghost use Rattle.rule_cut_pins.specs.Entries.{pin_from, no_pin, pins_in, counts, Small, spans_in, pins_across_in, PinsSized, unmoved, stays_at, cut_entries};

use model::Span;
use pool_pin::{PinsMut, span_at};
use shape_state::PinsRef;

// A pin entry.
#[derive(Clone, Copy)]
pub struct Entry {
    pub span: Span,
    pub count: u64,
}

const BLANK: Entry = Entry {
    span: Span {
        node: 0,
        start: 0,
        end: 0,
    },
    count: 0,
};

impl Entry {
    // The part below `k`, and the part from `k` on, on node `m`.
    fn head(self, k: usize) -> Entry
        ensures { pin_from result ≡ pin_head k (pin_from self) }
    {
        Entry {
            span: Span {
                end: self.span.end.min(k),
                ..self.span
            },
            ..self
        }
    }

    fn tail(self, k: usize, m: usize) -> Entry
        ensures { pin_from result ≡ pin_tail k m (pin_from self) }
    {
        Entry {
            span: Span {
                node: m,
                start: self.span.start.saturating_sub(k),
                end: self.span.end.saturating_sub(k),
            },
            ..self
        }
    }
}

// Up to 32 entries, in the first `n` places.
#[derive(Clone, Copy)]
pub struct Entries {
    pub list: [Entry; 32],
    pub n: usize,
}

impl Entries {
    // The entry at place `i`, blank past the last.
    fn at(&self, i: usize) -> Entry
        requires { self.now.n ≤ 32 }
        ensures { pin_from result ≡ get_or (pins_in self.now) i no_pin }
    {
        if i < self.n { self.list[i] } else { BLANK }
    }

    // As `pool_pin::place_of`, of an array. A loop: with `position` the check does not find what the order of spans says.
    fn place_of(&self, sp: Span) -> Result<usize, usize>
        requires { self.now.n ≤ 32 }
        ensures { Placed (spans_in self.now) self.now.n sp result }
    {
        for i in 0..self.n {
            let q = self.list[i].span;
            if sp == q {
                return Ok(i);
            }
            if sp < q {
                return Err(i);
            }
        }
        Err(self.n)
    }

    // An entry added: its count to that of the entry of its span, or else put in at its place.
    fn add(&mut self, p: Entry)
        requires { (self.old.n ≤ 32) × Small (add_pin (pin_from p) (pins_in self.old)) }
        ensures few { self.new.n ≤ 32 }
        ensures list { pins_in self.new ≡ add_pin (pin_from p) (pins_in self.old) }
    {
        let n = self.n;
        match self.place_of(p.span) {
            Ok(at) => self.list[at].count += p.count,
            Err(at) => {
                pool_range::put(&mut self.list, n, at, p);
                self.n = n + 1;
            }
        }
    }

    // An entry added, or not.
    fn add_if(&mut self, test: bool, p: Entry)
        requires { (self.old.n ≤ 32) × Small (put_pin test (pin_from p) (pins_in self.old)) }
        ensures few { self.new.n ≤ 32 }
        ensures list { pins_in self.new ≡ put_pin test (pin_from p) (pins_in self.old) }
    {
        if test {
            self.add(p);
        }
    }

    // An entry of node `j` is added as its parts, and any other as it is.
    fn add_pieces(&mut self, p: Entry, j: usize, k: usize, m: usize)
        requires { (self.old.n ≤ 32) × Small (pin_pieces (eqb p.span.node j) k m (pin_from p) (pins_in self.old)) }
        ensures few { self.new.n ≤ 32 }
        ensures list { pins_in self.new ≡ pin_pieces (eqb p.span.node j) k m (pin_from p) (pins_in self.old) }
    {
        if p.span.node != j {
            self.add(p);
            return;
        }
        self.add_if(k < p.span.end, p.tail(k, m));
        self.add_if(p.span.start < k, p.head(k));
    }

    // The entries laid in a store's part, whose first `k` places were used or are needed.
    pub fn lay(&self, part: &mut PinsMut, k: usize)
        requires { (self.now.n ≤ k) × (k ≤ 32) × PinsSized 32 (lent part.old) }
        ensures same { SamePins part.old part.new }
        ensures columns { lent part.new ≡ lay_pins 0 k (pins_in self.now) (lent part.old) }
    {
        for i in 0..k {
            let e = self.at(i);
            part.node[i] = e.span.node;
            part.start[i] = e.span.start;
            part.end[i] = e.span.end;
            part.count[i] = e.count;
        }
    }
}

// The first `n` entries of a store's part, cut, from the last on.
fn cut_list(part: PinsRef, n: usize, j: usize, k: usize, m: usize) -> Entries
    requires { (n ≤ length part.node.now)
        × (n ≤ length part.start.now)
        × (n ≤ length part.end.now)
        × (n ≤ length part.count.now)
        × Small (cut_pins j k m (pins (pinned part) 0 n)) }
    ensures few { result.n ≤ 32 }
    ensures list { pins_in result ≡ cut_pins j k m (pins (pinned part.entry) 0 n) }
{
    let mut cut = Entries {
        list: [BLANK; 32],
        n: 0,
    };
    for i in (0..n).rev() {
        let p = Entry {
            span: span_at(part, i),
            count: part.count[i],
        };
        cut.add_pieces(p, j, k, m);
    }
    cut
}

// How many of the first `n` entries are across `k` on node `j`: the entries that a cut needs besides.
pub fn pins_across(
    node: &[usize],
    start: &[usize],
    end: &[usize],
    n: usize,
    j: usize,
    k: usize,
) -> usize
    requires { (n ≤ length node.now) × (n ≤ length start.now) × (n ≤ length end.now) }
    ensures { (c : Pins) → c.node ≡ node.now → c.start ≡ start.now → c.end ≡ end.now → result ≡ pins_across_in j k n c }
{
    rule_cut::count_across(node, start, end, n, j, k)
}

// Is the entry at place `i` of `n` on another node than `j`, and ahead of the next?
fn stays(part: PinsRef, n: usize, i: usize, j: usize) -> bool
    requires { (i < n) × (n ≤ length part.node.now) × (n ≤ length part.start.now) × (n ≤ length part.end.now) }
    ensures { result ≡ stays_at j (pinned part.entry) n i }
{
    part.node[i] != j && (n <= i + 1 || span_at(part, i) < span_at(part, i + 1))
}

// Does a cut of node `j` leave the first `n` entries as they are? None is on the node, and they are in order: then no two add up.
fn all_stay(part: PinsRef, n: usize, j: usize) -> bool
    requires { (n ≤ length part.node.now) × (n ≤ length part.start.now) × (n ≤ length part.end.now) }
    ensures { result ≡ unmoved j (pins (pinned part.entry) 0 n) }
{
    // A loop: of `all` over a range the check does not find the value.
    for i in 0..n {
        if !stays(part, n, i, j) {
            return false;
        }
    }
    true
}

// The first `n` pin entries of a store's part, cut; equal entries add up, and the places that this frees are left blank. How many there are then.
pub fn cut_pins(part: &mut PinsMut, n: usize, j: usize, k: usize, m: usize) -> usize
    requires { (n + pins_across_in j k n (lent part.old) ≤ 32)
        × (counts (pins (lent part.old) 0 n) ≤ max_pinned)
        × PinsSized 32 (lent part.old) }
    ensures same { SamePins part.old part.new }
    ensures columns { lent part.new ≡ cut_entries j k m n (lent part.old) }
    ensures entries { result ≡ length (cut_pins j k m (pins (lent part.old) 0 n)) }
{
    let seen = part.view();
    if all_stay(seen, n, j) {
        return n;
    }
    let across = pins_across(seen.node, seen.start, seen.end, n, j, k);
    let cut = cut_list(seen, n, j, k, m);
    cut.lay(part, n + across);
    cut.n
}
