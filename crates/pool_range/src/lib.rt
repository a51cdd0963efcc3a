#![tactic(auto)]
// A store's part of the pool of ranges: seven columns, lent to be read or to be changed. A record is put in or cut out in all of them.
ghost use Rattle.std.specs.Prelude.{◌≡◌, ◌+◌, ◌-◌, ◌≤◌, ◌<◌, length};
ghost use Rattle.pool_range.specs.Cols.{put_at, cut_at};
ghost use Rattle.model.specs.State.{range_at};
ghost use Rattle.pool_range.specs.Lent.{lent, seen, SameColumns};
ghost use Rattle.pool_range.specs.Part.{range_of, Sized, put_range, cut_range};

// Of n elements in use: x before the one at `at`.
pub fn put<T: Copy>(column: &mut [T], n: usize, at: usize, x: T)
    requires { (at ≤ n) × (n < length column.old) }
    ensures { column.new ≡ put_at at x n column.old }
{
    column.copy_within(at..n, at + 1);
    column[at] = x;
}

// The element at `at` taken out of n; the place that is free then is left blank.
pub fn cut<T: Copy>(column: &mut [T], n: usize, at: usize, blank: T)
    requires { (at < n) × (n ≤ length column.old) }
    ensures { column.new ≡ cut_at blank at n column.old }
{
    column.copy_within(at + 1..n, at);
    column[n - 1] = blank;
}

// As the library's `copy_from_slice`, by a loop: what is linked into a C program asks for no `memmove`.
pub fn copy_over<T: Copy>(to: &mut [T], from: &[T])
    requires { length to.old ≡ length from.now }
    ensures { to.new ≡ from.now }
{
    for i in 0..from.len() {
        to[i] = from[i];
    }
}

// One record of a store: a range that it holds. A write of 0 is none.
#[derive(Clone, Copy)]
pub struct Record {
    pub node: usize,
    pub start: usize,
    pub end: usize,
    pub id: u64,
    pub stamp: u64,
    pub touched: f64,
    pub write: u32,
}

// The columns, lent to be read.
#[derive(Clone, Copy)]
pub struct RangesRef<'a> {
    pub node: &'a [usize],
    pub start: &'a [usize],
    pub end: &'a [usize],
    pub id: &'a [u64],
    pub stamp: &'a [u64],
    pub touched: &'a [f64],
    pub write: &'a [u32],
}

impl RangesRef<'_> {
    // The record at a place.
    pub fn at(self, i: usize) -> Record
        requires { (i < 128) × Sized 128 (seen self) }
        ensures { range_of result ≡ range_at (seen self.entry) i }
    {
        Record {
            node: self.node[i],
            start: self.start[i],
            end: self.end[i],
            id: self.id[i],
            stamp: self.stamp[i],
            touched: self.touched[i],
            write: self.write[i],
        }
    }
}

// The columns, lent to be changed. Each method says that they stay the same slices, so that the lender knows what becomes of its own.
#[derive(Drop)]
pub struct RangesMut<'a> {
    pub node: &'a mut [usize],
    pub start: &'a mut [usize],
    pub end: &'a mut [usize],
    pub id: &'a mut [u64],
    pub stamp: &'a mut [u64],
    pub touched: &'a mut [f64],
    pub write: &'a mut [u32],
}

impl RangesMut<'_> {
    pub fn view(&self) -> RangesRef<'_>
        ensures { seen result ≡ lent self.now }
    {
        RangesRef {
            node: self.node,
            start: self.start,
            end: self.end,
            id: self.id,
            stamp: self.stamp,
            touched: self.touched,
            write: self.write,
        }
    }

    // A record put at a place among n.
    pub fn put(&mut self, n: usize, at: usize, r: Record)
        requires { (at ≤ n) × (n < 128) × Sized 128 (lent self.old) }
        ensures same { SameColumns self.old self.new }
        ensures columns { lent self.new ≡ put_range at (range_of r) n (lent self.old) }
    {
        put(self.node, n, at, r.node);
        put(self.start, n, at, r.start);
        put(self.end, n, at, r.end);
        put(self.id, n, at, r.id);
        put(self.stamp, n, at, r.stamp);
        put(self.touched, n, at, r.touched);
        put(self.write, n, at, r.write);
    }

    // The record at a place taken out of n.
    pub fn cut(&mut self, n: usize, at: usize)
        requires { (at < n) × (n ≤ 128) × Sized 128 (lent self.old) }
        ensures same { SameColumns self.old self.new }
        ensures columns { lent self.new ≡ cut_range at n (lent self.old) }
    {
        cut(self.node, n, at, 0);
        cut(self.start, n, at, 0);
        cut(self.end, n, at, 0);
        cut(self.id, n, at, 0);
        cut(self.stamp, n, at, 0);
        cut(self.touched, n, at, 0.0);
        cut(self.write, n, at, 0);
    }
}
