// The state as one value, so that a trial works on a copy and the old one stays to compare with.
use crate::name::Name;
use crate::short::Pool;

// The pools at the sizes of 01; the small numbers have room for more, as any pool may.
#[derive(Clone, Copy)]
pub struct World {
    pub parent: [usize; 256],
    pub depth: [usize; 256],
    pub len: [usize; 256],
    pub run: [usize; 256],
    pub words: [u64; 4096],
    pub node: [usize; 1024],
    pub start: [usize; 1024],
    pub end: [usize; 1024],
    pub id: [u64; 1024],
    pub stamp: [u64; 1024],
    pub touched: [f64; 1024],
    pub write: [u32; 1024],
    pub pin_node: [usize; 256],
    pub pin_start: [usize; 256],
    pub pin_end: [usize; 256],
    pub pin_count: [u64; 256],
    pub marks: [usize; 2048],
    pub bytes: [u64; 1025],
    pub books: [u64; 256],
}

// As many of the small numbers as a state has.
pub fn numbers(books: &[u64; 256]) -> &[u64] {
    let n = pool_book::books_size();
    &books[..n]
}

pub fn numbers_mut(books: &mut [u64; 256]) -> &mut [u64] {
    let n = pool_book::books_size();
    &mut books[..n]
}

// A place past the end of its column changes nothing.
fn set<T: Copy>(column: &mut [T], i: usize, n: T) {
    if let Some(place) = column.get_mut(i) {
        *place = n;
    }
}

// The same float: where the two are equal their reciprocals tell 0 from -0; else both are no number. `==` would tell no number from itself.
fn same_time(x: f64, y: f64) -> bool {
    if x == y {
        1.0 / x == 1.0 / y
    } else {
        x.is_nan() && y.is_nan()
    }
}

fn same_times(a: &[f64; 1024], b: &[f64; 1024]) -> bool {
    a.iter().zip(b).all(|(x, y)| same_time(*x, *y))
}

impl World {
    // Pools as they are lent before set-up.
    pub fn blank() -> World {
        World {
            parent: [0; 256],
            depth: [0; 256],
            len: [0; 256],
            run: [0; 256],
            words: [0; 4096],
            node: [0; 1024],
            start: [0; 1024],
            end: [0; 1024],
            id: [0; 1024],
            stamp: [0; 1024],
            touched: [0.0; 1024],
            write: [0; 1024],
            pin_node: [0; 256],
            pin_start: [0; 256],
            pin_end: [0; 256],
            pin_count: [0; 256],
            marks: [0; 2048],
            bytes: [0; 1025],
            books: [0; 256],
        }
    }

    // The number of that name at place i, or of store i. Times have their own, below.
    pub fn put(&mut self, name: Name, i: usize, n: u64) {
        match name {
            Name::Column(pool) => self.put_in(pool, i, n),
            Name::Whole(number) => set(&mut self.books, number as usize, n),
            Name::Store(number) => {
                if i < 8 {
                    set(&mut self.books, 5 + 8 * i + (number as u8) as usize, n);
                }
            }
        }
    }

    fn put_in(&mut self, pool: Pool, i: usize, n: u64) {
        match pool {
            Pool::Parent => set(&mut self.parent, i, n as usize),
            Pool::Depth => set(&mut self.depth, i, n as usize),
            Pool::Len => set(&mut self.len, i, n as usize),
            Pool::Run => set(&mut self.run, i, n as usize),
            Pool::Words => set(&mut self.words, i, n),
            Pool::Node => set(&mut self.node, i, n as usize),
            Pool::Start => set(&mut self.start, i, n as usize),
            Pool::End => set(&mut self.end, i, n as usize),
            Pool::Id => set(&mut self.id, i, n),
            Pool::Stamp => set(&mut self.stamp, i, n),
            Pool::Touched => {}
            Pool::Write => {
                if let Ok(n) = u32::try_from(n) {
                    set(&mut self.write, i, n);
                }
            }
            Pool::PinNode => set(&mut self.pin_node, i, n as usize),
            Pool::PinStart => set(&mut self.pin_start, i, n as usize),
            Pool::PinEnd => set(&mut self.pin_end, i, n as usize),
            Pool::PinCount => set(&mut self.pin_count, i, n),
            Pool::Marks => set(&mut self.marks, i, n as usize),
            Pool::Bytes => set(&mut self.bytes, i, n),
            Pool::Books => set(&mut self.books, i, n),
        }
    }

    pub fn put_time(&mut self, i: usize, time: f64) {
        set(&mut self.touched, i, time);
    }

    pub fn same(&self, other: &World) -> bool {
        self.same_tree(other)
            && self.same_ranges(other)
            && self.same_pins(other)
            && self.books == other.books
    }

    // The tree and the byte table.
    fn same_tree(&self, other: &World) -> bool {
        self.parent == other.parent
            && self.depth == other.depth
            && self.len == other.len
            && self.run == other.run
            && self.words == other.words
            && self.bytes == other.bytes
    }

    fn same_ranges(&self, other: &World) -> bool {
        self.node == other.node
            && self.start == other.start
            && self.end == other.end
            && self.id == other.id
            && self.stamp == other.stamp
            && same_times(&self.touched, &other.touched)
            && self.write == other.write
    }

    // Pins and marks.
    fn same_pins(&self, other: &World) -> bool {
        self.pin_node == other.pin_node
            && self.pin_start == other.pin_start
            && self.pin_end == other.pin_end
            && self.pin_count == other.pin_count
            && self.marks == other.marks
    }
}
