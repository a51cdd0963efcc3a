#![tactic(auto)]

ghost use Rattle.std.specs.Prelude.{◌≡◌, ◌+◌, ◌*◌, ◌≤◌, ◌<◌, length};
ghost use Rattle.model.specs.Sizes.{max_numbers};
ghost use Rattle.model.specs.Sound.{RangesLent};
ghost use Rattle.model.specs.Store.{lay_book, lay_next};
ghost use Rattle.model.specs.Refusals.{OutFits};
ghost use Rattle.shape_state.specs.Lent.{ranges_of};
ghost use Rattle.shape_answer.specs.Lists.{out_list};
ghost use Rattle.pool_part.specs.Parts.{mid, back, back_ranges};
ghost use Rattle.pool_undo.specs.Old.{old_ranges, old_from, old_outs, outs_back};

use model::Book;

// A store's part of the ranges and of the marks, as it was.
#[derive(Clone, Copy)]
pub struct Old {
    pub node: [usize; 128],
    pub start: [usize; 128],
    pub end: [usize; 128],
    pub id: [u64; 128],
    pub stamp: [u64; 128],
    pub touched: [f64; 128],
    pub write: [u32; 128],
    pub marks: [usize; 256],
}

// The first 128 places of the given-out lists, as they were.
#[derive(Clone, Copy)]
pub struct OldOuts {
    pub node: [usize; 128],
    pub start: [usize; 128],
    pub end: [usize; 128],
    pub write: [u32; 128],
    pub bytes: [u64; 128],
    pub dead: [u64; 128],
}

// ---- N places of a column from a on, copied, and put back

pub fn copy<T: Copy + Default, const N: usize>(col: &[T], a: usize) -> [T; N]
    requires { a + N ≤ length col.now }
    ensures { result ≡ mid a N col.now }
{
    let mut out = [T::default(); N];
    out.copy_from_slice(&col[a..a + N]);
    out
}

pub fn put<T: Copy, const N: usize>(col: &mut [T], a: usize, from: &[T; N])
    requires { a + N ≤ length col.old }
    ensures { col.new ≡ back a N from.now col.old }
{
    col[a..a + N].copy_from_slice(from);
}

// ---- a store's part, kept and put back

// The ranges and the marks of store s, kept as they are.
pub fn keep(
    node: &[usize],
    start: &[usize],
    end: &[usize],
    id: &[u64],
    stamp: &[u64],
    touched: &[f64],
    write: &[u32],
    marks: &[usize],
    s: usize,
) -> Old
    requires { (s < 8)
        × RangesLent (ranges_of node.now start.now end.now id.now stamp.now touched.now write.now)
        × (2048 ≤ length marks.now) }
    ensures { result ≡ old_from s
        (ranges_of node.now start.now end.now id.now stamp.now
        touched.now write.now)
        marks.now }
{
    let a = 128 * s;
    Old {
        node: copy(node, a),
        start: copy(start, a),
        end: copy(end, a),
        id: copy(id, a),
        stamp: copy(stamp, a),
        touched: copy(touched, a),
        write: copy(write, a),
        marks: copy(marks, 256 * s),
    }
}

// The ranges and the marks of store s, put back as they were kept.
pub fn undo(
    node: &mut [usize],
    start: &mut [usize],
    end: &mut [usize],
    id: &mut [u64],
    stamp: &mut [u64],
    touched: &mut [f64],
    write: &mut [u32],
    marks: &mut [usize],
    s: usize,
    old: Old,
)
    requires { (s < 8)
        × RangesLent (ranges_of node.old start.old end.old id.old stamp.old touched.old write.old)
        × (2048 ≤ length marks.old) }
    ensures { (ranges_of node.new start.new end.new id.new stamp.new
        touched.new write.new
        ≡ back_ranges (128 * s) 128 (old_ranges old)
        (ranges_of node.old start.old end.old id.old stamp.old
        touched.old write.old))
        × (marks.new ≡ back (256 * s) 256 old.marks marks.old) }
{
    let a = 128 * s;
    put(node, a, &old.node);
    put(start, a, &old.start);
    put(end, a, &old.end);
    put(id, a, &old.id);
    put(stamp, a, &old.stamp);
    put(touched, a, &old.touched);
    put(write, a, &old.write);
    put(marks, 256 * s, &old.marks);
}

// The same with the store's own numbers, the next id and the stalls.
pub fn undo_store(
    node: &mut [usize],
    start: &mut [usize],
    end: &mut [usize],
    id: &mut [u64],
    stamp: &mut [u64],
    touched: &mut [f64],
    write: &mut [u32],
    marks: &mut [usize],
    books: &mut [u64],
    s: usize,
    old: Old,
    b: Book,
    next: u64,
    stalls: u64,
)
    requires { (s < 8)
        × RangesLent (ranges_of node.old start.old end.old id.old stamp.old touched.old write.old)
        × (2048 ≤ length marks.old)
        × (max_numbers ≤ length books.old) }
    ensures { (ranges_of node.new start.new end.new id.new stamp.new
        touched.new write.new
        ≡ back_ranges (128 * s) 128 (old_ranges old)
        (ranges_of node.old start.old end.old id.old stamp.old
        touched.old write.old))
        × (marks.new ≡ back (256 * s) 256 old.marks marks.old)
        × (books.new ≡ lay_next next stalls (lay_book s b books.old)) }
{
    undo(node, start, end, id, stamp, touched, write, marks, s, old);
    pool_book::put_book(books, s, b);
    pool_book::put_next(books, next, stalls);
}

// ---- the given-out lists, kept and put back

// The first 128 places of each, kept as they are.
pub fn keep_outs(
    out_node: &[usize],
    out_start: &[usize],
    out_end: &[usize],
    out_write: &[u32],
    out_bytes: &[u64],
    out_dead: &[u64],
) -> OldOuts
    requires { OutFits (out_list out_node.now out_start.now out_end.now out_write.now out_bytes.now out_dead.now) }
    ensures { result ≡ old_outs
        (out_list out_node.now out_start.now out_end.now out_write.now out_bytes.now
        out_dead.now) }
{
    OldOuts {
        node: copy(out_node, 0),
        start: copy(out_start, 0),
        end: copy(out_end, 0),
        write: copy(out_write, 0),
        bytes: copy(out_bytes, 0),
        dead: copy(out_dead, 0),
    }
}

// Put back as they were kept.
pub fn undo_outs(
    out_node: &mut [usize],
    out_start: &mut [usize],
    out_end: &mut [usize],
    out_write: &mut [u32],
    out_bytes: &mut [u64],
    out_dead: &mut [u64],
    old: OldOuts,
)
    requires { OutFits (out_list out_node.old out_start.old out_end.old out_write.old out_bytes.old out_dead.old) }
    ensures { out_list out_node.new out_start.new out_end.new out_write.new out_bytes.new
        out_dead.new
        ≡ outs_back old
        (out_list out_node.old out_start.old out_end.old out_write.old out_bytes.old
        out_dead.old) }
{
    put(out_node, 0, &old.node);
    put(out_start, 0, &old.start);
    put(out_end, 0, &old.end);
    put(out_write, 0, &old.write);
    put(out_bytes, 0, &old.bytes);
    put(out_dead, 0, &old.dead);
}
