#![tactic(auto)]
// A node's mark, which is 0 where the store holds no range of the node: at set-up, where ranges go, in a cut. Of the ranges only the node column is lent:
// the other columns do not matter.
ghost use Rattle.std.specs.Prelude.{◌≡◌, ◌≤◌, ◌<◌, length, replicate};
ghost use Rattle.model.specs.State.{Ranges};
ghost use Rattle.model.specs.Store.{ranges, on_node, unmark as unmarked};
ghost use Rattle.model.specs.Insert.{cut_marks};
ghost use Rattle.model.specs.Calls.{front};

// Is any of the first n ranges on node v?
pub fn on_node(node: &[usize], n: usize, v: usize) -> bool
    requires { n ≤ length node.now }
    ensures { (c : Ranges) → c.node ≡ node.now → result ≡ on_node v (ranges c 0 n) }
{
    node[..n].contains(&v)
}

// Where none of the first n ranges is on node v, its mark becomes 0.
pub fn unmark(node: &[usize], marks: &mut [usize], n: usize, v: usize)
    requires { (n ≤ length node.now) × (v < length marks.old) }
    ensures { (c : Ranges) → c.node ≡ node.now → marks.new ≡ unmarked v (ranges c 0 n) marks.old }
{
    if !on_node(node, n, v) {
        marks[v] = 0;
    }
}

// The store's read marks, cut; `node` and `n` are those after the cut of the ranges.
pub fn cut_marks(node: &[usize], marks: &mut [usize], n: usize, j: usize, k: usize, m: usize)
    requires { (n ≤ length node.now) × (j < length marks.old) × (m < length marks.old) }
    ensures { (c : Ranges) → c.node ≡ node.now → marks.new ≡ cut_marks j k m (ranges c 0 n) marks.old }
{
    let mark = marks[j];
    let head = if on_node(node, n, j) { mark.min(k) } else { 0 };
    let tail = if on_node(node, n, m) {
        mark.saturating_sub(k)
    } else {
        0
    };
    marks[j] = head;
    marks[m] = tail;
}

// Every mark of every store, as set-up has it.
pub fn clear_marks(marks: &mut [usize])
    requires { 2048 ≤ length marks.old }
    ensures { marks.new ≡ front (replicate 2048 0) marks.old }
{
    marks[..2048].fill(0);
}
