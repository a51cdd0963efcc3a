#![tactic(auto)]

ghost use Rattle.std.specs.Prelude.{◌≡◌, ℕ, ◌+◌, ◌≤◌, ◌<◌, length};
ghost use Rattle.model.specs.Words.{Says, Each};
ghost use Rattle.model.specs.State.{at};
ghost use Rattle.test_store.specs.Places.{PairsFrom};
ghost use Rattle.test_store.specs.Records.{InsideAt, BeforeAt, NumberedAt, FiniteAt, held_from, RecordsFit};
ghost use Rattle.test_store.specs.Pins.{PinBeforeAt, CountedAt, pinned_from, PinsFit};
ghost use Rattle.test_store.specs.Marks.{MarkFits, Flags};

fn inside(
    len: &[usize],
    node: &[usize],
    start: &[usize],
    end: &[usize],
    nodes: usize,
    i: usize,
) -> bool
    requires { (nodes ≤ length len.now) × (i < length node.now) × (i < length start.now) × (i < length end.now) }
    ensures { Says result (InsideAt len.now node.now start.now end.now nodes i) }
{
    let v = node[i];
    v < nodes && start[i] < end[i] && end[i] <= len[v]
}

fn all_inside(
    len: &[usize],
    node: &[usize],
    start: &[usize],
    end: &[usize],
    nodes: usize,
    a: usize,
    b: usize,
) -> bool
    requires { (nodes ≤ length len.now) × (b ≤ length node.now) × (b ≤ length start.now) × (b ≤ length end.now) }
    ensures { Says result (Each a b (InsideAt len.now node.now start.now end.now nodes)) }
{
    (a..b).all(|i| inside(len, node, start, end, nodes, i))
}

fn numbered(id: &[u64], stamp: &[u64], next: u64, top: u64, i: usize) -> bool
    requires { (i < length id.now) × (i < length stamp.now) }
    ensures { Says result (NumberedAt id.now stamp.now next top i) }
{
    (1..next).contains(&id[i]) && (1..=top).contains(&stamp[i])
}

fn all_numbered(id: &[u64], stamp: &[u64], next: u64, top: u64, a: usize, b: usize) -> bool
    requires { (b ≤ length id.now) × (b ≤ length stamp.now) }
    ensures { Says result (Each a b (NumberedAt id.now stamp.now next top)) }
{
    (a..b).all(|i| numbered(id, stamp, next, top, i))
}

fn all_finite(touched: &[f64], a: usize, b: usize) -> bool
    requires { b ≤ length touched.now }
    ensures { Says result (Each a b (FiniteAt touched.now)) }
{
    (a..b).all(|i| test_arguments::finite(touched[i]))
}

fn stands(node: &[usize], start: &[usize], end: &[usize], j: usize, k: usize) -> bool
    requires { (j < k) × (k < length node.now) × (k < length start.now) × (k < length end.now) }
    ensures { Says result (BeforeAt node.now start.now end.now j k) }
{
    node[j] < node[k] || (node[j] == node[k] && end[j] <= start[k])
}

// Neighbours in order, and every range nonempty: all in order.
fn all_stand(node: &[usize], start: &[usize], end: &[usize], a: usize, b: usize) -> bool
    requires { (a ≤ b)
        × (b ≤ 1024)
        × (b ≤ length node.now)
        × (b ≤ length start.now)
        × (b ≤ length end.now)
        × Each a b (λ (i : ℕ). at start.now i < at end.now i) }
    ensures { Says result (PairsFrom a b (BeforeAt node.now start.now end.now)) }
{
    (a + 1..b).all(|i| stands(node, start, end, i - 1, i))
}

fn held_is(start: &[usize], end: &[usize], a: usize, n: usize, held: u64) -> bool
    requires { (n ≤ 128)
        × (a + n ≤ 1024)
        × (a + n ≤ length start.now)
        × (a + n ≤ length end.now)
        × Each a (a + n) (λ (i : ℕ). (at start.now i < at end.now i) × (at end.now i ≤ 1024)) }
    ensures { Says result (held ≡ held_from start.now end.now a n) }
{
    let mut sum = 0;
    for k in a..a + n {
        sum += end[k] - start[k];
    }
    sum as u64 == held
}

fn none_at_zero(capacity: u64, held: u64) -> bool
    ensures { Says result (capacity ≡ 0 → held ≡ 0) }
{
    capacity != 0 || held == 0
}

fn pin_stands(node: &[usize], start: &[usize], end: &[usize], j: usize, k: usize) -> bool
    requires { (j < k) × (k < length node.now) × (k < length start.now) × (k < length end.now) }
    ensures { Says result (PinBeforeAt node.now start.now end.now j k) }
{
    (node[j], start[j], end[j]) < (node[k], start[k], end[k])
}

fn all_pins_stand(node: &[usize], start: &[usize], end: &[usize], a: usize, b: usize) -> bool
    requires { (a ≤ b) × (b ≤ 1024) × (b ≤ length node.now) × (b ≤ length start.now) × (b ≤ length end.now) }
    ensures { Says result (PairsFrom a b (PinBeforeAt node.now start.now end.now)) }
{
    (a + 1..b).all(|i| pin_stands(node, start, end, i - 1, i))
}

fn all_counted(count: &[u64], a: usize, b: usize) -> bool
    requires { b ≤ length count.now }
    ensures { Says result (Each a b (CountedAt count.now)) }
{
    (a..b).all(|i| count[i] >= 1)
}

// A count above 1,000,000 cannot be in a sum of at most that, and is not multiplied.
fn pinned_is(start: &[usize], end: &[usize], count: &[u64], a: usize, n: usize, pinned: u64) -> bool
    requires { (n ≤ 32)
        × (a + n ≤ 1024)
        × (a + n ≤ length start.now)
        × (a + n ≤ length end.now)
        × (a + n ≤ length count.now)
        × (pinned ≤ 1000000)
        × Each a (a + n) (λ (i : ℕ). (at start.now i < at end.now i) × (at end.now i ≤ 1024)) }
    ensures { Says result (pinned ≡ pinned_from start.now end.now count.now a n) }
{
    let mut sum = 0;
    for k in a..a + n {
        if count[k] > 1000000 {
            return false;
        }
        sum += (end[k] - start[k]) as u64 * count[k];
    }
    sum == pinned
}

// Which nodes have one of the records from `a` up to `b`.
fn held_nodes(node: &[usize], a: usize, b: usize) -> [bool; 256]
    requires { (a ≤ b) × (b ≤ length node.now) × Each a b (λ (i : ℕ). at node.now i < 256) }
    ensures { Flags node.now result a b }
{
    let mut held = [false; 256];
    for v in &node[a..b] {
        held[*v] = true;
    }
    held
}

fn mark_fits(
    len: &[usize],
    node: &[usize],
    marks: &[usize],
    held: &[bool; 256],
    nodes: usize,
    a: usize,
    b: usize,
    m: usize,
    v: usize,
) -> bool
    requires { (v < 256)
        × (m ≤ 2048)
        × (v < length len.now)
        × (m + v < length marks.now)
        × Each a b (λ (i : ℕ). at node.now i < nodes)
        × Flags node.now held.now a b }
    ensures { Says result (MarkFits len.now node.now marks.now nodes a b m v) }
{
    let mark = marks[m + v];
    mark == 0 || (held[v] && mark <= len[v])
}

// The marks from `m` of a store whose records are those from `a` up to `b`.
pub fn marks_fit(
    len: &[usize],
    node: &[usize],
    marks: &[usize],
    nodes: usize,
    a: usize,
    b: usize,
    m: usize,
) -> bool
    requires { (a ≤ b)
        × (b ≤ 1024)
        × (m ≤ 2048)
        × (nodes ≤ 256)
        × (256 ≤ length len.now)
        × (b ≤ length node.now)
        × (m + 256 ≤ length marks.now)
        × Each a b (λ (i : ℕ). at node.now i < nodes) }
    ensures { Says result (Each 0 256 (MarkFits len.now node.now marks.now nodes a b m)) }
{
    let held = held_nodes(node, a, b);
    (0..256).all(|v| mark_fits(len, node, marks, &held, nodes, a, b, m, v))
}

// The `n` records from place `a`, of a store with this last stamp, these held blocks and this capacity.
pub fn records_fit(
    len: &[usize],
    node: &[usize],
    start: &[usize],
    end: &[usize],
    id: &[u64],
    stamp: &[u64],
    touched: &[f64],
    nodes: usize,
    next: u64,
    a: usize,
    n: usize,
    top: u64,
    held: u64,
    capacity: u64,
) -> bool
    requires { (n ≤ 128)
        × (a + n ≤ 1024)
        × (nodes ≤ length len.now)
        × (1024 ≤ length node.now)
        × (1024 ≤ length start.now)
        × (1024 ≤ length end.now)
        × (1024 ≤ length id.now)
        × (1024 ≤ length stamp.now)
        × (1024 ≤ length touched.now)
        × ((k : ℕ) → k < nodes → at len.now k ≤ 1024) }
    ensures { Says result
        (RecordsFit len.now node.now start.now end.now id.now stamp.now
        touched.now nodes next a n top held capacity) }
{
    let b = a + n;
    all_inside(len, node, start, end, nodes, a, b)
        && all_stand(node, start, end, a, b)
        && all_numbered(id, stamp, next, top, a, b)
        && all_finite(touched, a, b)
        && held_is(start, end, a, n, held)
        && none_at_zero(capacity, held)
}

// The `n` pin entries from place `a`, of a store with these pinned blocks.
pub fn pins_fit(
    len: &[usize],
    node: &[usize],
    start: &[usize],
    end: &[usize],
    count: &[u64],
    nodes: usize,
    a: usize,
    n: usize,
    pinned: u64,
) -> bool
    requires { (n ≤ 32)
        × (a + n ≤ 256)
        × (nodes ≤ length len.now)
        × (256 ≤ length node.now)
        × (256 ≤ length start.now)
        × (256 ≤ length end.now)
        × (256 ≤ length count.now)
        × (pinned ≤ 1000000)
        × ((k : ℕ) → k < nodes → at len.now k ≤ 1024) }
    ensures { Says result (PinsFit len.now node.now start.now end.now count.now nodes a n pinned) }
{
    let b = a + n;
    all_inside(len, node, start, end, nodes, a, b)
        && all_counted(count, a, b)
        && all_pins_stand(node, start, end, a, b)
        && pinned_is(start, end, count, a, n, pinned)
}
