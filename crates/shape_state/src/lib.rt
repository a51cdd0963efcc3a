#![tactic(auto)]
// The columns that are lent, as structs.

// A store's pin entries, lent to be read.
#[derive(Clone, Copy)]
pub struct PinsRef<'a> {
    pub node: &'a [usize],
    pub start: &'a [usize],
    pub end: &'a [usize],
    pub count: &'a [u64],
}
