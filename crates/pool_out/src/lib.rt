#![tactic(auto)]
// A given-out span by value, and the answer list that it is stored in: six columns, lent to be changed.
ghost use Rattle.std.specs.Prelude.{◌≡◌, ◌<◌};
ghost use Rattle.model.specs.Refusals.{OutFits};
ghost use Rattle.pool_out.specs.Evicted.{write_number, write_of, out_of, set_out};
ghost use Rattle.pool_out.specs.Outs.{listed, SameOuts};

use model::Span;

// The write that a range carries: none, or a number from 1. The rules name these two cases, so it is no `Option`.
#[derive(Clone, Copy, Debug, PartialEq, Eq)]
pub enum WriteId {
    NoWrite,
    Write(u32),
}

// A 0 handed in, or in a column, is none.
impl From<u32> for WriteId {
    ghost from_gives = { λ n r. r ≡ write_of n };

    fn from(n: u32) -> WriteId {
        if n == 0 {
            WriteId::NoWrite
        } else {
            WriteId::Write(n)
        }
    }
}

// The number that a column holds for a write.
impl From<WriteId> for u32 {
    ghost from_gives = { λ w r. r ≡ write_number w };

    fn from(w: WriteId) -> u32 {
        match w {
            WriteId::NoWrite => 0,
            WriteId::Write(n) => n,
        }
    }
}

// A given-out span.
#[derive(Clone, Copy)]
pub struct Evicted {
    pub span: Span,
    pub write: WriteId,
    pub bytes: u64,
    pub dead: u64,
}

// The answer list. A method says that its columns stay the same slices, so that the lender knows what becomes of its own.
#[derive(Drop)]
pub struct OutsMut<'a> {
    pub node: &'a mut [usize],
    pub start: &'a mut [usize],
    pub end: &'a mut [usize],
    pub write: &'a mut [u32],
    pub bytes: &'a mut [u64],
    pub dead: &'a mut [u64],
}

impl OutsMut<'_> {
    // The span stored at place k.
    pub fn put(&mut self, k: usize, e: Evicted)
        requires { (k < 128) × OutFits (listed self.old) }
        ensures same { SameOuts self.old self.new }
        ensures list { listed self.new ≡ set_out k (out_of e) (listed self.old) }
    {
        self.node[k] = e.span.node;
        self.start[k] = e.span.start;
        self.end[k] = e.span.end;
        self.write[k] = u32::from(e.write);
        self.bytes[k] = e.bytes;
        self.dead[k] = e.dead;
    }
}
