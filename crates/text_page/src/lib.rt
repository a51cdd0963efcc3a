#![tactic(auto)]
// A page: bytes written one after the other, and room for N of them.
//
// It is no `fmt::Write`: a `write!` may fail, and what is written here cannot.
ghost use Rattle.std.specs.Prelude.{◌≡◌, ℕ, ◌+◌, ◌≤◌, ◌<◌, List, [], ◌∷◌, ◌++◌, length, take};
ghost use Rattle.text_print.specs.Print.{numeral};
ghost use Rattle.text_page.specs.Page.{Wrote};

use std::marker::Model;

// Room for the answers that wait to go out, and for one more after them.
pub const ROOM: usize = 1048576;

#[derive(Drop)]
pub struct Page<const N: usize> {
    text: [u8; N],
    used: usize,
}

// What is written. The rest of the room is nobody's.
impl<const N: usize> Model for Page<N> {
    ghost Value = { List ℕ };

    ghost view = { λ p. take p.used p.text };

    ghost invariant = { λ p. p.used ≤ N };
}

impl<const N: usize> Page<N> {
    pub fn new() -> Self
        ensures { result ≡ [] }
    {
        Page {
            text: [0; N],
            used: 0,
        }
    }

    // A page over room of the caller's, of which the first `used` bytes are written.
    pub fn over(room: [u8; N], used: usize) -> Self
        requires { used ≤ N }
        ensures { result ≡ take used room.entry }
    {
        Page { text: room, used }
    }

    // What is written, as a slice.
    pub fn bytes(&self) -> &[u8]
        ensures is { result.now ≡ self.now }
        ensures fits { length result.now ≤ N }
    {
        &self.text[..self.used]
    }

    pub fn clear(&mut self)
        ensures { self.new ≡ [] }
    {
        self.used = 0;
    }

    pub fn push(&mut self, b: u8)
        requires { length self.old < N }
        ensures { self.new ≡ self.old ++ b ∷ [] }
    {
        self.used = text_print::put_byte(&mut self.text, self.used, b);
    }

    pub fn push_bytes(&mut self, w: &[u8])
        requires { length self.old + length w.now ≤ N }
        ensures { self.new ≡ self.old ++ w.now }
    {
        self.used = text_print::put_bytes(&mut self.text, self.used, w);
    }

    // The decimal digits of n.
    pub fn push_number(&mut self, n: u64)
        requires { length self.old + 20 ≤ N }
        ensures text { self.new ≡ self.old ++ numeral n }
        ensures wrote { Wrote 20 self.old self.new }
    {
        self.used = text_print::put_number(&mut self.text, self.used, n);
    }

    // A short text, then a number.
    pub fn push_field(&mut self, name: &[u8], n: u64)
        requires { length self.old + length name.now + 20 ≤ N }
        ensures text { self.new ≡ self.old ++ name.now ++ numeral n }
        ensures wrote { Wrote (length name.now + 20) self.old self.new }
    {
        self.push_bytes(name);
        self.push_number(n);
    }

    pub fn end_line(&mut self)
        requires { length self.old < N }
        ensures text { self.new ≡ self.old ++ 10 ∷ [] }
        ensures wrote { Wrote 1 self.old self.new }
    {
        self.push(b'\n');
    }
}
