#![tactic(auto)]
// What a reader gives, a line at a time, in bounded memory.
ghost use Rattle.std.specs.Prelude.{◌≡◌, ◌≤◌, IfOk, IfSome, IsNone, OnErr, IsFalse};
ghost use Rattle.text_words.specs.Words.{First, is};
ghost use Rattle.text_lines.specs.Lines.{Filled};

use std::io::{Read, Result};
use text_lines::{Lists, Op};

// ---- a line that is too long to keep

// What was passed of it.
#[derive(Clone, Copy, Debug, PartialEq, Eq)]
pub enum Seen {
    Spaces,
    // spaces and a CR, which the line's LF may follow
    SpacesCr,
    Remark,
    Other,
}

impl Seen {
    fn after(self, b: u8) -> Seen {
        match (self, b) {
            (Seen::Remark, _) => Seen::Remark,
            (Seen::Spaces, b' ') => Seen::Spaces,
            (Seen::Spaces, b'\r') => Seen::SpacesCr,
            (Seen::Spaces, b'#') => Seen::Remark,
            _ => Seen::Other,
        }
    }

    fn after_all(self, bytes: &[u8]) -> Seen {
        bytes.iter().fold(self, |seen, b| seen.after(*b))
    }

    // Such a line is unreadable, but where it is empty or a remark.
    fn op(self, whole: bool) -> Op
        ensures { Filled result }
    {
        match self {
            Seen::Other => Op::Unreadable,
            Seen::SpacesCr if !whole => Op::Unreadable,
            _ => Op::Blank,
        }
    }
}

// ---- lines

fn without_cr(line: &[u8]) -> &[u8] {
    line.strip_suffix(b"\r").unwrap_or(line)
}

fn read_line(line: &[u8], lists: &mut Lists, whole: bool) -> Op
    ensures { Filled result }
{
    if 65535 < line.len() {
        return Seen::Spaces.after_all(line).op(whole);
    }
    text_lines::read(line, lists)
}

// The part of the buffer from `from` up to `to` is read and not used yet.
#[derive(Drop)]
pub struct Lines {
    pub buf: [u8; 131072],
    pub from: usize,
    pub to: usize,
    // whether the input has ended
    pub ended: bool,
    // of a line that is too long to keep, what was passed of it
    pub seen: Option<Seen>,
    pub ghost within: { (from ≤ to) × (to ≤ 131072) },
}

impl Lines {
    // Nothing is read yet.
    pub fn new() -> Self
        ensures empty { (result.from ≡ 0) × (result.to ≡ 0) }
        ensures goes_on { IsFalse result.ended }
        ensures whole { IsNone result.seen }
    {
        Lines {
            buf: [0; 131072],
            from: 0,
            to: 0,
            ended: false,
            seen: None,
        }
    }

    // What is left goes to the front of the buffer; of a line that is too long to keep, what was seen is left.
    fn make_room(&mut self) {
        let n = self.to - self.from;
        if self.seen.is_some() || 65536 < n {
            let seen = self.seen.unwrap_or(Seen::Spaces);
            self.seen = Some(seen.after_all(&self.buf[self.from..self.to]));
            self.to = 0;
        } else {
            self.buf.copy_within(self.from..self.to, 0);
            self.to = n;
        }
        self.from = 0;
    }

    fn read_on<R: Read>(&mut self, input: &mut R) -> Result<()> {
        self.make_room();
        let got = input.read(&mut self.buf[self.to..])?;
        let n = got.min(131072 - self.to);
        self.to += n;
        self.ended = n == 0;
        Ok(())
    }

    // What is left where the input has ended.
    fn last_op(&mut self, lists: &mut Lists) -> Option<Op>
        ensures { IfSome result Filled }
    {
        let seen = self.seen.take();
        let rest = &self.buf[self.from..self.to];
        let op = match seen {
            Some(seen) => seen.after_all(rest).op(false),
            None if rest.is_empty() => return None,
            None => read_line(rest, lists, false),
        };
        self.from = self.to;
        Some(op)
    }

    // What the next line asks for; none where there is none any more. A turn that only reads on asks for nothing.
    //
    // It reads on, and fails where the read fails, only where no line's end is left in the buffer and the input has not ended. Then no line was read, and
    // the lists are as they were; the buffer, `from`, `to` and `seen` may have changed, as room was made.
    pub fn next_op<R: Read>(&mut self, input: &mut R, lists: &mut Lists) -> Result<Option<Op>>
        ensures ok { IfOk result (λ o. IfSome o Filled) }
        ensures read_on { OnErr result (First (is 10) self.old.buf self.old.from self.old.to self.old.to) }
        ensures not_ended { OnErr result (IsFalse self.old.ended) }
        ensures lists { OnErr result (lists.new ≡ lists.old) }
    {
        let z = text_words::next_byte(&self.buf, self.from, self.to, b'\n');
        if z < self.to {
            let seen = self.seen.take();
            let line = &self.buf[self.from..z];
            let op = match seen {
                Some(seen) => seen.after_all(line).op(true),
                None => read_line(without_cr(line), lists, true),
            };
            self.from = z + 1;
            return Ok(Some(op));
        }
        if self.ended {
            return Ok(self.last_op(lists));
        }
        self.read_on(input)?;
        Ok(Some(Op::Blank))
    }

    // The first line that asks for something, or none: the turns are counted, as in a program's own loop.
    pub fn first_op<R: Read>(&mut self, input: &mut R, lists: &mut Lists) -> Result<Option<Op>>
        ensures { IfOk result (λ o. IfSome o Filled) }
    {
        for _ in 0..u64::MAX {
            match self.next_op(input, lists)? {
                Some(Op::Blank) => {}
                op => return Ok(op),
            }
        }
        Ok(None)
    }
}

#[cfg(test)]
mod tests;
