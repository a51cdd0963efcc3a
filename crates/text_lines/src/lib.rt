#![tactic(auto)]
// One line of the replay form, read into an operation by value. Its lists go into arrays that the caller lends.
ghost use Rattle.std.specs.Prelude.{◌≡◌, ◌+◌, ◌≤◌, ◌<◌, length, replicate, false, IfSome, MatchOption};
ghost use Rattle.text_lines.specs.Lines.{NextWord, Ended, Passed, Filled};

use model::Span;

// What a line asks for. The counts say how many places of a lent list are filled; a list that is too long fills one place more than its call allows.
#[derive(Clone, Copy)]
pub enum Op {
    // an empty line or a remark, which gets no answer
    Blank,
    Unreadable,
    // numbers of the byte table, stores
    SetUp(usize, usize),
    Insert(usize),
    Resolve(usize),
    Bring(usize, Span, f64, u32),
    // store, time, whether reads are counted, spans
    Touch(usize, f64, bool, usize),
    Remove(usize, Span),
    Expire(usize, f64, f64),
    Pin(usize, Span),
    Unpin(usize, Span),
    // tiers, hashes
    Lookup(usize, usize),
    State,
}

// The lists that lines fill.
#[derive(Drop)]
pub struct Lists {
    // hashes, or the byte table
    pub numbers: [u64; 1026],
    // three places for each span
    pub spans: [usize; 192],
    pub tiers: [usize; 9],
    // of each store
    pub capacity: [u64; 9],
    pub refreshes: [bool; 9],
}

impl Lists {
    pub fn new() -> Self
        ensures numbers { result.numbers ≡ replicate 1026 0 }
        ensures spans { result.spans ≡ replicate 192 0 }
        ensures tiers { result.tiers ≡ replicate 9 0 }
        ensures capacity { result.capacity ≡ replicate 9 0 }
        ensures refreshes { result.refreshes ≡ replicate 9 false }
    {
        Lists {
            numbers: [0; 1026],
            spans: [0; 192],
            tiers: [0; 9],
            capacity: [0; 9],
            refreshes: [false; 9],
        }
    }
}

// What of a line is not read yet.
#[derive(Clone, Copy)]
pub struct Line<'a> {
    pub rest: &'a [u8],
}

impl<'a> Line<'a> {
    // The next word; empty, at the line's end, where there is none.
    pub fn word(&mut self) -> &'a [u8]
        ensures next { NextWord self.old.rest.now result.now self.new.rest.now }
        ensures shorter { length result.now + length self.new.rest.now ≤ length self.old.rest.now }
    {
        let s = self.rest;
        let from = text_words::skip_spaces(s, 0);
        let to = text_words::word_end(s, from);
        self.rest = &s[to..];
        &s[from..to]
    }

    // Whether only spaces are left.
    pub fn ended(&self) -> bool
        ensures { Ended self.now.rest.now result }
    {
        text_words::skip_spaces(self.rest, 0) == self.rest.len()
    }

    // A number, if the next word is one; if not, that word is still the next.
    pub fn number(&mut self) -> Option<u64>
        ensures { MatchOption result (self.new.rest.now ≡ self.old.rest.now) (λ _. Passed self.old.rest.now self.new.rest.now) }
    {
        let mut ahead = *self;
        let n = text_words::read_number(ahead.word()).ok()?;
        *self = ahead;
        Some(n)
    }

    // A time, likewise.
    pub fn time(&mut self) -> Option<f64>
        ensures { MatchOption result (self.new.rest.now ≡ self.old.rest.now) (λ _. Passed self.old.rest.now self.new.rest.now) }
    {
        let mut ahead = *self;
        let t = text_times::read_time(ahead.word())?;
        *self = ahead;
        Some(t)
    }

    // NODE START END
    fn span(&mut self) -> Option<Span>
        ensures { IfSome result (λ _. length self.new.rest.now < length self.old.rest.now) }
    {
        Some(Span {
            node: self.number()? as usize,
            start: self.number()? as usize,
            end: self.number()? as usize,
        })
    }
}

// ---- lists

// The numbers of a line. Those past the list's 1,026 places are read and not kept.
fn read_numbers(mut line: Line, list: &mut [u64; 1026]) -> Option<usize>
    ensures { IfSome result (λ n. n ≤ 1026) }
{
    let mut n = 0;
    while !line.ended() {
        let value = line.number()?;
        if n < 1026 {
            list[n] = value;
            n += 1;
        }
    }
    Some(n)
}

// The spans of a line, three places each; 65 stands for any longer list.
fn read_spans(mut line: Line, spans: &mut [usize; 192]) -> Option<usize>
    ensures { IfSome result (λ n. n ≤ 65) }
{
    let mut n = 0;
    while !line.ended() {
        let span = line.span()?;
        if n < 64 {
            spans[3 * n] = span.node;
            spans[3 * n + 1] = span.start;
            spans[3 * n + 2] = span.end;
        }
        n = 65.min(n + 1);
    }
    Some(n)
}

// A further tier. The ninth place has the largest of those from there on, so that one that names no store is not lost.
fn keep_tier(tiers: &mut [usize; 9], n: usize, t: usize) -> usize
    requires { n ≤ 9 }
    ensures { result ≤ 9 }
{
    if n < 9 {
        tiers[n] = t;
        return n + 1;
    }
    tiers[8] = tiers[8].max(t);
    n
}

// The tiers in a word; nine stand for any more.
fn read_tiers(word: &[u8], tiers: &mut [usize; 9]) -> Option<usize>
    ensures { IfSome result (λ n. n ≤ 9) }
{
    let mut n = 0;
    for tier in word.split(|b| *b == b',') {
        let t = text_words::read_number(tier).ok()?;
        n = keep_tier(tiers, n, t as usize);
    }
    Some(n)
}

// Whether a store's policy is `refresh`.
fn policy(word: &[u8]) -> Option<bool> {
    match word {
        b"fifo" => Some(false),
        b"refresh" => Some(true),
        _ => None,
    }
}

// The stores of a line: a capacity and a policy for each. Nine stand for any more.
fn read_stores(mut line: Line, lists: &mut Lists) -> Option<usize>
    ensures { IfSome result (λ n. n ≤ 9) }
{
    let mut n = 0;
    while !line.ended() {
        let capacity = line.number()?;
        let refreshes = policy(line.word())?;
        if n < 9 {
            lists.capacity[n] = capacity;
            lists.refreshes[n] = refreshes;
            n += 1;
        }
    }
    Some(n)
}

// What of a line stands before the word `stores`, and what after it.
fn split_at_stores(line: Line) -> Option<(Line, Line)> {
    let mut after = line;
    loop {
        let at = line.rest.len() - after.rest.len();
        let word = after.word();
        if word.is_empty() {
            return None;
        }
        if word == b"stores".as_slice() {
            let before = Line {
                rest: &line.rest[..at],
            };
            return Some((before, after));
        }
    }
}

// The table n times k for k from 0 to 1,024. Where its last number is above 2^48 the list stays empty, which no set-up takes.
fn fill_table(n: u64, list: &mut [u64; 1026]) -> usize
    ensures { result ≤ 1026 }
{
    if 274877906944 < n {
        return 0;
    }
    for k in 0..1025 {
        list[k] = n * k as u64;
    }
    1025
}

// ---- one reader for each kind of line, from the place past its first word

fn read_each(mut line: Line, lists: &mut Lists) -> Option<Op>
    ensures { IfSome result Filled }
{
    let n = line.number()?;
    let stores = read_stores(line, lists)?;
    Some(Op::SetUp(fill_table(n, &mut lists.numbers), stores))
}

fn read_table(line: Line, lists: &mut Lists) -> Option<Op>
    ensures { IfSome result Filled }
{
    let (table, stores) = split_at_stores(line)?;
    let n = read_stores(stores, lists)?;
    let k = read_numbers(table, &mut lists.numbers)?;
    Some(Op::SetUp(k, n))
}

fn read_set_up(mut line: Line, lists: &mut Lists) -> Option<Op>
    ensures { IfSome result Filled }
{
    match line.word() {
        b"each" => read_each(line, lists),
        b"table" => read_table(line, lists),
        _ => None,
    }
}

fn read_bring(mut line: Line) -> Option<Op>
    ensures { IfSome result Filled }
{
    let store = line.number()? as usize;
    let span = line.span()?;
    let time = line.time()?;
    let write = u32::try_from(line.number()?).ok()?;
    line.ended().then_some(Op::Bring(store, span, time, write))
}

// Whether a touch counts its reads.
fn flag(word: &[u8]) -> Option<bool> {
    match word {
        b"0" => Some(false),
        b"1" => Some(true),
        _ => None,
    }
}

fn read_touch(mut line: Line, spans: &mut [usize; 192]) -> Option<Op>
    ensures { IfSome result Filled }
{
    let store = line.number()? as usize;
    let time = line.time()?;
    let counted = flag(line.word())?;
    let n = read_spans(line, spans)?;
    Some(Op::Touch(store, time, counted, n))
}

// S NODE START END, and nothing after them.
fn read_held(mut line: Line) -> Option<(usize, Span)> {
    let store = line.number()? as usize;
    let span = line.span()?;
    line.ended().then_some((store, span))
}

fn read_expire(mut line: Line) -> Option<Op>
    ensures { IfSome result Filled }
{
    let store = line.number()? as usize;
    let now = line.time()?;
    let seconds = line.time()?;
    line.ended().then_some(Op::Expire(store, now, seconds))
}

fn read_lookup(mut line: Line, lists: &mut Lists) -> Option<Op>
    ensures { IfSome result Filled }
{
    let word = line.word();
    let n = if word == b":".as_slice() {
        0
    } else {
        let n = read_tiers(word, &mut lists.tiers)?;
        if line.word() != b":".as_slice() {
            return None;
        }
        n
    };
    let k = read_numbers(line, &mut lists.numbers)?;
    Some(Op::Lookup(n, k))
}

fn read_op(mut line: Line, lists: &mut Lists) -> Option<Op>
    ensures { IfSome result Filled }
{
    match line.word() {
        b"insert" => Some(Op::Insert(read_numbers(line, &mut lists.numbers)?)),
        b"touch" => read_touch(line, &mut lists.spans),
        b"lookup" => read_lookup(line, lists),
        b"resolve" => Some(Op::Resolve(read_numbers(line, &mut lists.numbers)?)),
        b"setup" => read_set_up(line, lists),
        b"bring" => read_bring(line),
        b"pin" => read_held(line).map(|(store, span)| Op::Pin(store, span)),
        b"unpin" => read_held(line).map(|(store, span)| Op::Unpin(store, span)),
        b"remove" => read_held(line).map(|(store, span)| Op::Remove(store, span)),
        b"expire" => read_expire(line),
        b"state" => line.ended().then_some(Op::State),
        _ => None,
    }
}

// One line without its end.
pub fn read(s: &[u8], lists: &mut Lists) -> Op
    ensures { Filled result }
{
    if text_words::is_blank_or_remark(s) {
        return Op::Blank;
    }
    read_op(Line { rest: s }, lists).unwrap_or(Op::Unreadable)
}
