#![tactic(auto)]
// The answers in the replay form, written on a page.
ghost use Rattle.std.specs.Prelude.{◌+◌, ◌*◌, ◌≤◌, ◌<◌, length};
ghost use Rattle.text_page.specs.Page.{Wrote};
ghost use Rattle.text_answer.specs.Text.{PathRoom, OutRoom, SpanRoom, PathIn, InsertIn, BringIn, ExpireIn, RemoveIn, LookupIn};

use model::{Cut, EachTier, LookupAnswer, Path};
use shape_answer::{
    Inserted, Looked, Plain, Resolved, StoreExpired, StoreInserted, StoreRemoved, StoreUsed,
};
use text_page::Page;

// ---- the lists that come with an answer, each a column that the caller lends

// The segments of a path.
#[derive(Clone, Copy)]
pub struct Segments<'a> {
    pub node: &'a [usize],
    pub len: &'a [usize],
}

// The spans that a call gave out.
#[derive(Clone, Copy)]
pub struct Outs<'a> {
    pub node: &'a [usize],
    pub start: &'a [usize],
    pub end: &'a [usize],
    pub write: &'a [u32],
    pub bytes: &'a [u64],
    pub dead: &'a [u64],
}

// The spans that a lookup found, each in its tier.
#[derive(Clone, Copy)]
pub struct TierSpans<'a> {
    pub tier: &'a [usize],
    pub node: &'a [usize],
    pub start: &'a [usize],
    pub end: &'a [usize],
}

// ---- parts of a line

// ` NODE:LEN`
fn put_segment<const N: usize>(page: &mut Page<N>, node: usize, len: usize)
    requires { length page.old + 64 ≤ N }
    ensures { Wrote 42 page.old page.new }
{
    page.push_field(b" ", node as u64);
    page.push_field(b":", len as u64);
}

// `NODE:START-END` after a short text.
pub fn put_span<const N: usize>(
    page: &mut Page<N>,
    name: &[u8],
    node: usize,
    start: usize,
    end: usize,
)
    requires { (length name.now ≤ 1) × (length page.old + 96 ≤ N) }
    ensures { Wrote 63 page.old page.new }
{
    page.push_field(name, node as u64);
    page.push_field(b":", start as u64);
    page.push_field(b"-", end as u64);
}

// ` NODE:START-END,w=WRITE,bytes=BYTES,dead=DEAD` of the span at place i.
fn put_out<const N: usize>(page: &mut Page<N>, outs: Outs, i: usize)
    requires { (i < 128) × OutRoom outs × (length page.old + 160 ≤ N) }
    ensures { Wrote 139 page.old page.new }
{
    put_span(page, b" ", outs.node[i], outs.start[i], outs.end[i]);
    page.push_field(b",w=", outs.write[i] as u64);
    page.push_field(b",bytes=", outs.bytes[i]);
    page.push_field(b",dead=", outs.dead[i]);
}

// ` NUMBER` for each.
fn put_numbers<const N: usize, T: Copy + Into<u64>>(page: &mut Page<N>, numbers: &[T])
    requires { length page.old + 21 * length numbers.now ≤ N }
    ensures { Wrote (21 * length numbers.now) page.old page.new }
{
    for n in numbers {
        page.push_field(b" ", (*n).into());
    }
}

// The first n segments.
fn put_segments<const N: usize>(page: &mut Page<N>, path: Segments, n: usize)
    requires { (n ≤ 255) × PathRoom path × (length page.old + 16384 ≤ N) }
    ensures { Wrote 10710 page.old page.new }
{
    for i in 0..n {
        put_segment(page, path.node[i], path.len[i]);
    }
}

// ` path NODE:LEN .. blocks B`, after `ok`.
fn put_path<const N: usize>(page: &mut Page<N>, path: Segments, p: Path)
    requires { (p.segs ≤ 255) × PathRoom path × (length page.old + 20000 ≤ N) }
    ensures { Wrote 10800 page.old page.new }
{
    page.push_bytes(b"ok path");
    put_segments(page, path, p.segs);
    page.push_field(b" blocks ", p.blocks as u64);
}

// ` S cap=CAPACITY pol=POLICY` after a short text.
pub fn put_rules<const N: usize>(
    page: &mut Page<N>,
    name: &[u8],
    s: usize,
    capacity: u64,
    refreshes: bool,
)
    requires { (length name.now ≤ 6) × (length page.old + 128 ≤ N) }
    ensures { Wrote 64 page.old page.new }
{
    page.push_field(name, s as u64);
    page.push_field(b" cap=", capacity);
    if refreshes {
        page.push_bytes(b" pol=refresh");
    } else {
        page.push_bytes(b" pol=fifo");
    }
}

// ---- answers

pub fn put_refused<const N: usize>(page: &mut Page<N>, n: u8)
    requires { length page.old + 64 ≤ N }
    ensures { Wrote 64 page.old page.new }
{
    page.push_field(b"refused ", n as u64);
    page.end_line();
}

pub fn put_line<const N: usize>(page: &mut Page<N>, w: &[u8])
    requires { (length w.now ≤ 32) × (length page.old + 64 ≤ N) }
    ensures { Wrote 64 page.old page.new }
{
    page.push_bytes(w);
    page.end_line();
}

// Set-up, pin and unpin.
pub fn put_plain<const N: usize>(page: &mut Page<N>, a: Plain)
    requires { length page.old + 64 ≤ N }
    ensures { Wrote 64 page.old page.new }
{
    match a {
        Plain::Refused(n) => put_refused(page, n),
        Plain::Done => put_line(page, b"ok"),
    }
}

// Touch.
pub fn put_bytes_read<const N: usize>(page: &mut Page<N>, a: StoreUsed)
    requires { length page.old + 64 ≤ N }
    ensures { Wrote 64 page.old page.new }
{
    match a {
        StoreUsed::Refused(n) => put_refused(page, n),
        StoreUsed::Done(d) => {
            page.push_field(b"ok bytes ", d.bytes);
            page.end_line();
        }
    }
}

// A path.
fn put_whole<const N: usize>(page: &mut Page<N>, path: Segments, p: Path)
    requires { (p.segs ≤ 255) × PathRoom path × (length page.old + 32768 ≤ N) }
    ensures { Wrote 32768 page.old page.new }
{
    put_path(page, path, p);
    page.end_line();
}

// An inserted path, and the cut.
fn put_split<const N: usize>(page: &mut Page<N>, path: Segments, p: Path, c: Cut)
    requires { (p.segs ≤ 255) × PathRoom path × (length page.old + 32768 ≤ N) }
    ensures { Wrote 32768 page.old page.new }
{
    put_path(page, path, p);
    page.push_field(b" cut ", c.node as u64);
    page.push_field(b" ", c.at as u64);
    page.push_field(b" ", c.new as u64);
    page.end_line();
}

// The first n spans given out.
fn put_outs<const N: usize>(page: &mut Page<N>, outs: Outs, n: usize)
    requires { (n ≤ 128) × OutRoom outs × (length page.old + 32768 ≤ N) }
    ensures { Wrote 32768 page.old page.new }
{
    page.push_bytes(b"ok out");
    for i in 0..n {
        put_out(page, outs, i);
    }
    page.end_line();
}

// The first n write numbers.
fn put_writes<const N: usize>(page: &mut Page<N>, write: &[u32], n: usize)
    requires { (n ≤ 128) × (128 ≤ length write.now) × (length page.old + 32768 ≤ N) }
    ensures { Wrote 32768 page.old page.new }
{
    page.push_bytes(b"ok writes");
    put_numbers(page, &write[..n]);
    page.end_line();
}

// ---- a lookup's answer

// ` TIER:NODE:START-END` for the first n tier spans.
fn put_tier_spans<const N: usize>(page: &mut Page<N>, spans: TierSpans, n: usize)
    requires { (n ≤ 1024) × SpanRoom spans × (length page.old + 86144 ≤ N) }
    ensures { Wrote 86016 page.old page.new }
{
    for i in 0..n {
        page.push_field(b" ", spans.tier[i] as u64);
        put_span(page, b":", spans.node[i], spans.start[i], spans.end[i]);
    }
}

fn sums_of(t: EachTier) -> [u64; 8] {
    [
        t.first, t.second, t.third, t.fourth, t.fifth, t.sixth, t.seventh, t.eighth,
    ]
}

// `blocks B0 B1 .. bytes Y0 Y1 ..`
fn put_all_sums<const N: usize>(page: &mut Page<N>, blocks: EachTier, bytes: EachTier, n: usize)
    requires { (n ≤ 8) × (length page.old + 1024 ≤ N) }
    ensures { Wrote 512 page.old page.new }
{
    let blocks = sums_of(blocks);
    let bytes = sums_of(bytes);
    page.push_bytes(b" blocks");
    put_numbers(page, &blocks[..n]);
    page.push_bytes(b" bytes");
    put_numbers(page, &bytes[..n]);
    page.end_line();
}

// A lookup through n tiers: the path, the tier spans, the sums.
fn put_looked<const N: usize>(
    page: &mut Page<N>,
    path: Segments,
    spans: TierSpans,
    d: LookupAnswer,
    n: usize,
)
    requires { (d.path.segs ≤ 255) × (d.spans ≤ 1024) × (n ≤ 8) × PathRoom path × SpanRoom spans × (length page.old + 131072 ≤ N) }
    ensures { Wrote 131072 page.old page.new }
{
    page.push_bytes(b"ok path");
    put_segments(page, path, d.path.segs);
    page.push_bytes(b" spans");
    put_tier_spans(page, spans, d.spans);
    put_all_sums(page, d.blocks, d.bytes, n);
}

// ---- an answer of each call that has a list

// A resolved path.
pub fn put_resolved<const N: usize>(page: &mut Page<N>, path: Segments, a: Resolved)
    requires { PathIn a × PathRoom path × (length page.old + 32768 ≤ N) }
    ensures { Wrote 32768 page.old page.new }
{
    match a {
        Resolved::Refused(n) => put_refused(page, n),
        Resolved::Done(d) => put_whole(page, path, d.path),
    }
}

// An inserted path.
pub fn put_inserted<const N: usize>(page: &mut Page<N>, path: Segments, a: Inserted)
    requires { InsertIn a × PathRoom path × (length page.old + 32768 ≤ N) }
    ensures { Wrote 32768 page.old page.new }
{
    match a {
        Inserted::Refused(n) => put_refused(page, n),
        Inserted::Done(d) => match d.split {
            None => put_whole(page, path, d.path),
            Some(c) => put_split(page, path, d.path, c),
        },
    }
}

// Bring-in.
pub fn put_brought<const N: usize>(page: &mut Page<N>, outs: Outs, a: StoreInserted)
    requires { BringIn a × OutRoom outs × (length page.old + 32768 ≤ N) }
    ensures { Wrote 32768 page.old page.new }
{
    match a {
        StoreInserted::Refused(n) => put_refused(page, n),
        StoreInserted::Done(d) => put_outs(page, outs, d.outs as usize),
    }
}

// Expiry.
pub fn put_expired<const N: usize>(page: &mut Page<N>, outs: Outs, a: StoreExpired)
    requires { ExpireIn a × OutRoom outs × (length page.old + 32768 ≤ N) }
    ensures { Wrote 32768 page.old page.new }
{
    match a {
        StoreExpired::Refused(n) => put_refused(page, n),
        StoreExpired::Done(d) => put_outs(page, outs, d.outs as usize),
    }
}

// Removal.
pub fn put_removed<const N: usize>(page: &mut Page<N>, write: &[u32], a: StoreRemoved)
    requires { RemoveIn a × (128 ≤ length write.now) × (length page.old + 32768 ≤ N) }
    ensures { Wrote 32768 page.old page.new }
{
    match a {
        StoreRemoved::Refused(n) => put_refused(page, n),
        StoreRemoved::Done(d) => put_writes(page, write, d.writes as usize),
    }
}

// A lookup through n tiers.
pub fn put_looked_up<const N: usize>(
    page: &mut Page<N>,
    path: Segments,
    spans: TierSpans,
    a: Looked,
    n: usize,
)
    requires { LookupIn n a × PathRoom path × SpanRoom spans × (length page.old + 131072 ≤ N) }
    ensures { Wrote 131072 page.old page.new }
{
    match a {
        Looked::Refused(m) => put_refused(page, m),
        Looked::Done(d) => put_looked(page, path, spans, d, n),
    }
}
