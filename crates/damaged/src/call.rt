// An operation of the replay form put to the public calls.
ghost use Rattle.text_lines.specs.Lines.{Filled};

use radix::Span;
use text_lines::Op;
use trial_store::{growing, pinning, storing};
use trial_world::trial::Trial;

// The spans of a line, three places each, and a place more, so that a list can be too long.
fn spans_of(places: &[usize; 192]) -> [Span; 65] {
    let mut spans = [Span {
        node: 0,
        start: 0,
        end: 0,
    }; 65];
    for (span, place) in spans.iter_mut().zip(places.chunks_exact(3)) {
        *span = Span {
            node: place[0],
            start: place[1],
            end: place[2],
        };
    }
    spans
}

// Set-up is given as many flags as stores where `flags` says none. What is no call gives back a number that no refusal has.
pub fn call(
    t: &mut Trial,
    flags: Option<usize>,
    op: Op,
    list: &[u64; 1026],
    spans: &[usize; 192],
    tiers: &[usize; 9],
    capacity: &[u64; 9],
    refreshes: &[bool; 9],
) -> u64
    requires { Filled op }
{
    match op {
        Op::Insert(n) => growing::insert(t, &list[..n]),
        Op::Resolve(n) => trial_read::resolve(t, &list[..n]),
        Op::Lookup(k, n) => trial_read::lookup(t, &tiers[..k], &list[..n]),
        Op::SetUp(n, k) => {
            let f = flags.unwrap_or(k).min(9);
            growing::set_up(t, &list[..n], &capacity[..k], &refreshes[..f])
        }
        Op::Bring(s, sp, time, write) => storing::store_insert(t, s, sp, time, write),
        Op::Touch(s, time, counted, n) => {
            storing::store_used(t, s, spans_of(spans), n, time, counted)
        }
        Op::Remove(s, sp) => storing::store_remove(t, s, sp),
        Op::Expire(s, time, seconds) => storing::store_expire(t, s, time, seconds),
        Op::Pin(s, sp) => pinning::pin_source(t, s, sp),
        Op::Unpin(s, sp) => pinning::unpin_source(t, s, sp),
        _ => 99,
    }
}
