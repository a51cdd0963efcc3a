#![tactic(auto)]
// A store's ranges that were not touched for a while are given out, oldest first.
ghost use Rattle.std.specs.Prelude.{◌≡◌, false, ◌≤◌, length};
ghost use Rattle.std.specs.Float.{binary64};
ghost use Rattle.std.specs.Float.Ieee.{sub, lt};
ghost use Rattle.model.specs.Store.{ranges as rangesOf};
ghost use Rattle.model.specs.Expire.{oldest};
ghost use Rattle.rule_resolve.specs.Span.{only_depth};
ghost use Rattle.pool_range.specs.Lent.{lent, seen, SameColumns};
ghost use Rattle.pool_out.specs.Outs.{listed, SameOuts};
ghost use Rattle.rule_evict.specs.Given.{Ready, GivenOut};
ghost use Rattle.rule_expire.specs.Expire.{expired};

use pool_out::OutsMut;
use pool_range::{RangesMut, RangesRef};

// More than the seconds have passed, the difference rounded once.
fn is_aged(touched: f64, time: f64, seconds: f64) -> bool
    ensures { result ≡ lt seconds (sub binary64 time touched) }
{
    time - touched > seconds
}

// The first range by stamp, then id, if it is aged.
fn oldest_aged(ranges: RangesRef, n: usize, time: f64, seconds: f64) -> Option<usize>
    requires { (n ≤ length ranges.id.now) × (n ≤ length ranges.stamp.now) × (n ≤ length ranges.touched.now) }
    ensures { result ≡ oldest time seconds (rangesOf (seen ranges.entry) 0 n) }
{
    let i = rule_choose::oldest(ranges, n)?;
    is_aged(ranges.touched[i], time, seconds).then_some(i)
}

// How many records are left, how many blocks they hold, how many spans were given out, and the version.
#[derive(Clone, Copy)]
pub struct Expiring {
    pub n: usize,
    pub held: u64,
    pub outs: usize,
    pub version: u64,
}

// While the first range by stamp, then id, pinned or not, is aged, it is given out whole.
pub fn store_expire(
    depth: &[usize],
    ranges: &mut RangesMut,
    marks: &mut [usize],
    bytes: &[u64],
    outs: &mut OutsMut,
    n: usize,
    held: u64,
    version: u64,
    time: f64,
    seconds: f64,
) -> Expiring
    requires { Ready depth.now bytes.now n held (lent ranges.old) marks.old (listed outs.old) }
    ensures same { SameColumns ranges.old ranges.new }
    ensures same_outs { SameOuts outs.old outs.new }
    ensures expired { GivenOut
        (expired (only_depth depth.now) bytes.now time seconds (rangesOf (lent ranges.old) 0 n) marks.old)
        n version (lent ranges.old) (listed outs.old) (lent ranges.new) marks.new (listed outs.new)
        result.n result.held result.outs result.version false }
{
    let mut e = Expiring {
        n,
        held,
        outs: 0,
        version,
    };
    while let Some(i) = oldest_aged(ranges.view(), e.n, time, seconds) {
        let gone = rule_evict::store_evict_entry(
            depth,
            ranges,
            marks,
            bytes,
            e.n,
            i,
            u64::MAX,
            e.version,
        );
        outs.put(e.outs, gone.out);
        e.n = gone.n;
        e.held -= gone.taken as u64;
        e.outs += 1;
        e.version = gone.version;
    }
    e
}
