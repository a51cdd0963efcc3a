// An answer told as a number and a list: 0 and the values, or the refusal's number with the list as it was.
ghost use Rattle.std.specs.Prelude.{◌≡◌, ◌+◌, ◌≤◌};
ghost use Rattle.std.proofs.lemmas.List.Edits.{sets};
ghost use Rattle.model.specs.Lookup.{sums_in};
ghost use Rattle.shape_answer.specs.Answers.{plain_of, count_of, resolved_of, inserted_of, looked_of};
ghost use Rattle.shape_answer.specs.Answers.{store_inserted_of, store_used_of, store_removed_of, store_expired_of};
ghost use Rattle.rust_values.specs.Told.{number_of, laid, count_values, resolve_values, insert_values};
ghost use Rattle.rust_values.specs.Told.{bring_values, touch_values, remove_values, expire_values, lookup_values};

use model::EachTier;
use shape_answer::{
    Count, Inserted, Looked, Plain, Resolved, StoreExpired, StoreInserted, StoreRemoved, StoreUsed,
};

pub fn plain(a: Plain) -> u8
    ensures { result ≡ number_of (plain_of a) }
{
    match a {
        Plain::Refused(n) => n,
        Plain::Done => 0,
    }
}

pub fn count(answer: &mut [u64; 19], a: Count) -> u8
    ensures { (result ≡ number_of (count_of a)) × (answer.new ≡ laid count_values (count_of a) answer.old) }
{
    match a {
        Count::Refused(n) => n,
        Count::Done(k) => {
            answer[0] = k;
            0
        }
    }
}

pub fn path(answer: &mut [u64; 19], a: Resolved) -> u8
    ensures { (result ≡ number_of (resolved_of a)) × (answer.new ≡ laid resolve_values (resolved_of a) answer.old) }
{
    match a {
        Resolved::Refused(n) => n,
        Resolved::Done(v) => {
            answer[0] = v.path.segs as u64;
            answer[1] = v.path.blocks as u64;
            0
        }
    }
}

pub fn inserted(answer: &mut [u64; 19], a: Inserted) -> u8
    ensures { (result ≡ number_of (inserted_of a)) × (answer.new ≡ laid insert_values (inserted_of a) answer.old) }
{
    match a {
        Inserted::Refused(n) => n,
        Inserted::Done(v) => {
            answer[0] = v.path.segs as u64;
            answer[1] = v.path.blocks as u64;
            match v.split {
                None => {
                    answer[2] = 0;
                    0
                }
                Some(c) => {
                    answer[2] = 1;
                    answer[3] = c.node as u64;
                    answer[4] = c.at as u64;
                    answer[5] = c.new as u64;
                    0
                }
            }
        }
    }
}

pub fn store_inserted(answer: &mut [u64; 19], a: StoreInserted) -> u8
    ensures { (result ≡ number_of (store_inserted_of a)) × (answer.new ≡ laid bring_values (store_inserted_of a) answer.old) }
{
    match a {
        StoreInserted::Refused(n) => n,
        StoreInserted::Done(v) => {
            answer[0] = v.outs;
            answer[1] = v.blocks;
            0
        }
    }
}

pub fn store_used(answer: &mut [u64; 19], a: StoreUsed) -> u8
    ensures { (result ≡ number_of (store_used_of a)) × (answer.new ≡ laid touch_values (store_used_of a) answer.old) }
{
    match a {
        StoreUsed::Refused(n) => n,
        StoreUsed::Done(v) => {
            answer[0] = v.bytes;
            0
        }
    }
}

pub fn store_removed(answer: &mut [u64; 19], a: StoreRemoved) -> u8
    ensures { (result ≡ number_of (store_removed_of a)) × (answer.new ≡ laid remove_values (store_removed_of a) answer.old) }
{
    match a {
        StoreRemoved::Refused(n) => n,
        StoreRemoved::Done(v) => {
            answer[0] = v.writes;
            answer[1] = v.blocks;
            0
        }
    }
}

pub fn store_expired(answer: &mut [u64; 19], a: StoreExpired) -> u8
    ensures { (result ≡ number_of (store_expired_of a)) × (answer.new ≡ laid expire_values (store_expired_of a) answer.old) }
{
    match a {
        StoreExpired::Refused(n) => n,
        StoreExpired::Done(v) => {
            answer[0] = v.outs;
            0
        }
    }
}

// Eight sums, from the place `at` on.
fn tell_sums(answer: &mut [u64; 19], at: usize, t: EachTier)
    requires { at + 8 ≤ 19 }
    ensures { answer.new ≡ sets answer.old at (sums_in t) }
{
    answer[at..at + 8].copy_from_slice(&[
        t.first, t.second, t.third, t.fourth, t.fifth, t.sixth, t.seventh, t.eighth,
    ]);
}

pub fn looked(answer: &mut [u64; 19], a: Looked) -> u8
    ensures { (result ≡ number_of (looked_of a)) × (answer.new ≡ laid lookup_values (looked_of a) answer.old) }
{
    match a {
        Looked::Refused(n) => n,
        Looked::Done(v) => {
            answer[0] = v.path.segs as u64;
            answer[1] = v.path.blocks as u64;
            answer[2] = v.spans as u64;
            tell_sums(answer, 3, v.blocks);
            tell_sums(answer, 11, v.bytes);
            0
        }
    }
}
