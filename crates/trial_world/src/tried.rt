// A refusal's number for each kind of answer, 0 where there was none.
use shape_answer::{
    Count, Inserted, Looked, Plain, Resolved, StoreExpired, StoreInserted, StoreRemoved, StoreUsed,
};

fn wide(n: u8) -> u64 {
    n as u64
}

pub fn plain_number(a: Plain) -> u64 {
    match a {
        Plain::Refused(n) => wide(n),
        Plain::Done => 0,
    }
}

pub fn count_number(a: Count) -> u64 {
    match a {
        Count::Refused(n) => wide(n),
        Count::Done(_) => 0,
    }
}

pub fn resolved_number(a: Resolved) -> u64 {
    match a {
        Resolved::Refused(n) => wide(n),
        Resolved::Done(_) => 0,
    }
}

pub fn inserted_number(a: Inserted) -> u64 {
    match a {
        Inserted::Refused(n) => wide(n),
        Inserted::Done(_) => 0,
    }
}

pub fn brought_number(a: StoreInserted) -> u64 {
    match a {
        StoreInserted::Refused(n) => wide(n),
        StoreInserted::Done(_) => 0,
    }
}

pub fn used_number(a: StoreUsed) -> u64 {
    match a {
        StoreUsed::Refused(n) => wide(n),
        StoreUsed::Done(_) => 0,
    }
}

pub fn removed_number(a: StoreRemoved) -> u64 {
    match a {
        StoreRemoved::Refused(n) => wide(n),
        StoreRemoved::Done(_) => 0,
    }
}

pub fn expired_number(a: StoreExpired) -> u64 {
    match a {
        StoreExpired::Refused(n) => wide(n),
        StoreExpired::Done(_) => 0,
    }
}

pub fn looked_number(a: Looked) -> u64 {
    match a {
        Looked::Refused(n) => wide(n),
        Looked::Done(_) => 0,
    }
}
