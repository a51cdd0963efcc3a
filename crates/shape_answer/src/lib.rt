#![tactic(auto)]
// What each call answers: a refusal's number, or that it was done, with what `model` says of it.
use model::{
    BringAnswer, ExpireAnswer, InsertAnswer, LookupAnswer, RemoveAnswer, ResolveAnswer, TouchAnswer,
};

// Set-up, pin and unpin.
#[derive(Clone, Copy)]
pub enum Plain {
    Refused(u8),
    Done,
}

// A counter.
#[derive(Clone, Copy)]
pub enum Count {
    Refused(u8),
    Done(u64),
}

#[derive(Clone, Copy)]
pub enum Resolved {
    Refused(u8),
    Done(ResolveAnswer),
}

#[derive(Clone, Copy)]
pub enum Inserted {
    Refused(u8),
    Done(InsertAnswer),
}

#[derive(Clone, Copy)]
pub enum StoreInserted {
    Refused(u8),
    Done(BringAnswer),
}

#[derive(Clone, Copy)]
pub enum StoreUsed {
    Refused(u8),
    Done(TouchAnswer),
}

#[derive(Clone, Copy)]
pub enum StoreRemoved {
    Refused(u8),
    Done(RemoveAnswer),
}

#[derive(Clone, Copy)]
pub enum StoreExpired {
    Refused(u8),
    Done(ExpireAnswer),
}

#[derive(Clone, Copy)]
pub enum Looked {
    Refused(u8),
    Done(LookupAnswer),
}
