#![tactic(auto)]
// The state of a trial as a value: changed at one place, compared with another, and how much of it is lent.
pub mod lists;
pub mod name;
pub mod short;
pub mod trial;
pub mod tried;
pub mod world;
