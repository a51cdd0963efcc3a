#![tactic(auto)]
// What every exported function has in common: an answer told as a number and a list, and the spans of a touch.
pub mod spans;
pub mod told;
