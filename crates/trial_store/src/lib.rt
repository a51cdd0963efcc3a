#![tactic(auto)]
// The public calls that change the state, tried on a state that is a value, each with its refusal's number as the answer.
pub mod growing;
pub mod pinning;
pub mod storing;
