#![tactic(auto)]
// More room never shortens a reading: theorems of the definitions only.
