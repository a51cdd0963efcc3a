#![tactic(auto)]
// What the running sums keep: theorems of the definitions only.
