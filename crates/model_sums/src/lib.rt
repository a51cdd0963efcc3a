#![tactic(auto)]
// The running sums of a report and the calls that keep them: definitions only, see specs/.
