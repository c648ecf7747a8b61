// The rounds of a sheet. There is nothing to call: what reading and writing do to each other is a statement about the definitions, in
// specs/.
#![tactic(auto)]
