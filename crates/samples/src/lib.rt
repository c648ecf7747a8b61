// A small sample job. There is nothing to call: the samples are a statement about the definitions, in specs/.
#![tactic(auto)]
