// What the dead-end report says, over the running of journals. There is no code here.
#![tactic(auto)]
