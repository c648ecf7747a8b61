// What is published was checked: what the cabinet's job lets happen, over the running of journals. There is no code here.
#![tactic(auto)]
