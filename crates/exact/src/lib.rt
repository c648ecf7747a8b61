// That joining records is exact. There is nothing to call: what follows from the definitions of records is stated in specs/.
#![tactic(auto)]
