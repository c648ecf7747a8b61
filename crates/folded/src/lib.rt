// That folding is exact. There is nothing to call: what follows from the definitions of folds is stated in specs/.
#![tactic(auto)]
