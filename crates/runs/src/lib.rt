// What runs and walks are like. There is nothing to call: what follows from the definitions of journals is stated in specs/.
#![tactic(auto)]
