// The paper's Definition 7 as printed, and that the tracker is it. There is nothing to call: it is stated in specs/.
#![tactic(auto)]
