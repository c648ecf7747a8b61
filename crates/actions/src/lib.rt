// Two steps with one action. There is nothing to call: what they share is stated in specs/.
#![tactic(auto)]
