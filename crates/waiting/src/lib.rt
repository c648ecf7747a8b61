// What a step waits for: when 15 is given, and that every answer hands out the whole set. There is nothing to call: it is stated in
// specs/.
#![tactic(auto)]
