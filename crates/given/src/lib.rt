// Which number a call gives, exactly. There is nothing to call: specs/ has a law for each call but those that read or write a
// sheet, whose laws stand with the sheets.
#![tactic(auto)]
