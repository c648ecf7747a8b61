// Who may go on after a journal, and one who does: whatever is answered here, the rules were asked.
#![tactic(auto)]

pub mod choices;
pub mod entries;
pub mod whom;
