// What made a number from 1 to 6 hold: looked for in a sheet, and said below the refusal as a finding.
#![tactic(auto)]

pub mod layouts;
pub mod pointed;
pub mod roles;
pub mod said;
pub mod sheets;
