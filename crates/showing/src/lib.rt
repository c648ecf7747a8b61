// What a sheet holds, printed and written; and the cabinet's own sheet, written.
#![tactic(auto)]

pub mod cabinets;
pub mod graphs;
pub mod sheets;
