// What a holder keeps in mind, and the calls that it takes.
#![tactic(auto)]

pub mod call;
pub mod moves;
pub mod state;
