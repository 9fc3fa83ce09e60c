// Where a draft goes.
#![tactic(auto)]

pub mod extent;
pub mod look;
pub mod search;
