// The checks of a whole page, by its tags and their values.
#![tactic(auto)]

pub mod whole;
