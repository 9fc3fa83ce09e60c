// The opening of a page of a file in any store.
#![tactic(auto)]

pub mod page;
pub mod values;
