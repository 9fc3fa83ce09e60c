// The pixels of a page in any store.
#![tactic(auto)]

pub mod laws;
pub mod page;
pub mod places;
pub mod samples;
pub mod spot;
pub mod stored;
