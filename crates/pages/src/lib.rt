// What an accepted page is known by, and how it is cut into strips or tiles.
#![tactic(auto)]

pub mod geometry;
pub mod layout;
