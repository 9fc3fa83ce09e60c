// The header of a file, and the walk along the links from directory to directory.
#![tactic(auto)]

pub mod directories;
pub mod walk;
