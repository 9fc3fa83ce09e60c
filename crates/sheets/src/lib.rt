// Grids over pixels in memory.
#![tactic(auto)]

pub mod sheet;
