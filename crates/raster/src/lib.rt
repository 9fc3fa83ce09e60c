// Grids of pixels, their rectangles and their turns.
#![tactic(auto)]

pub mod crop;
pub mod grid;
pub mod kind;
pub mod turn;
pub mod turns;
