// Windows: rectangles of any grid, printed as Netpbm files.
#![tactic(auto)]

mod file;
mod part;
mod rows;
pub mod window;
