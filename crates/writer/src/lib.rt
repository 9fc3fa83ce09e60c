// A draft of what is seen of any grid through a view, sector by sector.
#![tactic(auto)]

pub mod canvas;
pub mod painting;
pub mod pixels;
pub mod sectors;
pub mod spots;
