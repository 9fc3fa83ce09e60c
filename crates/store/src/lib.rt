// Stores of bytes by sectors of 512, the two that lie over lent memory, and what every store comes to.
#![tactic(auto)]

pub mod promises;
pub mod slices;
pub mod traits;
