// Why a call is refused: one type for every layer.
#![tactic(auto)]

pub mod fault;
pub mod names;
pub mod shown;
