// A holder over a store: a page shown as a grid, and over a card also its drafts.
#![tactic(auto)]

pub mod cards;
pub mod holder;
pub mod replay;
pub mod shown;
pub mod token;
