// What a draft is made by: plans, views, and the outline of the block that they make of a picture.
#![tactic(auto)]

pub mod draft;
pub mod header;
pub mod outline;
pub mod pieces;
pub mod plan;
pub mod view;
