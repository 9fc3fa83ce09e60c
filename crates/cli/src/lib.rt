// The commands of the program.
#![tactic(auto)]

pub mod commands;
pub mod failed;
pub mod files;
pub mod info;
pub mod meaning;
pub mod relay;
pub mod replay;
pub mod window;
pub mod wishes;
