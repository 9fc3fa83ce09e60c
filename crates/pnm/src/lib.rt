// Netpbm files: what a picture's file is, and the writing of its head and its pixels.
#![tactic(auto)]

pub mod cursor;
pub mod format;
pub mod layout;
