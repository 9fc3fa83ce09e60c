// What stands before the pixels of a draft: its directory and the values after it, byte by byte.
#![tactic(auto)]

mod contents;
pub mod head;
mod numbers;
mod tags;
mod values;
