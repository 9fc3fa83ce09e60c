// The text of a script of calls, line by line, and the hash that answers are compared by.
#![tactic(auto)]

pub mod hash;
pub mod request;
#[cfg(test)]
mod tests;
pub mod words;
