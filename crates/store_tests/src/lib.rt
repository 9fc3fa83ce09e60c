// Piles of stores and layers, run against a plain array.
#![tactic(auto)]

pub mod model;
#[cfg(test)]
mod tests;
