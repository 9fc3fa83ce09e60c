// Bytes and numbers read from any store.
#![tactic(auto)]

pub mod numbers;
