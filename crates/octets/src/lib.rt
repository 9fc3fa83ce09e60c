// Bytes: numbers in either byte order, and the lists of bytes that the other crates speak of.
#![tactic(auto)]

pub mod endian;
pub mod numbers;
pub mod word;
