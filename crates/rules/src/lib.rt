// What is known of accepted pages: theorems about the definitions, each on the contract of a function that does nothing.
#![tactic(auto)]

pub mod theorems;
