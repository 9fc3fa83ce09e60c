// The entries of a directory, and the values of the tags that a page goes by.
#![tactic(auto)]

pub mod entry;
pub mod field_type;
pub mod fields;
pub mod reading;
