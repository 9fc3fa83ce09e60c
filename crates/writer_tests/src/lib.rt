// Tests of drafts against bytes made by the rules of the format in another language, and read by libtiff.
#![tactic(auto)]

#[cfg(test)]
mod counted;
#[cfg(test)]
mod expected;
#[cfg(test)]
mod pictures;
#[cfg(test)]
mod tests;
