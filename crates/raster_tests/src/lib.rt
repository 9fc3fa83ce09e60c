// Tests of grids and windows against files that the Netpbm tools made.
#![tactic(auto)]

#[cfg(test)]
mod expected;
#[cfg(test)]
mod pictures;
#[cfg(test)]
mod tests;
