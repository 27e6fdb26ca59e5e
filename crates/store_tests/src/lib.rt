//! Tests of the version store and its collector: what no clause says, that calls succeed one after the other where
//! there is memory.
#![tactic(auto)]

#[cfg(test)]
mod contents;
#[cfg(test)]
mod short;
#[cfg(test)]
mod turns;
