//! Tests of the structures that the machine is to stand on, each against a plain form of its own: std's maps and vectors. What
//! memory refused leaves: `rt try --test --fail-alloc N` in this folder refuses the Nth allocation of each test.
#![tactic(auto)]

#[cfg(test)]
mod cells;
#[cfg(test)]
mod chains;
#[cfg(test)]
mod gates;
#[cfg(test)]
mod locks;
#[cfg(test)]
mod threads;
#[cfg(test)]
mod tree_sequences;
