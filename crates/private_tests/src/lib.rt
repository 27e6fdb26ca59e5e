//! Tests of a transaction's private side, of what it wrote and of what it has read: what no clause says, that calls
//! succeed one after the other where there is memory, and each public call once. Expected values follow from what SET
//! and KILL leave.
#![tactic(auto)]

#[cfg(test)]
mod counting;
#[cfg(test)]
mod keys;
#[cfg(test)]
mod loops;
#[cfg(test)]
mod parted;
#[cfg(test)]
mod random;
#[cfg(test)]
mod skipped;
#[cfg(test)]
mod worked;
