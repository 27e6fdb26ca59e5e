//! Tests of the library's calls with ample memory: each public call of `embedded`, `typed_calls` and `session_calls`
//! does what it is for, where its contract also lets it answer `OutOfMemory`.
//!
//! Expected values come from docs/RULES.md, docs/FORMATS.md and include/vorgushan.h, never from the program.
#![tactic(auto)]

#[cfg(test)]
mod calls;
#[cfg(test)]
mod copies;
#[cfg(test)]
mod increments;
#[cfg(test)]
mod keys;
#[cfg(test)]
mod lines;
#[cfg(test)]
mod locks;
#[cfg(test)]
mod looks;
#[cfg(test)]
mod outcomes;
#[cfg(test)]
mod sessions;
#[cfg(test)]
mod texts;
#[cfg(test)]
mod transactions;
#[cfg(test)]
mod views;
